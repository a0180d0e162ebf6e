ghost use Rattle.std.specs.Prelude.{All, slice_index_or, ◌≤ℤ◌, not, ◌&&◌, ◌≤◌, ◌≡◌, ◌↔◌, ℕ, ◌*◌, ◌^◌, ◌==◌, ℤ, pos, List, length, IsTrue, ◌<◌, ◌+ℤ◌, ◌-ℤ◌, unsigned_abs, if◌then◌else◌};
ghost use Rattle.flow_cost.specs.Cost.{IsWithin, slope};
ghost use Rattle.flow_graph.specs.Circulation.{IsCirculation, excess};
ghost use Rattle.flow_graph.specs.Condition.{ShowsLeast, IsLeastCirculation, FitSpans, ArePotentials};
ghost use Rattle.flow_graph.specs.Contradiction.{Contradicts};
ghost use Rattle.flow_graph.specs.Network.{IsNetwork};
ghost use Rattle.flow_check.specs.Shown.{IsShown, IsArcShown};

use flow_cost::Cost;
use flow_graph::{ArcId, Graph, Name, NodeId};

/// What an arc that carries `x` brings to a node at one of its ends.
fn share(end: u32, node: u32, x: i64) -> i128
    ensures value { result ≡ (if end == node then x else pos 0) }
    ensures small { unsigned_abs result ≤ 2 ^ 63 }
{
    if end == node { x as i128 } else { 0 }
}

/// The sum with what an arc that carries `x` adds to the excess of a node.
fn with_arc(sum: i128, tail: u32, head: u32, node: u32, x: i64) -> i128
    requires { unsigned_abs sum < 2 ^ 100 }
    ensures { result ≡
        sum +ℤ ((if head == node then x else pos 0) -ℤ (if tail == node then x else pos 0)) }
{
    let entering = share(head, node, x);
    let leaving = share(tail, node, x);
    sum + entering - leaving
}

/// What enters a node less what leaves it.
fn excess_at<N: Name, A: Name>(g: &Graph<N, A>, flows: &[i64], node: NodeId) -> i128
    requires network { IsNetwork N.eq A.eq g.now }
    requires there { node.0 < length g.now.nodes }
    requires flows { length flows.now ≡ length g.now.arcs }
    ensures { result ≡ excess g.now.arcs flows.now node.0 }
{
    let mut excess: i128 = 0;
    for a in g.arcs_at(node) {
        let (tail, head) = g.ends(a);
        let x = flows[a.0 as usize];
        excess = with_arc(excess, tail.0, head.0, node.0, x);
    }
    excess
}

/// Whether as much enters each node as leaves it.
fn is_balanced<N: Name, A: Name>(g: &Graph<N, A>, flows: &[i64]) -> bool
    requires { length flows.now ≡ length g.now.arcs }
    ensures network { IsNetwork N.eq A.eq g.now }
    ensures balanced { IsTrue result ↔
        ((node : ℕ) → node < length g.now.nodes → excess g.now.arcs flows.now node ≡ pos 0) }
{
    for node in 0..g.node_count() {
        if excess_at(g, flows, NodeId(node)) != 0 {
            return false;
        }
    }
    true
}

/// What the unit after `x` costs.
fn unit_cost<C: Cost>(cost: &C, x: i64) -> i128
    requires from { IsWithin (C.span_of cost.now) x }
    requires to { IsWithin (C.span_of cost.now) (x +ℤ pos 1) }
    ensures { result ≡ slope (C.value_at cost.now) x }
{
    cost.at(x + 1) - cost.at(x)
}

/// Whether a number is at its upper bound, or the next unit costs at least the rise.
fn next_unit_holds<C: Cost>(cost: &C, hi: i64, x: i64, rise: i128) -> bool
    requires from { IsWithin (C.span_of cost.now) x }
    requires to { IsWithin (C.span_of cost.now) hi }
    requires below { x ≤ℤ hi }
    ensures { IsTrue result ↔ ((x +ℤ pos 1) ≤ℤ hi → rise ≤ℤ slope (C.value_at cost.now) x) }
{
    if x == hi {
        return true;
    }
    unit_cost(cost, x) >= rise
}

/// Whether a number is at its lower bound, or the last unit costs at most the rise.
fn last_unit_holds<C: Cost>(cost: &C, lo: i64, x: i64, rise: i128) -> bool
    requires from { IsWithin (C.span_of cost.now) x }
    requires to { IsWithin (C.span_of cost.now) lo }
    requires above { lo ≤ℤ x }
    ensures { IsTrue result ↔
        (lo ≤ℤ (x -ℤ pos 1) → slope (C.value_at cost.now) (x -ℤ pos 1) ≤ℤ rise) }
{
    if x == lo {
        return true;
    }
    unit_cost(cost, x - 1) <= rise
}

/// Whether a number lies within its bounds and both of these hold.
fn is_shown<C: Cost>(cost: &C, lo: i64, hi: i64, x: i64, rise: i128) -> bool
    requires low { IsWithin (C.span_of cost.now) lo }
    requires high { IsWithin (C.span_of cost.now) hi }
    ensures { IsTrue result ↔ IsShown (C.value_at cost.now) lo hi x rise }
{
    if x < lo || x > hi {
        return false;
    }
    next_unit_holds(cost, hi, x, rise) && last_unit_holds(cost, lo, x, rise)
}

/// The potential of the node that an arc enters, less that of the node that it leaves.
fn rise_between(potentials: &[i128], tail: NodeId, head: NodeId) -> i128
    requires small { All (IsWithin (pos (10 ^ 24))) potentials.now }
    requires tail { tail.0 < length potentials.now }
    requires head { head.0 < length potentials.now }
    ensures { result ≡
        slice_index_or potentials.now head.0 (pos 0) -ℤ slice_index_or potentials.now tail.0 (pos 0) }
{
    potentials[head.0 as usize] - potentials[tail.0 as usize]
}

/// Whether the flow of an arc is such, under its cost and its rise.
fn arc_is_shown<N: Name, A: Name, C: Cost>(
    g: &Graph<N, A>,
    costs: &[C],
    flows: &[i64],
    potentials: &[i128],
    a: ArcId,
) -> bool
    requires there { a.0 < length g.now.arcs }
    requires costs { FitSpans C.span_of g.now.arcs costs.now }
    requires flows { length flows.now ≡ length g.now.arcs }
    requires potentials { ArePotentials (pos (10 ^ 24)) (length g.now.nodes) potentials.now }
    ensures { IsTrue result ↔
        IsArcShown C.value_at g.now.arcs costs.now flows.now potentials.now a.0 }
{
    let (tail, head) = g.ends(a);
    let (lo, hi) = g.bounds(a);
    let rise = rise_between(potentials, tail, head);
    let place = a.0 as usize;
    is_shown(&costs[place], lo, hi, flows[place], rise)
}

/// Whether each arc's flow is such.
fn are_shown<N: Name, A: Name, C: Cost>(
    g: &Graph<N, A>,
    costs: &[C],
    flows: &[i64],
    potentials: &[i128],
) -> bool
    requires costs { FitSpans C.span_of g.now.arcs costs.now }
    requires flows { length flows.now ≡ length g.now.arcs }
    requires potentials { ArePotentials (pos (10 ^ 24)) (length g.now.nodes) potentials.now }
    ensures { IsTrue result ↔
        ((a : ℕ) → IsArcShown C.value_at g.now.arcs costs.now flows.now potentials.now a) }
{
    for a in 0..g.arc_count() {
        if !arc_is_shown(g, costs, flows, potentials, ArcId(a)) {
            return false;
        }
    }
    true
}

/// Whether the flows are a circulation that the potentials show least: each flow lies within its arc's bounds and meets
/// the condition at step 1, and as much enters each node as leaves it. The flows may be any numbers, and the potentials
/// lie up to 10^24 away from 0. Each arc is looked at three times at most, and no memory is taken.
pub fn shows_least<N: Name, A: Name, C: Cost>(
    g: &Graph<N, A>,
    costs: &[C],
    flows: &[i64],
    potentials: &[i128],
) -> bool
    requires costs { FitSpans C.span_of g.now.arcs costs.now }
    requires flows { length flows.now ≡ length g.now.arcs }
    requires potentials { ArePotentials (pos (10 ^ 24)) (length g.now.nodes) potentials.now }
    ensures shows { IsTrue result ↔
        ShowsLeast C.value_at (length g.now.nodes) g.now.arcs costs.now flows.now potentials.now }
    ensures least { IsTrue result →
        IsLeastCirculation C.value_at (length g.now.nodes) g.now.arcs costs.now flows.now }
{
    are_shown(g, costs, flows, potentials) && is_balanced(g, flows)
}

/// The sum with the bound of an arc that crosses from one side to the other.
fn with_crossing(sum: i128, to: bool, from: bool, bound: i64) -> i128
    requires { unsigned_abs sum < 2 ^ 100 }
    ensures { result ≡ sum +ℤ (if to && not from then bound else pos 0) }
{
    if to && !from {
        sum + bound as i128
    } else {
        sum
    }
}

/// Whether the lower bounds of the arcs that enter the set of nodes sum to more than the upper bounds of those that leave
/// it. Then there is no circulation. The set has one flag for each node. It takes no memory.
pub fn contradicts<N: Name, A: Name>(g: &Graph<N, A>, set: &[bool]) -> bool
    requires { length set.now ≡ length g.now.nodes }
    ensures gap { IsTrue result ↔ Contradicts g.now.arcs set.now }
    ensures none { IsTrue result →
        (xs : List ℤ) → IsCirculation (length g.now.nodes) g.now.arcs xs → ⊥ }
{
    let mut entering: i128 = 0;
    let mut leaving: i128 = 0;
    for a in 0..g.arc_count() {
        let (tail, head) = g.ends(ArcId(a));
        let (lo, hi) = g.bounds(ArcId(a));
        let (from, to) = (set[tail.0 as usize], set[head.0 as usize]);
        entering = with_crossing(entering, to, from, lo);
        leaving = with_crossing(leaving, from, to, hi);
    }
    leaving < entering
}
