//! Large steps first, which halve from scale to scale until unit steps are left (capacity scaling: Edmonds and Karp 1972;
//! for convex costs Ahuja, Magnanti and Orlin 1993, chapter 14).
ghost use Rattle.std.specs.Prelude.{◌≡◌, ◌↔◌, ℕ, ◌+◌, ◌*◌, ◌^◌, ◌<◌, ◌≤◌, false, ◌||◌, ℤ, pos, ◌+ℤ◌, ◌≤ℤ◌, ◌<ℤ◌, length, vec_len, IsTrue};
ghost use Rattle.std.specs.Int.{int_max};
ghost use Rattle.flow_cost.specs.Cost.{IsWithin};
ghost use Rattle.flow_graph.specs.Contradiction.{in_set};
ghost use Rattle.flow_residual.specs.Flows.{IsStep, MeetsAll};
ghost use Rattle.flow_residual.specs.Rooms.{IsRoomFor};
ghost use Rattle.flow_solve.specs.Bounds.{surplus, size_of};
ghost use Rattle.flow_solve.specs.Progress.{IsUnderway};
ghost use Rattle.flow_solve.specs.Scales.{IsDrained, IsPassed, FallsAtMost, SettlesNear};

use crate::advancing::drain;
use flow_cost::Cost;
use flow_graph::{Name, NodeId};
use flow_residual::{Room, State, Steps};
use std::sync::ledger::Ledger;

/// The most that goes by unit steps alone.
const FEW: i128 = 4_096;

/// The highest scale.
const HIGHEST: u32 = 40;

/// The sum with a number added where that is positive.
fn with_positive(sum: i128, x: i128) -> i128
    requires sum { IsWithin (pos (2 ^ 110)) sum }
    requires x { IsWithin (pos (2 ^ 80)) x }
    ensures { result ≡ sum +ℤ int_max (pos 0) x }
{
    if x > 0 { sum + x } else { sum }
}

/// The sum of the positive excesses.
fn total_excess<N: Name, A: Name, C: Cost>(s: &State<N, A, C>) -> i128
    ensures { result ≡ surplus s.now s.now.flows }
{
    let mut sum = 0;
    for n in 0..s.graph().node_count() {
        sum = with_positive(sum, s.excess(NodeId(n)));
    }
    sum
}

/// Whether more is left to move than goes by unit steps alone: the positive excesses sum to more than 4,096.
pub fn has_much_left<N: Name, A: Name, C: Cost>(s: &State<N, A, C>) -> bool
    ensures { IsTrue result ↔ (pos 4_096 <ℤ surplus s.now s.now.flows) }
{
    total_excess(s) > FEW
}

/// How many nodes and arcs there are.
fn size<N: Name, A: Name, C: Cost>(s: &State<N, A, C>) -> u32
    ensures value { result ≡ size_of s.now }
    ensures small { result ≤ 786_432 }
{
    s.graph().node_count() + s.graph().arc_count()
}

/// `2^k`.
fn power(k: u32) -> u64
    requires { k ≤ 40 }
    ensures value { result ≡ 2 ^ k }
    ensures small { result ≤ 2 ^ 40 }
{
    1 << k
}

/// The step of a scale.
fn step_at(k: u32) -> i64
    requires { k ≤ 40 }
    ensures value { result ≡ pos (2 ^ k) }
    ensures step { IsStep result }
{
    power(k) as i64
}

/// Whether one step of a scale for each node and each arc is at least the excess.
fn covers(size: u32, k: u32, excess: i128) -> bool
    requires size { size ≤ 786_432 }
    requires scale { k ≤ 40 }
    ensures { IsTrue result ↔ (excess ≤ℤ pos (size * 2 ^ k)) }
{
    excess <= (size as u64 * power(k)) as i128
}

/// The least scale whose step, once for each node and each arc, is at least the excess; the highest where that of no lower
/// one is.
fn first_scale(size: u32, excess: i128) -> u32
    requires { size ≤ 786_432 }
    ensures highest { result ≤ 40 }
    ensures covers { result < 40 → excess ≤ℤ pos (size * 2 ^ result) }
    ensures least { (k : ℕ) → k < result → pos (size * 2 ^ k) <ℤ excess }
{
    let mut k = 0;
    while k < HIGHEST && !covers(size, k, excess) {
        k += 1;
    }
    k
}

/// Marks what is marked in another list too.
fn add_marks(marks: &mut [bool], more: &[bool])
    requires { length marks.old ≡ length more.now }
    ensures counted { length marks.new ≡ length marks.old }
    ensures added { (n : ℕ) → in_set marks.new n ≡ (in_set marks.old n || in_set more.now n) }
{
    for n in 0..more.len() {
        if more[n] {
            marks[n] = true;
        }
    }
}

/// Puts the nodes of the room's set aside, beside those that are.
fn put_aside(room: &mut Room)
    requires { IsRoomFor (vec_len room.old.set) room.old }
    ensures added { (n : ℕ) → in_set room.new.aside.items n ≡ (in_set room.old.aside.items n || in_set room.old.set.items n) }
    ensures room { IsRoomFor (vec_len room.old.set) room.new }
{
    add_marks(&mut room.aside, &room.set);
}

/// Puts no node aside.
fn put_none_aside(room: &mut Room)
    requires { IsRoomFor (vec_len room.old.set) room.old }
    ensures none { (n : ℕ) → in_set room.new.aside.items n ≡ false }
    ensures room { IsRoomFor (vec_len room.old.set) room.new }
{
    room.aside.fill(false);
}

/// Moves the step from a node until its excess is below it, or until no step can leave the nodes that it reaches: these are
/// put aside.
fn drain_or_put_aside<N: Name, A: Name, C: Cost, L: Ledger>(
    s: &mut State<N, A, C>,
    room: &mut Room,
    steps: &mut Steps<L>,
    n: NodeId,
    step: i64,
)
    requires step { IsStep step }
    requires there { n.0 < length s.old.graph.nodes }
    requires condition { MeetsAll C.value_at step s.old }
    requires passed { IsPassed step s.old room.old.aside.items n.0 }
    requires room { IsRoomFor (length s.old.graph.nodes) room.old }
    ensures underway { IsUnderway C.value_at step s.old s.new steps.old steps.new }
    ensures passed { IsPassed step s.new room.new.aside.items (n.0 + 1) }
    ensures room { IsRoomFor (length s.new.graph.nodes) room.new }
{
    // The arcs' ends are nodes.
    s.graph();
    if room.aside[n.0 as usize] {
        return;
    }
    if !drain(s, room, steps, n, step) {
        put_aside(room);
    }
}

/// Moves the step from each node until its excess is below it, or until it is put aside. One pass over the nodes is enough:
/// a node that gets a step lacked it before, and no step enters what is put aside.
fn drain_open<N: Name, A: Name, C: Cost, L: Ledger>(
    s: &mut State<N, A, C>,
    room: &mut Room,
    steps: &mut Steps<L>,
    step: i64,
)
    requires step { IsStep step }
    requires condition { MeetsAll C.value_at step s.old }
    requires room { IsRoomFor (length s.old.graph.nodes) room.old }
    ensures underway { IsUnderway C.value_at step s.old s.new steps.old steps.new }
    ensures drained { IsDrained step s.new }
    ensures room { IsRoomFor (length s.new.graph.nodes) room.new }
{
    put_none_aside(room);
    for n in 0..s.graph().node_count() {
        drain_or_put_aside(s, room, steps, NodeId(n), step);
    }
}

/// Goes by the steps of the scales from the first down to 1, that is by steps of at least 2.
fn descend<N: Name, A: Name, C: Cost, L: Ledger>(
    s: &mut State<N, A, C>,
    room: &mut Room,
    steps: &mut Steps<L>,
    first: u32,
)
    requires first { first ≤ 40 }
    requires room { IsRoomFor (length s.old.graph.nodes) room.old }
    ensures rest { s.new ≡ record s.old { flows = s.new.flows; potentials = s.new.potentials } }
    ensures near { SettlesNear C.value_at (pos (2 ^ first)) (pos (4 * size_of s.old * 2 ^ first)) s.old → SettlesNear C.value_at (pos 1) (pos (4 * size_of s.old)) s.new }
    ensures few { SettlesNear C.value_at (pos (2 ^ first)) (pos (4 * size_of s.old * 2 ^ first)) s.old → steps.new ≤ steps.old + 4 * size_of s.old * first }
    ensures counts_up { steps.old ≤ steps.new }
    ensures room { IsRoomFor (length s.new.graph.nodes) room.new }
{
    let mut k = first;
    while k > 0 {
        let step = step_at(k);
        s.settle_all(step);
        drain_open(s, room, steps, step);
        // What every state keeps bounds how much is left.
        s.graph();
        k -= 1;
    }
}

/// Moves all but little of the excess by large steps, where it is more than should go by unit steps.
pub(crate) fn approach<N: Name, A: Name, C: Cost, L: Ledger>(
    s: &mut State<N, A, C>,
    room: &mut Room,
    steps: &mut Steps<L>,
)
    requires condition { MeetsAll C.value_at (pos 1) s.old }
    requires room { IsRoomFor (length s.old.graph.nodes) room.old }
    ensures rest { s.new ≡ record s.old { flows = s.new.flows; potentials = s.new.potentials } }
    ensures condition { MeetsAll C.value_at (pos 1) s.new }
    ensures stays { surplus s.old s.old.flows ≤ℤ pos 4_096 → (s.new ≡ s.old) × (steps.new ≡ steps.old) }
    ensures scaled { pos 4_096 <ℤ surplus s.old s.old.flows → (k : ℕ) → k ≤ 40 → surplus s.old s.old.flows ≤ℤ pos (size_of s.old * 2 ^ k) → FallsAtMost (pos (4 * size_of s.old)) s.new s.new.flows × (steps.new ≤ steps.old + 4 * size_of s.old * k) }
    ensures counts_up { steps.old ≤ steps.new }
    ensures room { IsRoomFor (length s.new.graph.nodes) room.new }
{
    // What every state keeps bounds how much is left.
    s.graph();
    let excess = total_excess(s);
    if excess <= FEW {
        return;
    }
    let first = first_scale(size(s), excess);
    descend(s, room, steps, first);
    s.settle_all(1);
}
