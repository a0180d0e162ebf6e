ghost use Rattle.std.specs.Prelude.{◌≡◌, ℕ, ◌*◌, ◌^◌, ◌<◌, if◌then◌else◌, ℤ, pos, ◌+ℤ◌, ◌-ℤ◌, neg_ℤ, ◌≤ℤ◌, Some, All, IfOk, length, map, slice_get, slice_index_or, replicate};
ghost use Rattle.std.specs.List.{AllZip};
ghost use Rattle.flow_cost.specs.Cost.{IsWithin};
ghost use Rattle.flow_graph.specs.Circulation.{IsFlow, excess};
ghost use Rattle.flow_residual.specs.Flows.{IsStep, nearest_within};
ghost use Rattle.flow_residual.specs.Excess.{arc_adds};

use crate::rooms::filled;
use flow_graph::{ArcId, Graph, Name, NodeId};
use no_memory::NoMemory;
use std::alloc::Global;

/// The number within the bounds that is nearest to another.
pub(crate) fn nearest(lo: i64, hi: i64, x: i64) -> i64
    ensures { result ≡ nearest_within lo hi x }
{
    lo.max(hi.min(x))
}

/// How much more a flow is than another.
pub(crate) fn gap(before: i64, after: i64) -> i64
    requires before { IsWithin (pos (2 ^ 60)) before }
    requires after { IsWithin (pos (2 ^ 60)) after }
    ensures { result ≡ after -ℤ before }
{
    after - before
}

/// A flow that moves by an amount.
pub(crate) fn moved(x: i64, by: i64) -> i64
    requires x { IsWithin (pos (2 ^ 60)) x }
    requires by { IsWithin (pos (2 ^ 40)) by }
    ensures { result ≡ x +ℤ by }
{
    x + by
}

/// The step, or its negative.
pub(crate) fn signed(step: i64, up: bool) -> i64
    requires { IsStep step }
    ensures value { result ≡ (if up then step else neg_ℤ step) }
    ensures small { IsWithin (pos (2 ^ 40)) result }
{
    if up { step } else { -step }
}

/// For each arc the number within its bounds that is nearest to 0.
pub(crate) fn first_flows<N: Name, A: Name>(
    alloc: Global,
    g: &Graph<N, A>,
) -> Result<Vec<i64>, NoMemory>
    ensures { IfOk result (λ v. v.items ≡ map (λ arc. nearest_within arc.lo arc.hi (pos 0)) g.now.arcs) }
{
    let mut flows = Vec::new(alloc);
    for a in 0..g.arc_count() {
        let (lo, hi) = g.bounds(ArcId(a));
        if flows.push(nearest(lo, hi, 0)).is_err() {
            return Err(NoMemory);
        }
    }
    Ok(flows)
}

/// A number with what is added.
fn plus(sum: i128, x: i64) -> i128
    requires sum { IsWithin (pos (2 ^ 100)) sum }
    requires x { IsWithin (pos (2 ^ 61)) x }
    ensures { result ≡ sum +ℤ x }
{
    sum + x as i128
}

/// A number with what is taken off.
fn minus(sum: i128, x: i64) -> i128
    requires sum { IsWithin (pos (2 ^ 100)) sum }
    requires x { IsWithin (pos (2 ^ 61)) x }
    ensures { result ≡ sum -ℤ x }
{
    sum - x as i128
}

/// Adds what an arc carries at its head, and takes it off at its tail.
pub(crate) fn carry(out: &mut Vec<i128>, tail: NodeId, head: NodeId, x: i64)
    requires tail { tail.0 < length out.old.items }
    requires head { head.0 < length out.old.items }
    requires x { IsWithin (pos (2 ^ 61)) x }
    requires small { All (IsWithin (pos (2 ^ 90))) out.old.items }
    ensures counted { length out.new.items ≡ length out.old.items }
    ensures carried { (n : ℕ) → n < length out.old.items → slice_index_or out.new.items n (pos 0) ≡ slice_index_or out.old.items n (pos 0) +ℤ arc_adds tail.0 head.0 x n }
{
    let more = plus(out[head.0 as usize], x);
    out[head.0 as usize] = more;
    let less = minus(out[tail.0 as usize], x);
    out[tail.0 as usize] = less;
}

/// Adds what each arc carries at its head, and takes it off at its tail.
fn carry_all<N: Name, A: Name>(g: &Graph<N, A>, flows: &[i64], out: &mut Vec<i128>)
    requires flows { AllZip IsFlow g.now.arcs flows.now }
    requires empty { out.old.items ≡ replicate (length g.now.nodes) (pos 0) }
    ensures counted { length out.new.items ≡ length g.now.nodes }
    ensures each { (n : ℕ) → n < length g.now.nodes → slice_index_or out.new.items n (pos 0) ≡ excess g.now.arcs flows.now n }
{
    for a in 0..g.arc_count() {
        let (tail, head) = g.ends(ArcId(a));
        carry(out, tail, head, flows[a as usize]);
    }
}

/// The excess of each node.
pub(crate) fn excesses_of<N: Name, A: Name>(
    alloc: Global,
    g: &Graph<N, A>,
    flows: &[i64],
) -> Result<Vec<i128>, NoMemory>
    requires { AllZip IsFlow g.now.arcs flows.now }
    ensures counted { IfOk result (λ v. length v.items ≡ length g.now.nodes) }
    ensures each { IfOk result (λ v. (n : ℕ) → n < length g.now.nodes → slice_index_or v.items n (pos 0) ≡ excess g.now.arcs flows.now n) }
{
    let mut out = filled(alloc, g.node_count() as usize, 0)?;
    carry_all(g, flows, &mut out);
    Ok(out)
}

/// Writes a value into each place.
fn fill<T: Copy>(xs: &mut [T], value: T)
    ensures { xs.new ≡ replicate (length xs.old) value }
{
    for x in xs.iter_mut() {
        *x = value;
    }
}

/// Writes the excess of each node.
pub(crate) fn find_excesses<N: Name, A: Name>(g: &Graph<N, A>, flows: &[i64], out: &mut Vec<i128>)
    requires flows { AllZip IsFlow g.now.arcs flows.now }
    requires sized { length out.old.items ≡ length g.now.nodes }
    ensures counted { length out.new.items ≡ length g.now.nodes }
    ensures each { (n : ℕ) → n < length g.now.nodes → slice_index_or out.new.items n (pos 0) ≡ excess g.now.arcs flows.now n }
{
    fill(out, 0);
    carry_all(g, flows, out);
}
