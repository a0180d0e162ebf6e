use crate::asking::{nearest, settled, value};
use flow_cost::Cost;
use flow_graph::{ArcId, Name};
use flow_residual::State;

/// The widest window.
const WIDEST: i64 = 1 << 59;

/// The bounds of an arc; none but 0 where the arc is not there.
pub(crate) fn bounds<N: Name, A: Name, C: Cost>(s: &State<N, A, C>, a: u32) -> (i64, i64) {
    if a >= s.graph().arc_count() {
        return (0, 0);
    }
    s.graph().bounds(ArcId(a))
}

/// The number within an arc's bounds that settles the arc at price 0, nearest to 0; 0 where the arc is not there.
fn unpriced<N: Name, A: Name, C: Cost>(s: &State<N, A, C>, a: u32) -> i64 {
    if a >= s.graph().arc_count() {
        return 0;
    }
    let (lo, hi) = bounds(s, a);
    settled(s.cost(ArcId(a)), nearest(lo, hi, 0), lo, hi, 0)
}

/// How far from 0 the flows may lie that are looked at: four times as far as all flows at price 0 together. Bounds further
/// off, as those of sums without a row, would let a flat arc carry any number around.
pub(crate) fn window<N: Name, A: Name, C: Cost>(s: &State<N, A, C>) -> i64 {
    let mut sum: u64 = 250;
    for a in 0..s.graph().arc_count() {
        sum = sum.saturating_add(unpriced(s, a).unsigned_abs());
    }
    sum.saturating_mul(4).min(WIDEST as u64) as i64
}

/// Whether all numbers within an arc's bounds cost the same.
fn is_flat<C: Cost>(cost: &C, lo: i64, hi: i64) -> bool {
    let first = value(cost, lo);
    lo < hi && value(cost, lo.saturating_add(1)) == first && value(cost, hi) == first
}

/// Whether an arc lets any flow through at no cost, so that its ends have the same potential: it is flat, and its bounds
/// reach over the whole window.
pub(crate) fn is_open<N: Name, A: Name, C: Cost>(s: &State<N, A, C>, a: u32, window: i64) -> bool {
    if a >= s.graph().arc_count() {
        return false;
    }
    let (lo, hi) = bounds(s, a);
    lo <= window.saturating_neg() && hi >= window && is_flat(s.cost(ArcId(a)), lo, hi)
}
