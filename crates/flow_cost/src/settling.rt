ghost use Rattle.std.specs.Prelude.{◌≡◌, ◌↔◌, ℕ, ◌+◌, ◌*◌, ◌^◌, ◌<◌, ◌≤◌, ℤ, pos, ◌+ℤ◌, ◌-ℤ◌, ◌*ℤ◌, ◌≤ℤ◌, ◌<ℤ◌, neg_ℤ, int_lt, IsTrue, false};
ghost use Rattle.flow_cost.specs.Cost.{IsWithin};
ghost use Rattle.flow_cost.specs.Settle.{place_at, Pays, Stops, IsNearestSettled};

use crate::costs::Cost;

/// A product of a move and a slope.
fn scaled(by: i64, slope: i128) -> i128
    requires by { IsWithin (pos (2 ^ 40)) by }
    requires slope { IsWithin (pos (2 * 10 ^ 24)) slope }
    ensures value { result ≡ by *ℤ slope }
{
    by as i128 * slope
}

/// Whether the move from `y` by `by` costs less than the slope pays for it.
fn pays<C: Cost>(cost: &C, y: i64, by: i64, slope: i128) -> bool
    requires from { IsWithin (C.span_of cost.now) y }
    requires to { IsWithin (C.span_of cost.now) (y +ℤ by) }
    requires by { IsWithin (pos (2 ^ 40)) by }
    requires slope { IsWithin (pos (2 * 10 ^ 24)) slope }
    ensures { result ≡ int_lt (C.value_at cost.now (y +ℤ by) -ℤ C.value_at cost.now y) (by *ℤ slope) }
{
    let after = cost.at(y + by);
    let before = cost.at(y);
    after - before < scaled(by, slope)
}

/// How far `k` moves go.
fn distance(k: u64, by: i64) -> i128
    ensures { result ≡ pos k *ℤ by }
{
    k as i128 * by as i128
}

/// The place `k` moves from `x`.
fn place(x: i64, k: u64, by: i64) -> i64
    requires { IsWithin (pos (2 ^ 60)) (x +ℤ pos k *ℤ by) }
    ensures { result ≡ x +ℤ pos k *ℤ by }
{
    let way = distance(k, by);
    (x as i128 + way) as i64
}

/// How many whole steps lie between two numbers.
fn whole_steps(from: i64, to: i64, step: i64) -> u64
    requires ordered { from ≤ℤ to }
    requires low { neg_ℤ (pos (2 ^ 60)) ≤ℤ from }
    requires high { to ≤ℤ pos (2 ^ 60) }
    requires step { pos 1 ≤ℤ step }
    ensures fit { (pos result *ℤ step) ≤ℤ (to -ℤ from) }
    ensures most { (to -ℤ from) <ℤ (pos (result + 1) *ℤ step) }
    ensures small { result ≤ 2 ^ 61 }
{
    quotient(to.abs_diff(from), step.unsigned_abs())
}

/// The quotient, rounded down.
fn quotient(whole: u64, part: u64) -> u64
    requires whole { whole ≤ 2 ^ 61 }
    requires part { 1 ≤ part }
    ensures fit { result * part ≤ whole }
    ensures most { whole < (result + 1) * part }
    ensures small { result ≤ 2 ^ 61 }
{
    whole / part
}

/// A number between two.
fn middle_of(low: u64, high: u64) -> u64
    requires { low < high }
    ensures from { low ≤ result }
    ensures below { result < high }
{
    low + (high - low) / 2
}

/// Whether the move by `by` after `k` such moves from `x` costs less than the slope pays for it.
fn pays_after<C: Cost>(cost: &C, x: i64, k: u64, by: i64, slope: i128) -> bool
    requires from { IsWithin (C.span_of cost.now) (place_at x by k) }
    requires to { IsWithin (C.span_of cost.now) (place_at x by k +ℤ by) }
    requires by { IsWithin (pos (2 ^ 40)) by }
    requires slope { IsWithin (pos (2 * 10 ^ 24)) slope }
    ensures pays { IsTrue result → Pays (C.value_at cost.now) by slope (place_at x by k) }
    ensures stops { result ≡ false → Stops (C.value_at cost.now) by slope (place_at x by k) }
{
    let y = place(x, k, by);
    pays(cost, y, by, slope)
}

/// Two numbers of moves by `by` from `x`, of at most `most`: all moves before the first number pay, and the move after
/// the second one does not, unless that is `most`. The moves that are looked at lie twice as far away each time.
fn bracket<C: Cost>(cost: &C, x: i64, most: u64, by: i64, slope: i128) -> (u64, u64)
    requires from { IsWithin (C.span_of cost.now) x }
    requires to { IsWithin (C.span_of cost.now) (place_at x by most) }
    requires by { IsWithin (pos (2 ^ 40)) by }
    requires slope { IsWithin (pos (2 * 10 ^ 24)) slope }
    ensures ordered { result.0 ≤ result.1 }
    ensures within { result.1 ≤ most }
    ensures pay { (k : ℕ) → k < result.0 → Pays (C.value_at cost.now) by slope (place_at x by k) }
    ensures stops { result.1 < most → Stops (C.value_at cost.now) by slope (place_at x by result.1) }
{
    let mut low: u64 = 0;
    while low < most {
        let probe = low + low.min(most - 1 - low);
        if !pays_after(cost, x, probe, by, slope) {
            return (low, probe);
        }
        low = probe + 1;
    }
    (low, low)
}

/// How many moves by `by` from `x` pay, one after another, of at most `most`. It looks at a number of moves of the order
/// of the logarithm of the result.
fn paying<C: Cost>(cost: &C, x: i64, most: u64, by: i64, slope: i128) -> u64
    requires from { IsWithin (C.span_of cost.now) x }
    requires to { IsWithin (C.span_of cost.now) (place_at x by most) }
    requires by { IsWithin (pos (2 ^ 40)) by }
    requires slope { IsWithin (pos (2 * 10 ^ 24)) slope }
    ensures within { result ≤ most }
    ensures pay { (k : ℕ) → k < result → Pays (C.value_at cost.now) by slope (place_at x by k) }
    ensures stops { result < most → Stops (C.value_at cost.now) by slope (place_at x by result) }
{
    let (mut low, mut high) = bracket(cost, x, most, by, slope);
    while low < high {
        let middle = middle_of(low, high);
        if pays_after(cost, x, middle, by, slope) {
            low = middle + 1;
        } else {
            high = middle;
        }
    }
    low
}

/// The move back.
fn opposite(step: i64) -> i64
    requires { IsWithin (pos (2 ^ 40)) step }
    ensures { result ≡ neg_ℤ step }
{
    -step
}

/// Whether the move from `x` by `by` stays within the bounds and costs less than the slope pays for it.
fn pays_within<C: Cost>(cost: &C, x: i64, lo: i64, hi: i64, by: i64, slope: i128) -> bool
    requires from { IsWithin (C.span_of cost.now) x }
    requires low { IsWithin (C.span_of cost.now) lo }
    requires high { IsWithin (C.span_of cost.now) hi }
    requires by { IsWithin (pos (2 ^ 40)) by }
    requires slope { IsWithin (pos (2 * 10 ^ 24)) slope }
    ensures fits { IsTrue result → (lo ≤ℤ (x +ℤ by)) × ((x +ℤ by) ≤ℤ hi) }
    ensures pays { IsTrue result → Pays (C.value_at cost.now) by slope x }
    ensures stops { result ≡ false → lo ≤ℤ (x +ℤ by) → (x +ℤ by) ≤ℤ hi → Stops (C.value_at cost.now) by slope x }
{
    let to = x + by;
    if to < lo || to > hi {
        return false;
    }
    pays(cost, x, by, slope)
}

/// The place nearest to `x`, whole steps away and within the bounds, from which no step within the bounds costs less
/// than the slope pays for it. The bounds lie within the cost's span, the step from 1 to 2^40, and the slope at most
/// 2 * 10^24 from 0. It looks at a number of places of the order of the logarithm of the number of steps, and at the two
/// neighbours first: where `x` is the answer, nothing is divided.
pub fn settle<C: Cost>(cost: &C, x: i64, lo: i64, hi: i64, step: i64, slope: i128) -> i64
    requires low { (lo ≤ℤ x) × IsWithin (C.span_of cost.now) lo }
    requires high { (x ≤ℤ hi) × IsWithin (C.span_of cost.now) hi }
    requires step { (pos 1 ≤ℤ step) × (step ≤ℤ pos (2 ^ 40)) }
    requires slope { IsWithin (pos (2 * 10 ^ 24)) slope }
    ensures { IsNearestSettled (C.value_at cost.now) x lo hi step slope result }
{
    if pays_within(cost, x, lo, hi, step, slope) {
        let above = whole_steps(x, hi, step);
        let up = paying(cost, x, above, step, slope);
        return place(x, up, step);
    }
    let back = opposite(step);
    if pays_within(cost, x, lo, hi, back, slope) {
        let below = whole_steps(lo, x, step);
        let down = paying(cost, x, below, back, slope);
        return place(x, down, back);
    }
    x
}
