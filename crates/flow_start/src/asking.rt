ghost use Rattle.std.specs.Prelude.{◌≡◌, ◌*◌, ◌^◌, ℤ, pos, neg_ℤ, ◌≤ℤ◌};
ghost use Rattle.flow_cost.specs.Cost.{IsWithin};

use flow_cost::{Cost, settle};

/// More than any slope.
pub(crate) const NEVER: i64 = 1 << 60;

/// The furthest from 0 that a price may be.
const FURTHEST: i128 = 2_000_000_000_000_000_000_000_000;

/// The number within two bounds that is nearest to another; the lower bound, where they are out of order.
pub(crate) fn nearest(lo: i64, hi: i64, x: i64) -> i64
    ensures low { lo ≤ℤ result }
    ensures high { lo ≤ℤ hi → result ≤ℤ hi }
{
    if x <= lo || hi <= lo {
        lo
    } else if x >= hi {
        hi
    } else {
        x
    }
}

/// How far from 0 a cost may be asked.
fn span_of<C: Cost>(cost: &C) -> i64
    ensures value { result ≡ C.span_of cost.now }
    ensures low { pos 1 ≤ℤ result }
{
    cost.span()
}

/// What a number costs, moved into the cost's span.
pub(crate) fn value<C: Cost>(cost: &C, x: i64) -> i128
    ensures { IsWithin (pos (4 * 10 ^ 28)) result }
{
    let span = span_of(cost);
    cost.at(nearest(-span, span, x))
}

/// How much more the next number costs.
pub(crate) fn slope<C: Cost>(cost: &C, x: i64) -> i64 {
    let more = value(cost, x.saturating_add(1)) - value(cost, x);
    more.min(NEVER as i128).max(-(NEVER as i128)) as i64
}

/// A price that a cost may be asked at.
fn asked_price(price: i128) -> i128
    ensures { IsWithin (pos (2 * 10 ^ 24)) result }
{
    price.min(FURTHEST).max(-FURTHEST)
}

/// Where a number settles between two bounds at a price, all of them moved to where the cost may be asked, found by halving.
fn searched<C: Cost>(cost: &C, x: i64, lo: i64, hi: i64, price: i128) -> i64 {
    let span = span_of(cost);
    let lo = nearest(-span, span, lo);
    let hi = nearest(lo, span, hi);
    settle(cost, nearest(lo, hi, x), lo, hi, 1, asked_price(price))
}

/// A quotient, rounded away from 0; none where the divisor is not positive.
fn quotient_away(dividend: i128, divisor: i128) -> Option<i128> {
    if divisor <= 0 {
        return None;
    }
    let most = divisor.saturating_sub(1);
    if dividend > 0 {
        dividend.saturating_add(most).checked_div(divisor)
    } else {
        dividend.saturating_sub(most).checked_div(divisor)
    }
}

/// How far from `x` the slope of a square meets a price.
fn straight_way<C: Cost>(cost: &C, x: i64, price: i128) -> Option<i128> {
    let up = slope(cost, x) as i128;
    let down = slope(cost, x.saturating_sub(1)) as i128;
    if up < price {
        let bend = (slope(cost, x.saturating_add(1)) as i128).saturating_sub(up);
        quotient_away(price.saturating_sub(up), bend)
    } else if down > price {
        let bend = down.saturating_sub(slope(cost, x.saturating_sub(2)) as i128);
        quotient_away(price.saturating_sub(down), bend)
    } else {
        Some(0)
    }
}

/// Whether a number between two bounds is the nearest to `x` that settles at a price.
fn is_settled<C: Cost>(cost: &C, x: i64, (lo, hi): (i64, i64), price: i128, y: i64) -> bool {
    let up = slope(cost, y) as i128;
    let down = slope(cost, y.saturating_sub(1)) as i128;
    if y > x {
        (y >= hi || up >= price) && down < price
    } else if y < x {
        (y <= lo || down <= price) && up > price
    } else {
        (y >= hi || up >= price) && (y <= lo || down <= price)
    }
}

/// The number between two bounds to which a straight slope leads from `x` at a price, where it settles there.
fn guessed<C: Cost>(cost: &C, x: i64, (lo, hi): (i64, i64), price: i128) -> Option<i64> {
    let there = (x as i128).saturating_add(straight_way(cost, x, price)?);
    let y = nearest(
        lo,
        hi,
        there.min(i64::MAX as i128).max(i64::MIN as i128) as i64,
    );
    if is_settled(cost, x, (lo, hi), price, y) {
        Some(y)
    } else {
        None
    }
}

/// Where a number within two bounds settles between them at a price. The slope of a square is straight, so a guess comes first.
pub(crate) fn settled<C: Cost>(cost: &C, x: i64, lo: i64, hi: i64, price: i128) -> i64 {
    match guessed(cost, x, (lo, hi), price) {
        Some(y) => y,
        None => searched(cost, x, lo, hi, price),
    }
}
