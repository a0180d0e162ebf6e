ghost use Rattle.std.specs.Prelude.{◌≡◌, ◌↔◌, ℕ, ℤ, pos, ◌≤ℤ◌, ◌*◌, ◌^◌, unsigned_abs, ◌≤◌, IsTrue, IsSome, IfSome};
ghost use Rattle.flow_cost.specs.Cost.{IsWithin};
ghost use Rattle.flow_cost.specs.Loss.{squared, square_loss, absolute_loss, band_loss, weighted, IsWeighted, IsBanded};

use crate::costs::Cost;

/// How far from 0 a target may lie, and a number whose cost is asked.
const LIMIT: i64 = 1_000_000_000_000;

/// Whether a target and a weight are in range.
fn is_weighted(target: i64, weight: u32) -> bool
    ensures { IsTrue result ↔ IsWeighted target weight }
{
    target >= -LIMIT && target <= LIMIT && weight >= 1 && weight <= 10_000
}

/// A distance squared.
fn square_of(distance: u64) -> u128
    requires { distance ≤ 2 * 10 ^ 12 }
    ensures small { result ≤ 4 * 10 ^ 24 }
    ensures value { result ≡ squared distance }
{
    distance as u128 * distance as u128
}

/// A weight times a loss.
fn weigh(weight: u32, loss: u128) -> i128
    requires weight { weight ≤ 10_000 }
    requires loss { loss ≤ 4 * 10 ^ 24 }
    ensures value { result ≡ pos (weight * loss) }
    ensures in_range { IsWithin (pos (4 * 10 ^ 28)) result }
{
    (weight as u128 * loss) as i128
}

/// A weight times the square of the distance from a target, with the span 10^12: the terms of a weighted least squares
/// adjustment (Stone, Champernowne and Meade 1942).
#[derive(Clone, Copy, Debug)]
pub struct Square {
    target: i64,
    weight: u32,
    ghost target_fits: { unsigned_abs target ≤ 10 ^ 12 },
    ghost weight_fits: { weight ≤ 10_000 },
}

impl Square {
    /// `weight * (x - target)^2`. `None` where the target is further than 10^12 from 0 or the weight is not from 1 to
    /// 10,000.
    pub fn new(target: i64, weight: u32) -> Option<Square>
        ensures some { IsSome result ↔ IsWeighted target weight }
        ensures value { IfSome result
            (λ c. (x : ℤ) → ⟦<Square as Cost>⟧.value_at c x ≡ weighted weight square_loss target x) }
        ensures span { IfSome result (λ c. ⟦<Square as Cost>⟧.span_of c ≡ pos (10 ^ 12)) }
    {
        if is_weighted(target, weight) {
            Some(Square { target, weight })
        } else {
            None
        }
    }
}

impl Cost for Square {
    ghost use Rattle.flow_cost.specs.Laws.{lawful_square};

    ghost value_at = { λ c. weighted c.weight square_loss c.target };

    ghost span_of = { λ _. pos (10 ^ 12) };

    fn at(&self, x: i64) -> i128 {
        weigh(self.weight, square_of(x.abs_diff(self.target)))
    }

    fn span(&self) -> i64 {
        LIMIT
    }

    ghost lawful = { λ c. lawful_square c.weight c.target c.weight_fits c.target_fits };
}

/// A weight times the distance from a target, with the span 10^12.
#[derive(Clone, Copy, Debug)]
pub struct Absolute {
    target: i64,
    weight: u32,
    ghost target_fits: { unsigned_abs target ≤ 10 ^ 12 },
    ghost weight_fits: { weight ≤ 10_000 },
}

impl Absolute {
    /// `weight * |x - target|`. `None` where the target is further than 10^12 from 0 or the weight is not from 1 to
    /// 10,000.
    pub fn new(target: i64, weight: u32) -> Option<Absolute>
        ensures some { IsSome result ↔ IsWeighted target weight }
        ensures value { IfSome result
            (λ c. (x : ℤ) → ⟦<Absolute as Cost>⟧.value_at c x ≡ weighted weight absolute_loss target x) }
        ensures span { IfSome result (λ c. ⟦<Absolute as Cost>⟧.span_of c ≡ pos (10 ^ 12)) }
    {
        if is_weighted(target, weight) {
            Some(Absolute { target, weight })
        } else {
            None
        }
    }
}

impl Cost for Absolute {
    ghost use Rattle.flow_cost.specs.Laws.{lawful_absolute};

    ghost value_at = { λ c. weighted c.weight absolute_loss c.target };

    ghost span_of = { λ _. pos (10 ^ 12) };

    fn at(&self, x: i64) -> i128 {
        weigh(self.weight, x.abs_diff(self.target) as u128)
    }

    fn span(&self) -> i64 {
        LIMIT
    }

    ghost lawful = { λ c. lawful_absolute c.weight c.target c.weight_fits c.target_fits };
}

/// A weight times the square of what the distance from a target has beyond a width, with the span 10^12.
#[derive(Clone, Copy, Debug)]
pub struct Band {
    target: i64,
    weight: u32,
    width: u64,
    ghost target_fits: { unsigned_abs target ≤ 10 ^ 12 },
    ghost weight_fits: { weight ≤ 10_000 },
}

impl Band {
    /// `weight * max(0, |x - target| - width)^2`. `None` where the target is further than 10^12 from 0, the weight is not
    /// from 1 to 10,000, or the width is not from 0 to 10^12.
    pub fn new(target: i64, weight: u32, width: i64) -> Option<Band>
        ensures some { IsSome result ↔ IsBanded target weight width }
        ensures value { IfSome result
            (λ c. (x : ℤ) → ⟦<Band as Cost>⟧.value_at c x ≡ weighted weight (band_loss (unsigned_abs width)) target x) }
        ensures span { IfSome result (λ c. ⟦<Band as Cost>⟧.span_of c ≡ pos (10 ^ 12)) }
    {
        if is_weighted(target, weight) && width >= 0 && width <= LIMIT {
            let width = width.unsigned_abs();
            Some(Band {
                target,
                weight,
                width,
            })
        } else {
            None
        }
    }
}

impl Cost for Band {
    ghost use Rattle.flow_cost.specs.Laws.{lawful_band};

    ghost value_at = { λ c. weighted c.weight (band_loss c.width) c.target };

    ghost span_of = { λ _. pos (10 ^ 12) };

    fn at(&self, x: i64) -> i128 {
        weigh(
            self.weight,
            square_of(x.abs_diff(self.target).saturating_sub(self.width)),
        )
    }

    fn span(&self) -> i64 {
        LIMIT
    }

    ghost lawful = { λ c. lawful_band c.weight c.width c.target c.weight_fits c.target_fits };
}
