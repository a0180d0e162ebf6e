ghost use Rattle.std.specs.Prelude.{◌≡◌, ◌↔◌, ℕ, ℤ, pos, ◌*ℤ◌, ◌≤ℤ◌, ◌^◌, ◌*◌, unsigned_abs, ◌≤◌, IsSome, IfSome};
ghost use Rattle.flow_cost.specs.Cost.{IsWithin, IsLawful};
ghost use Rattle.flow_cost.specs.Loss.{IsLinear};

/// A cost of a whole number, whose next unit never costs less than the one before. Costs are whole numbers too, from
/// -4 * 10^28 to 4 * 10^28; a unit more or less changes them by at most 4 * 10^16.
pub trait Cost: Drop {
    /// What a number costs.
    ghost value_at: { Self → ℤ → ℤ };

    /// How far from 0 the laws hold.
    ghost span_of: { Self → ℤ };

    /// What `x` costs, where it lies no further from 0 than the span.
    fn at(&self, x: i64) -> i128
        requires { IsWithin (span_of self.now) x }
        ensures value { result ≡ value_at self.now x }
        ensures in_range { IsWithin (pos (4 * 10 ^ 28)) result };

    /// How far from 0 a number may lie, from 1 to 2^60.
    fn span(&self) -> i64
        ensures { result ≡ span_of self.now };

    /// Every cost of the type is lawful.
    ghost lawful: { (c : Self) → IsLawful (value_at c) (span_of c) };
}

/// Costs nothing anywhere, with the span 2^60.
#[derive(Clone, Copy, Debug, PartialEq, Eq)]
pub struct Free;

impl Cost for Free {
    ghost use Rattle.flow_cost.specs.Laws.{lawful_free};

    ghost value_at = { λ _ _. pos 0 };

    ghost span_of = { λ _. pos (2 ^ 60) };

    fn at(&self, _x: i64) -> i128 {
        0
    }

    fn span(&self) -> i64 {
        1 << 60
    }

    ghost lawful = { λ _. lawful_free };
}

/// A cost of one of two types, with the span of the one that it holds.
#[derive(Debug, Drop)]
pub enum Either<C, D> {
    One(C),
    Other(D),
}

impl<C: Cost, D: Cost> Cost for Either<C, D> {
    ghost use Rattle.flow_cost.specs.declared.costs.Either.TheVariants.{One, Other};

    ghost value_at = { elim [ One c ↦ C.value_at c | Other d ↦ D.value_at d ] };

    ghost span_of = { elim [ One c ↦ C.span_of c | Other d ↦ D.span_of d ] };

    fn at(&self, x: i64) -> i128 {
        match self {
            Either::One(cost) => cost.at(x),
            Either::Other(cost) => cost.at(x),
        }
    }

    fn span(&self) -> i64 {
        match self {
            Either::One(cost) => cost.span(),
            Either::Other(cost) => cost.span(),
        }
    }

    ghost lawful = { elim [ One c ↦ C.lawful c | Other d ↦ D.lawful d ] };
}

/// A product, which fits the wider type.
fn product(a: i64, b: i64) -> i128
    ensures { result ≡ a *ℤ b }
{
    a as i128 * b as i128
}

/// A cost in proportion to the number.
#[derive(Clone, Copy, Debug)]
pub struct Linear {
    slope: i64,
    span: i64,
    ghost span_low: { pos 1 ≤ℤ span },
    ghost span_high: { span ≤ℤ pos (2 ^ 60) },
    ghost slope_fits: { unsigned_abs slope ≤ 4 * 10 ^ 16 },
    ghost ends_fit: { unsigned_abs slope * unsigned_abs span ≤ 4 * 10 ^ 28 },
}

impl Linear {
    /// `slope * x` for each `x` up to `span` away from 0. `None` where the span is not from 1 to 2^60, the slope is
    /// further than 4 * 10^16 from 0, or the cost at the end of the span is further than 4 * 10^28 from 0.
    pub fn new(slope: i64, span: i64) -> Option<Linear>
        ensures some { IsSome result ↔ IsLinear slope span }
        ensures value { IfSome result (λ c. (x : ℤ) → ⟦<Linear as Cost>⟧.value_at c x ≡ slope *ℤ x) }
        ensures span { IfSome result (λ c. ⟦<Linear as Cost>⟧.span_of c ≡ span) }
    {
        let fits = span >= 1
            && span <= 1 << 60
            && slope.unsigned_abs() <= 40_000_000_000_000_000
            && slope.unsigned_abs() as u128 * span.unsigned_abs() as u128
                <= 40_000_000_000_000_000_000_000_000_000;
        if fits {
            Some(Linear { slope, span })
        } else {
            None
        }
    }
}

impl Cost for Linear {
    ghost use Rattle.flow_cost.specs.Laws.{lawful_linear};

    ghost value_at = { λ c x. c.slope *ℤ x };

    ghost span_of = { λ c. c.span };

    fn at(&self, x: i64) -> i128 {
        product(self.slope, x)
    }

    fn span(&self) -> i64 {
        self.span
    }

    ghost lawful = { λ c. lawful_linear c.slope c.span c.span_low c.span_high c.slope_fits c.ends_fit };
}
