//! A row of a source: a measure with a target or none, and bounds.

ghost use Rattle.std.specs.Prelude.{◌≡◌, ◌↔◌, ◌≤◌, ◌*◌, pos, ◌≤ℤ◌, ◌<◌, neg_ℤ, IsTrue, IfSome, IfNone};
ghost use Rattle.sut_tables.specs.Rows.{InRange, IsAim, IsPenalty, IsRow};
ghost use Rattle.sut_tables.specs.Costs.{loss, term};

use std::marker::Model;
use sut_measures::Measure;

// The largest number of a source, in whole currency units.
const LIMIT: i64 = 1_000_000_000_000;

/// How the distance of a value to its target is counted, in whole currency units.
#[derive(Debug, Clone, Copy, PartialEq, Eq)]
pub enum Penalty {
    /// The square of the distance.
    Square,
    /// The distance itself.
    Absolute,
    /// The square of what the distance has beyond a width of 0 to 10^12.
    Band(i64),
}

/// A row of a source: a measure, a target or none, and the bounds of the measure's value, in whole currency units of
/// -10^12 to 10^12.
#[derive(Drop)]
pub struct Row {
    measure: Measure,
    target: Option<i64>,
    penalty: Penalty,
    grade: u8,
    weight: u32,
    lower: i64,
    upper: i64,
}

impl Model for Row {
    ghost use Rattle.sut_tables.specs.RowFacts.{RowFacts};

    ghost Value = { RowFacts };

    ghost use Rattle.sut_tables.specs.RowView.{row_of, row_inside};
    ghost use Rattle.sut_tables.specs.Rows.{IsRow};

    ghost view = { row_of };

    ghost invariant = { λ r. IsRow (row_of r) };

    ghost inverse = { row_inside };
}

fn is_in_range(x: i64) -> bool
    ensures { IsTrue result ↔ InRange x }
{
    -LIMIT <= x && x <= LIMIT
}

fn is_penalty(penalty: Penalty) -> bool
    ensures { IsTrue result ↔ IsPenalty penalty }
{
    match penalty {
        Penalty::Square | Penalty::Absolute => true,
        Penalty::Band(width) => 0 <= width && width <= LIMIT,
    }
}

// Whether a target, or none, may have this penalty, grade and weight.
fn is_aim(target: Option<i64>, penalty: Penalty, grade: u8, weight: u32) -> bool
    ensures { IsTrue result ↔ IsAim target penalty grade weight }
{
    match target {
        None => penalty == Penalty::Square && grade == 0 && weight == 0,
        Some(target) => {
            is_in_range(target) && is_penalty(penalty) && 1 <= weight && weight <= 10_000
        }
    }
}

// What a distance of at most 2 * 10^12 counts.
fn loss(penalty: Penalty, distance: u64) -> u128
    requires { distance ≤ 2000000000000 }
    ensures value { result ≡ loss penalty distance }
    ensures bound { result ≤ 2000000000000 * 2000000000000 }
{
    match penalty {
        Penalty::Square => (distance as u128) * (distance as u128),
        Penalty::Absolute => distance as u128,
        Penalty::Band(width) => {
            let beyond = distance.saturating_sub(width.unsigned_abs()) as u128;
            beyond * beyond
        }
    }
}

impl Row {
    /// A row of these parts. None comes exactly where a number is not in -10^12 to 10^12; or the lower bound is above the
    /// upper one; or a band's width is not in 0 to 10^12; or there is a target and the weight is not 1 to 10,000; or there
    /// is no target, and the weight or the grade is not 0 or the penalty is not `Square`.
    pub fn new(
        measure: Measure,
        target: Option<i64>,
        penalty: Penalty,
        grade: u8,
        weight: u32,
        lower: i64,
        upper: i64,
    ) -> Option<Row>
        ensures made { IfSome result (λ r. r ≡ record {
          measure = measure;
          target = target;
          penalty = penalty;
          grade = grade;
          weight = weight;
          lower = lower;
          upper = upper;
        }) }
        ensures good { IfSome result IsRow }
        ensures bad { IfNone result (¬ IsRow (record {
          measure = measure;
          target = target;
          penalty = penalty;
          grade = grade;
          weight = weight;
          lower = lower;
          upper = upper;
        })) }
    {
        let in_range = is_in_range(lower) && is_in_range(upper) && lower <= upper;
        if !in_range || !is_aim(target, penalty, grade, weight) {
            return None;
        }
        Some(Row {
            measure,
            target,
            penalty,
            grade,
            weight,
            lower,
            upper,
        })
    }

    /// The row's term at a value of -10^12 to 10^12: the weight times the loss of the distance to the target, or 0 without
    /// a target.
    pub fn term(&self, x: i64) -> i128
        requires { InRange x }
        ensures { result ≡ pos (term self.now x) }
    {
        match self.target {
            None => 0,
            Some(target) => {
                let loss = loss(self.penalty, x.abs_diff(target));
                (self.weight as u128 * loss) as i128
            }
        }
    }

    /// The cell or the total that the row tells of.
    pub fn measure(&self) -> Measure
        ensures { result ≡ self.now.measure }
    {
        self.measure
    }

    /// The ranges of every row.
    pub fn in_range(&self)
        ensures { IsRow self.now }
    {
        let _ = &self.measure;
    }

    /// The estimate in whole currency units, of -10^12 to 10^12, if there is one.
    pub fn target(&self) -> Option<i64>
        ensures { result ≡ self.now.target }
    {
        self.target
    }

    /// How a distance from the target is penalized.
    pub fn penalty(&self) -> Penalty
        ensures { result ≡ self.now.penalty }
    {
        self.penalty
    }

    /// The place of the grade in the settings, in byte order from 1; 0 is the empty grade, or no target.
    pub fn grade(&self) -> u8
        ensures { result ≡ self.now.grade }
    {
        self.grade
    }

    /// The weight of the target, 1 to 10,000 by its reliability (Stone, Champernowne and Meade 1942); 0 without a target.
    pub fn weight(&self) -> u32
        ensures { result ≡ self.now.weight }
    {
        self.weight
    }

    /// The least admissible value, of -10^12 to 10^12.
    pub fn lower(&self) -> i64
        ensures { result ≡ self.now.lower }
    {
        self.lower
    }

    /// The greatest admissible value, of -10^12 to 10^12.
    pub fn upper(&self) -> i64
        ensures { result ≡ self.now.upper }
    {
        self.upper
    }
}
