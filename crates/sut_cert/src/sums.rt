//! The bounds that enter a set of accounts and those that leave it (Hoffman's condition).

ghost use Rattle.std.specs.Prelude.{◌≡◌, ◌*◌, if◌then◌else◌, pos};
ghost use Rattle.sut_tables.specs.CellSums.{IsUpTo};
ghost use Rattle.sut_tables.specs.Problems.{groups};
ghost use Rattle.sut_tables.specs.Rows.{InRange};
ghost use Rattle.sut_cert.specs.Certificates as certificate;

use crate::AccountSet;
use sut_measures::{Measure, ends};
use sut_tables::{Problem, Row};

fn enters(p: &Problem, s: &AccountSet, m: Measure) -> bool
    ensures { result ≡ certificate.enters (groups p.now) s.now m }
{
    let (left, entered) = ends(p.classes(), m);
    s.has(entered) && !s.has(left)
}

fn leaves(p: &Problem, s: &AccountSet, m: Measure) -> bool
    ensures { result ≡ certificate.leaves (groups p.now) s.now m }
{
    let (left, entered) = ends(p.classes(), m);
    s.has(left) && !s.has(entered)
}

// The lower bound of a row whose measure enters the set, or 0.
fn lower_entering(p: &Problem, s: &AccountSet, row: &Row) -> i64
    ensures value { result ≡ (if certificate.enters (groups p.now) s.now row.now.measure then row.now.lower else pos 0) }
    ensures range { InRange result }
{
    row.in_range();
    if enters(p, s, row.measure()) {
        row.lower()
    } else {
        0
    }
}

// The upper bound of a row whose measure leaves the set, or 0.
fn upper_leaving(p: &Problem, s: &AccountSet, row: &Row) -> i64
    ensures value { result ≡ (if certificate.leaves (groups p.now) s.now row.now.measure then row.now.upper else pos 0) }
    ensures range { InRange result }
{
    row.in_range();
    if leaves(p, s, row.measure()) {
        row.upper()
    } else {
        0
    }
}

/// The sum of the lower bounds of the rows whose measure enters the set from outside, in whole
/// currency units.
pub fn entering(p: &Problem, s: &AccountSet) -> i128
    ensures sum { result ≡ certificate.entering p.now s.now }
    ensures small { IsUpTo (147456 * 1000000000000) result }
{
    p.kept();
    let mut sum: i128 = 0;
    for row in p.rows() {
        sum += i128::from(lower_entering(p, s, row));
    }
    sum
}

/// The sum of the upper bounds of the rows whose measure leaves the set, in whole currency units.
pub fn leaving(p: &Problem, s: &AccountSet) -> i128
    ensures sum { result ≡ certificate.leaving p.now s.now }
    ensures small { IsUpTo (147456 * 1000000000000) result }
{
    p.kept();
    let mut sum: i128 = 0;
    for row in p.rows() {
        sum += i128::from(upper_leaving(p, s, row));
    }
    sum
}
