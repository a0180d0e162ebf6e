//! The verdict on a set of accounts.

ghost use Rattle.std.specs.Prelude.{◌≡◌, ◌↔◌, ℤ};
ghost use Rattle.std.specs.List.{flat_map};
ghost use Rattle.sut_tables.specs.Breaks.{first_of};
ghost use Rattle.sut_tables.specs.Costs.{IsImpossible};
ghost use Rattle.sut_tables.specs.Problems.{groups, live_measures};
ghost use Rattle.sut_cert.specs.Certificates as certificate;
ghost use Rattle.sut_cert.specs.Certificates.{Contradicts};
ghost use Rattle.sut_verify.specs.Verdicts.{crossing_at, gap_verdict, verdict_on_cut};

use crate::{Reason, Verdict};
use sut_cert::{AccountSet, entering, leaving};
use sut_measures::{Measure, ends};
use sut_tables::{Problem, next_live};

// Whether a measure enters the set from outside.
fn enters(p: &Problem, s: &AccountSet, m: Measure) -> bool
    ensures { result ≡ certificate.enters (groups p.now) s.now m }
{
    let (from, to) = ends(p.classes(), m);
    s.has(to) && !s.has(from)
}

// Whether a measure leaves the set.
fn leaves(p: &Problem, s: &AccountSet, m: Measure) -> bool
    ensures { result ≡ certificate.leaves (groups p.now) s.now m }
{
    let (from, to) = ends(p.classes(), m);
    s.has(from) && !s.has(to)
}

// A measure without a row that has one end in the set.
fn crossing(p: &Problem, s: &AccountSet, m: Measure) -> Option<Reason>
    ensures { result ≡ first_of (crossing_at p.now s.now m) }
{
    if p.find(m).is_some() {
        return None;
    }
    if enters(p, s, m) || leaves(p, s, m) {
        return Some(Reason::Crosses(m));
    }
    None
}

// The first live measure without a row that has one end in the set.
fn first_crossing(p: &Problem, s: &AccountSet) -> Option<Reason>
    ensures { result ≡ first_of (flat_map (crossing_at p.now s.now) (live_measures p.now)) }
{
    let mut next = next_live(p, None);
    'measures: while let Some(measure) = next {
        if let Some(reason) = crossing(p, s, measure) {
            return Some(reason);
        }
        next = next_live(p, Some(measure));
    }
    None
}

// The verdict by the two sums.
fn by_gap(entering: i128, leaving: i128) -> Verdict
    ensures { result ≡ gap_verdict entering leaving }
{
    if leaving < entering {
        Verdict::NoTable { entering, leaving }
    } else {
        Verdict::Refused(Reason::NoGap { entering, leaving })
    }
}

// The first reason against a set, or that it contradicts.
fn judge(p: &Problem, s: &AccountSet) -> Verdict
    ensures { result ≡ verdict_on_cut p.now s.now }
{
    match first_crossing(p, s) {
        Some(reason) => Verdict::Refused(reason),
        None => by_gap(entering(p, s), leaving(p, s)),
    }
}

/// The first reason against a set of accounts: a live measure without a row that crosses its edge,
/// or two sums without a gap. `NoTable` comes, with the two sums, exactly where the set contradicts
/// the bounds, and then no table is admissible (after Hoffman's condition): any answer `NoTable` holds these sums.
pub fn verify_cut(p: &Problem, s: &AccountSet) -> Verdict
    ensures first { result ≡ verdict_on_cut p.now s.now }
    ensures shown { (result ≡ Verdict.NoTable (certificate.entering p.now s.now) (certificate.leaving p.now s.now)) ↔ Contradicts p.now s.now }
    ensures sums { (enter leave : ℤ) → result ≡ Verdict.NoTable enter leave → (enter ≡ certificate.entering p.now s.now) × (leave ≡ certificate.leaving p.now s.now) × IsImpossible p.now }
    ensures impossible { result ≡ Verdict.NoTable (certificate.entering p.now s.now) (certificate.leaving p.now s.now) → IsImpossible p.now }
{
    p.kept();
    judge(p, s)
}
