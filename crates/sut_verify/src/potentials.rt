//! The verdict on potentials.

ghost use Rattle.std.specs.Prelude.{◌≡◌, ◌↔◌};
ghost use Rattle.std.specs.List.{flat_map};
ghost use Rattle.sut_tables.specs.Breaks.{first_of};
ghost use Rattle.sut_tables.specs.Costs.{IsAdmissible, IsLeast};
ghost use Rattle.sut_tables.specs.Problems as problem;
ghost use Rattle.sut_tables.specs.Problems.{IsTableOf, groups};
ghost use Rattle.sut_cert.specs.Certificates as certificate;
ghost use Rattle.sut_cert.specs.Certificates.{IsPotential, ShowsLeast};
ghost use Rattle.sut_verify.specs.Verdicts.{account_reasons, bent_reason, reasons_at, verdict_on};

use crate::slopes::against_row;
use crate::{Reason, Verdict};
use sut_cert::Potentials;
use sut_measures::{Account, Measure, ends};
use sut_tables::{Problem, Table, first_open, next_live, next_live_account, value};

// The potential of an account; 0 where it has none.
fn potential_or_zero(c: &Potentials, a: Account) -> i128
    ensures value { result ≡ certificate.potential_or_zero c.now a }
    ensures range { IsPotential result }
{
    match c.get(a) {
        Some(potential) => potential,
        None => 0,
    }
}

// The potential of the account that a measure enters less that of the account that it leaves.
fn rise(p: &Problem, c: &Potentials, m: Measure) -> i128
    ensures { result ≡ certificate.rise (groups p.now) c.now m }
{
    let (from, to) = ends(p.classes(), m);
    potential_or_zero(c, to) - potential_or_zero(c, from)
}

fn without_potential(c: &Potentials, a: Account) -> Option<Reason>
    ensures { result ≡ first_of (account_reasons c.now a) }
{
    match c.get(a) {
        Some(_) => None,
        None => Some(Reason::NoPotential(a)),
    }
}

// The first live account without a potential.
fn first_without(p: &Problem, c: &Potentials) -> Option<Reason>
    ensures { result ≡ first_of (flat_map (account_reasons c.now) (problem.live_accounts p.now)) }
{
    let mut next = next_live_account(p, None);
    'accounts: while let Some(account) = next {
        if let Some(reason) = without_potential(c, account) {
            return Some(reason);
        }
        next = next_live_account(p, Some(account));
    }
    None
}

fn bent(measure: Measure, rise: i128) -> Option<Reason>
    ensures { result ≡ first_of (bent_reason measure rise) }
{
    if rise == 0 {
        None
    } else {
        Some(Reason::Bent { measure, rise })
    }
}

// The first reason at a measure of an admissible table.
fn against(p: &Problem, t: &Table, c: &Potentials, m: Measure) -> Option<Reason>
    requires { IsAdmissible p.now t.now }
    ensures { result ≡ first_of (reasons_at p.now t.now c.now m) }
{
    p.kept();
    let rise = rise(p, c, m);
    match p.find(m) {
        Some(row) => against_row(row, m, value(t, m) as i64, rise),
        None => bent(m, rise),
    }
}

// The first reason at a live measure.
fn first_against(p: &Problem, t: &Table, c: &Potentials) -> Option<Reason>
    requires { IsAdmissible p.now t.now }
    ensures { result ≡ first_of (flat_map (reasons_at p.now t.now c.now) (problem.live_measures p.now)) }
{
    let mut next = next_live(p, None);
    'measures: while let Some(measure) = next {
        if let Some(reason) = against(p, t, c, measure) {
            return Some(reason);
        }
        next = next_live(p, Some(measure));
    }
    None
}

// The first reason against potentials, or that they show the table least.
fn judge(p: &Problem, t: &Table, c: &Potentials) -> Verdict
    requires { IsTableOf p.now t.now }
    ensures { result ≡ verdict_on p.now t.now c.now }
{
    if let Some(broken) = first_open(p, t) {
        return Verdict::Refused(Reason::Open(broken));
    }
    if let Some(reason) = first_without(p, c) {
        return Verdict::Refused(reason);
    }
    match first_against(p, t, c) {
        Some(reason) => Verdict::Refused(reason),
        None => Verdict::Least,
    }
}

/// The first reason against potentials: a broken identity or bound of the table, a live account
/// without a potential, or a live measure whose rise its cost doesn't allow, in order. `Least` comes
/// exactly where the potentials show the table, and then no admissible table costs less.
pub fn verify(p: &Problem, t: &Table, c: &Potentials) -> Verdict
    requires { IsTableOf p.now t.now }
    ensures first { result ≡ verdict_on p.now t.now c.now }
    ensures shown { (result ≡ Verdict.Least) ↔ ShowsLeast p.now t.now c.now }
    ensures least { result ≡ Verdict.Least → IsLeast p.now t.now }
{
    p.kept();
    judge(p, t, c)
}
