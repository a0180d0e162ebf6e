//! What the verifier says of a claim, with the lines that are printed then.

ghost use Rattle.std.specs.Prelude.{IfOk};
ghost use Rattle.sut_tables.specs.Problems.{IsTableOf};
ghost use Rattle.sut_check.specs.Findings.{IsClaimFor};
ghost use Rattle.sut_check.specs.Judged.{IsJudged};

use crate::lines::{least_text, no_table_text};
use no_memory::NoMemory;
use std::alloc::Global;
use sut_cert::{AccountSet, Answer, Potentials};
use sut_tables::{Problem, Table};
use sut_verify::{Reason, Verdict, verify, verify_cut};

/// What is known of a claim before anything is printed.
#[derive(Drop)]
pub(crate) enum Judged {
    /// The potentials show the table: the lines to print.
    Least(Vec<u8>),
    /// The set contradicts: the lines to print.
    NoTable(Vec<u8>),
    /// The first reason against the certificate.
    Refused(Reason),
}

// Judges potentials and their table.
fn judge_table(alloc: Global, p: &Problem, t: &Table, c: &Potentials) -> Result<Judged, NoMemory>
    requires { IsTableOf p.now t.now }
    ensures { IfOk result (IsJudged p.now (Answer.Balanced t.now c.now)) }
{
    match verify(p, t, c) {
        Verdict::Least => match least_text(alloc, p, t) {
            Ok(lines) => Ok(Judged::Least(lines)),
            Err(_) => Err(NoMemory),
        },
        Verdict::Refused(reason) => Ok(Judged::Refused(reason)),
        Verdict::NoTable { .. } => unreachable!(),
    }
}

// Judges a set of accounts.
fn judge_cut(alloc: Global, p: &Problem, s: &AccountSet) -> Result<Judged, NoMemory>
    ensures { IfOk result (IsJudged p.now (Answer.Infeasible s.now)) }
{
    match verify_cut(p, s) {
        Verdict::NoTable { .. } => match no_table_text(alloc, p, s) {
            Ok(lines) => Ok(Judged::NoTable(lines)),
            Err(_) => Err(NoMemory),
        },
        Verdict::Refused(reason) => Ok(Judged::Refused(reason)),
        Verdict::Least => unreachable!(),
    }
}

/// Judges a claim, and makes its lines where it is accepted.
pub(crate) fn judge(alloc: Global, p: &Problem, a: &Answer) -> Result<Judged, NoMemory>
    requires { IsClaimFor p.now a.now }
    ensures { IfOk result (IsJudged p.now a.now) }
{
    match a {
        Answer::Balanced(t, c) => judge_table(alloc, p, t, c),
        Answer::Infeasible(s) => judge_cut(alloc, p, s),
    }
}
