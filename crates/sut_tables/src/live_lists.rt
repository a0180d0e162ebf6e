//! The live measures and accounts of a problem: a measure is live where it has a row, or where it is a total and one of its
//! cells has a row; an account is live where a live measure leaves or enters it.

ghost use Rattle.std.specs.Prelude.{◌≡◌, IfOk};
ghost use Rattle.sut_measures.specs.Keys.{account_key, measure_key};
ghost use Rattle.sut_tables.specs.Problems as problem;
ghost use Rattle.sut_tables.specs.Tables.{first_above};

use crate::problems::Problem;
use no_memory::NoMemory;
use std::alloc::Global;
use sut_measures::{Account, Measure};

/// The live measures, in order.
pub fn live(alloc: Global, p: &Problem) -> Result<Vec<Measure>, NoMemory>
    ensures { IfOk result (λ v. v.items ≡ problem.live_measures p.now) }
{
    p.live_measures().list(alloc)
}

/// The live accounts, in order.
pub fn live_accounts(alloc: Global, p: &Problem) -> Result<Vec<Account>, NoMemory>
    ensures { IfOk result (λ v. v.items ≡ problem.live_accounts p.now) }
{
    p.live_accounts().list(alloc)
}

/// The first live measure, or the first one above another. None comes exactly where there is none.
pub fn next_live(p: &Problem, after: Option<Measure>) -> Option<Measure>
    ensures { result ≡ first_above measure_key after (problem.live_measures p.now) }
{
    p.live_measures().next_above(after)
}

/// The first live account, or the first one above another. None comes exactly where there is none.
pub fn next_live_account(p: &Problem, after: Option<Account>) -> Option<Account>
    ensures { result ≡ first_above account_key after (problem.live_accounts p.now) }
{
    p.live_accounts().next_above(after)
}
