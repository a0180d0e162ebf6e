//! `report.json`.

ghost use Rattle.std.specs.Prelude.{◌≡◌, ◌^◌, ◌++◌, ◌∷◌, [], IfOk, decimal, false, length};
ghost use Rattle.serde_json.specs.View.{view};
ghost use Rattle.serde_json.specs.Written.{compact_text, has_float};
ghost use Rattle.sut_tables.specs.CellSums.{IsUpTo};
ghost use Rattle.sut_tables.specs.Costs.{IsAdmissible};
ghost use Rattle.sut_tables.specs.Costs as costs;
ghost use Rattle.sut_write.specs.Answers.{HasAdmissibleTable};
ghost use Rattle.sut_write.specs.Reports as report;
ghost use Rattle.sut_write.specs.Reports.{report_text};

use no_memory::NoMemory;
use serde_json::{Value, json};
use std::alloc::{AllocError, Global};
use sut_cert::{AccountSet, Answer, entering, leaving};
use sut_gdp::gdp;
use sut_tables::{Problem, Table, cost};
use sut_text::{put_byte, put_bytes};

// A sum of at most 147,456 numbers of up to 10^12, or of a few such sums.
fn narrow(sum: i128) -> i64
    requires { IsUpTo (2 ^ 60) sum }
    ensures { result ≡ sum }
{
    sum as i64
}

pub(crate) fn row_count(p: &Problem) -> u64
    ensures { result ≡ length p.now.rows }
{
    p.rows().count() as u64
}

fn cost_digits(alloc: Global, p: &Problem, t: &Table) -> Result<String, AllocError>
    requires { IsAdmissible p.now t.now }
    ensures { IfOk result (λ s. s.bytes.items ≡ decimal (costs.cost p.now t.now)) }
{
    let cost = cost(p, t);
    format!(in alloc; "{cost}")
}

fn balanced_value(
    alloc: Global,
    cost: &str,
    expenditure: i64,
    income: i64,
    production: i64,
    rows: u64,
) -> Result<Value, AllocError>
    ensures { IfOk result (λ v. view v ≡ report.balanced_data cost.now expenditure income production rows) }
{
    json!(in alloc; {"answer": "balanced", "cost": cost, "gdp": {"expenditure": expenditure, "income": income, "production": production}, "rows": rows})
}

fn infeasible_value(
    alloc: Global,
    entering: i64,
    leaving: i64,
    rows: u64,
) -> Result<Value, AllocError>
    ensures { IfOk result (λ v. view v ≡ report.infeasible_data entering leaving rows) }
{
    json!(in alloc; {"answer": "infeasible", "entering": entering, "leaving": leaving, "rows": rows})
}

// A value with no float, as compact JSON, and LF.
fn text_of(alloc: Global, value: &Value) -> Result<Vec<u8>, NoMemory>
    requires { has_float (view value.now) ≡ false }
    ensures { IfOk result (λ v. v.items ≡ compact_text (view value.now) ++ 10 ∷ []) }
{
    let Ok(text) = value.to_string(alloc) else {
        return Err(NoMemory);
    };
    let mut out = Vec::new(alloc);
    put_bytes(&mut out, text.as_bytes())?;
    put_byte(&mut out, b'\n')?;
    Ok(out)
}

fn balanced_report(alloc: Global, p: &Problem, t: &Table) -> Result<Vec<u8>, NoMemory>
    requires { IsAdmissible p.now t.now }
    ensures { IfOk result (λ v. v.items ≡ compact_text (report.table_data p.now t.now) ++ 10 ∷ []) }
{
    p.kept();
    t.cells();
    let Ok(cost) = cost_digits(alloc, p, t) else {
        return Err(NoMemory);
    };
    let sums = gdp(t);
    let expenditure = narrow(sums.expenditure);
    let income = narrow(sums.income);
    let production = narrow(sums.production);
    let rows = row_count(p);
    let Ok(value) = balanced_value(alloc, &cost, expenditure, income, production, rows) else {
        return Err(NoMemory);
    };
    text_of(alloc, &value)
}

fn infeasible_report(alloc: Global, p: &Problem, s: &AccountSet) -> Result<Vec<u8>, NoMemory>
    ensures { IfOk result (λ v. v.items ≡ compact_text (report.set_data p.now s.now) ++ 10 ∷ []) }
{
    let entering = narrow(entering(p, s));
    let leaving = narrow(leaving(p, s));
    let Ok(value) = infeasible_value(alloc, entering, leaving, row_count(p)) else {
        return Err(NoMemory);
    };
    text_of(alloc, &value)
}

/// `report.json`: the answer as compact JSON with its keys in byte order. Of a table its cost, as a
/// text, and the three sums of GDP; of a set of accounts the sums of the bounds that enter and that
/// leave it; and of both how many rows the problem has. A table in the answer is admissible.
pub fn report_text(alloc: Global, p: &Problem, a: &Answer) -> Result<Vec<u8>, NoMemory>
    requires { HasAdmissibleTable p.now a.now }
    ensures { IfOk result (λ v. v.items ≡ report_text p.now a.now) }
{
    match a {
        Answer::Balanced(t, _) => balanced_report(alloc, p, t),
        Answer::Infeasible(s) => infeasible_report(alloc, p, s),
    }
}
