//! The lines that a run prints.

ghost use Rattle.std.specs.Prelude.{◌≡◌, ◌<◌, ◌*◌, ◌^◌, ◌++◌, ◌∷◌, [], IfOk, OnOk, codes, decimal};
ghost use Rattle.sut_text.specs.Text.{printed_text, words_text, Keeps};
ghost use Rattle.sut_text.specs.Fields.{field_bytes};
ghost use Rattle.sut_tables.specs.Costs.{IsAdmissible};
ghost use Rattle.sut_tables.specs.Costs as costs;
ghost use Rattle.sut_write.specs.Answers.{HasAdmissibleTable};
ghost use Rattle.sut_write.specs.Screen.{balanced_words, cost_words, gdp_words, generated_text, infeasible_words, place_words, rebalance_text, screen_text};

use crate::report::row_count;
use crate::words::put_word_line;
use no_memory::NoMemory;
use std::alloc::Global;
use sut_cert::{AccountSet, Answer, entering, leaving};
use sut_gdp::gdp;
use sut_tables::{Problem, Table, cost};
use sut_text::fields::Field;
use sut_text::put_bytes;

fn cost_field(cost: u128) -> Field<'static>
    requires { cost < 6 * 10 ^ 33 }
    ensures { field_bytes result ≡ decimal cost }
{
    Field::Whole(cost as i128)
}

// The cost of a table.
fn cost_of(p: &Problem, t: &Table) -> Field<'static>
    requires { IsAdmissible p.now t.now }
    ensures { field_bytes result ≡ decimal (costs.cost p.now t.now) }
{
    p.kept();
    cost_field(cost(p, t))
}

// Appends the line of the cost.
fn put_cost(out: &mut Vec<u8>, p: &Problem, t: &Table) -> Result<(), NoMemory>
    requires { IsAdmissible p.now t.now }
    ensures { OnOk result (out.new.items ≡ out.old.items ++ (words_text (cost_words p.now t.now) ++ 10 ∷ [])) }
{
    put_word_line(out, b"cost", &[cost_of(p, t)])?;
    Ok(())
}

/// Appends the line of GDP: `gdp P I E`, by production, by income and by expenditure, in whole currency units. After want of
/// memory a part may stand in `out`, behind what stood there.
pub fn put_gdp(out: &mut Vec<u8>, t: &Table) -> Result<(), NoMemory>
    ensures done { OnOk result (out.new.items ≡ out.old.items ++ (words_text (gdp_words t.now) ++ 10 ∷ [])) }
    ensures kept { Keeps out.old.items out.new.items }
{
    let gdp = gdp(t);
    put_word_line(
        out,
        b"gdp",
        &[
            Field::Whole(gdp.production),
            Field::Whole(gdp.income),
            Field::Whole(gdp.expenditure),
        ],
    )
}

fn balanced_screen(alloc: Global, p: &Problem, t: &Table) -> Result<Vec<u8>, NoMemory>
    requires { IsAdmissible p.now t.now }
    ensures { IfOk result (λ v. v.items ≡ printed_text (balanced_words p.now t.now)) }
{
    let mut out = Vec::new(alloc);
    put_bytes(&mut out, b"balanced\n")?;
    put_cost(&mut out, p, t)?;
    put_gdp(&mut out, t)?;
    Ok(out)
}

fn infeasible_screen(alloc: Global, p: &Problem, s: &AccountSet) -> Result<Vec<u8>, NoMemory>
    ensures { IfOk result (λ v. v.items ≡ printed_text (infeasible_words p.now s.now)) }
{
    let mut out = Vec::new(alloc);
    put_bytes(&mut out, b"infeasible\n")?;
    put_word_line(&mut out, b"entering", &[Field::Whole(entering(p, s))])?;
    put_word_line(&mut out, b"leaving", &[Field::Whole(leaving(p, s))])?;
    Ok(out)
}

/// The three lines that `balance` prints: `balanced`, `cost C` and `gdp P I E`, or `infeasible`,
/// `entering N` and `leaving M`. A table in the answer is admissible.
pub fn screen_text(alloc: Global, p: &Problem, a: &Answer) -> Result<Vec<u8>, NoMemory>
    requires { HasAdmissibleTable p.now a.now }
    ensures { IfOk result (λ v. v.items ≡ screen_text p.now a.now) }
{
    match a {
        Answer::Balanced(t, _) => balanced_screen(alloc, p, t),
        Answer::Infeasible(s) => infeasible_screen(alloc, p, s),
    }
}

/// The three lines that `generate` prints of a made year: `rows R`, the number of its rows, `balanced` and `cost C`.
pub fn generated_text(alloc: Global, p: &Problem, t: &Table) -> Result<Vec<u8>, NoMemory>
    requires { IsAdmissible p.now t.now }
    ensures { IfOk result (λ v. v.items ≡ generated_text p.now t.now) }
{
    let mut out = Vec::new(alloc);
    put_word_line(&mut out, b"rows", &[Field::Count(row_count(p))])?;
    put_bytes(&mut out, b"balanced\n")?;
    put_cost(&mut out, p, t)?;
    Ok(out)
}

fn put_balanced(
    out: &mut Vec<u8>,
    place: Option<u64>,
    p: &Problem,
    t: &Table,
) -> Result<(), NoMemory>
    requires { IsAdmissible p.now t.now }
    ensures done { OnOk result (out.new.items ≡ out.old.items ++ printed_text ((place_words place ++ codes "balanced" ∷ decimal (costs.cost p.now t.now) ∷ []) ∷ [])) }
    ensures kept { Keeps out.old.items out.new.items }
{
    let balanced = Field::Text(b"balanced");
    match place {
        Some(line) => put_word_line(out, b"line", &[Field::Count(line), balanced, cost_of(p, t)]),
        None => put_word_line(out, b"end", &[balanced, cost_of(p, t)]),
    }
}

fn put_infeasible(out: &mut Vec<u8>, place: Option<u64>) -> Result<(), NoMemory>
    ensures done { OnOk result (out.new.items ≡ out.old.items ++ printed_text ((place_words place ++ codes "infeasible" ∷ []) ∷ [])) }
    ensures kept { Keeps out.old.items out.new.items }
{
    let infeasible = Field::Text(b"infeasible");
    match place {
        Some(line) => put_word_line(out, b"line", &[Field::Count(line), infeasible]),
        None => put_word_line(out, b"end", &[infeasible]),
    }
}

/// Appends the line that `edit` prints of a rebalance: `line K`, K being the line of the edit, or `end`, and then `balanced C`
/// with the cost of the table, or `infeasible`. A table in the answer is admissible. After want of memory a part of it may
/// stand in `out`, behind what stood there.
pub fn put_rebalance(
    out: &mut Vec<u8>,
    place: Option<u64>,
    p: &Problem,
    a: &Answer,
) -> Result<(), NoMemory>
    requires { HasAdmissibleTable p.now a.now }
    ensures done { OnOk result (out.new.items ≡ out.old.items ++ rebalance_text place p.now a.now) }
    ensures kept { Keeps out.old.items out.new.items }
{
    match a {
        Answer::Balanced(t, _) => put_balanced(out, place, p, t),
        Answer::Infeasible(_) => put_infeasible(out, place),
    }
}
