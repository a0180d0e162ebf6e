//! The lines of a check that accepts.

ghost use Rattle.std.specs.Prelude.{◌≡◌, ◌<◌, ◌*◌, ◌^◌, IfOk, decimal};
ghost use Rattle.sut_text.specs.Text.{printed_text};
ghost use Rattle.sut_text.specs.Fields.{field_bytes};
ghost use Rattle.sut_tables.specs.Costs.{IsAdmissible, cost};
ghost use Rattle.sut_cert.specs.Certificates as certificate;
ghost use Rattle.sut_check.specs.Findings.{least_words, no_table_words};

use no_memory::NoMemory;
use std::alloc::Global;
use sut_cert::{AccountSet, entering, leaving};
use sut_tables::{Problem, Table, cost};
use sut_text::fields::{Field, put_words};
use sut_text::{put_byte, put_bytes};

fn cost_field(cost: u128) -> Field<'static>
    requires { cost < 6 * 10 ^ 33 }
    ensures { field_bytes result ≡ decimal cost }
{
    Field::Whole(cost as i128)
}

// The cost of a table, as a field.
fn cost_of(p: &Problem, t: &Table) -> Field<'static>
    requires { IsAdmissible p.now t.now }
    ensures { field_bytes result ≡ decimal (cost p.now t.now) }
{
    p.kept();
    cost_field(cost(p, t))
}

/// `least`, and the cost of the table.
pub(crate) fn least_text(alloc: Global, p: &Problem, t: &Table) -> Result<Vec<u8>, NoMemory>
    requires { IsAdmissible p.now t.now }
    ensures { IfOk result (λ v. v.items ≡ printed_text (least_words p.now t.now)) }
{
    let mut out = Vec::new(alloc);
    put_bytes(&mut out, b"least\ncost")?;
    put_words(&mut out, &[cost_of(p, t)])?;
    put_byte(&mut out, b'\n')?;
    Ok(out)
}

/// `no table`, and the two sums: of the lower bounds that enter the set and of the upper bounds that leave it.
pub(crate) fn no_table_text(alloc: Global, p: &Problem, s: &AccountSet) -> Result<Vec<u8>, NoMemory>
    ensures { IfOk result (λ v. v.items ≡ printed_text (no_table_words (certificate.entering p.now s.now) (certificate.leaving p.now s.now))) }
{
    let mut out = Vec::new(alloc);
    put_bytes(&mut out, b"no table\nentering")?;
    put_words(&mut out, &[Field::Whole(entering(p, s))])?;
    put_bytes(&mut out, b"\nleaving")?;
    put_words(&mut out, &[Field::Whole(leaving(p, s))])?;
    put_byte(&mut out, b'\n')?;
    Ok(out)
}
