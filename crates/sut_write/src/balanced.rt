//! `balanced.csv`.

ghost use Rattle.std.specs.Prelude.{◌≡◌, ◌≤◌, ◌++◌, ◌∷◌, [], Ok, IfOk, OnOk, length};
ghost use Rattle.std.specs.List.{flat_map};
ghost use Rattle.sut_text.specs.Text.{behind, line_text, optional_text, whole_text};
ghost use Rattle.sut_text.specs.Fields.{field_bytes};
ghost use Rattle.sut_tables.specs.Problems.{IsTableOf};
ghost use Rattle.sut_readback.specs.BalancedText.{balanced_line, balanced_text};
ghost use Rattle.sut_readback.specs.BalancedFile.{balanced_of};

use crate::laws::balanced_short;
use no_memory::NoMemory;
use std::alloc::Global;
use sut_measures::{Measure, put_name};
use sut_readback::laws::reads_back;
use sut_readback::target_of;
use sut_tables::{Problem, Table, live, value};
use sut_text::fields::{Field, put_line_end};
use sut_text::put_bytes;

fn target_field(target: Option<i64>) -> Field<'static>
    ensures { field_bytes result ≡ optional_text target }
{
    match target {
        None => Field::Empty,
        Some(n) => Field::Whole(i128::from(n)),
    }
}

fn put_value_end(out: &mut Vec<u8>, target: Option<i64>, value: i128) -> Result<(), NoMemory>
    ensures { OnOk result (out.new.items ≡ out.old.items ++ (flat_map behind (optional_text target ∷ whole_text value ∷ []) ++ 10 ∷ [])) }
{
    put_line_end(out, &[target_field(target), Field::Whole(value)])
}

fn put_value_line(out: &mut Vec<u8>, p: &Problem, t: &Table, m: Measure) -> Result<(), NoMemory>
    ensures { OnOk result (out.new.items ≡ out.old.items ++ line_text (balanced_line p.now t.now m)) }
{
    put_name(out, p.classes(), m)?;
    put_value_end(out, target_of(p, m), value(t, m))?;
    Ok(())
}

fn put_value_lines(
    out: &mut Vec<u8>,
    p: &Problem,
    t: &Table,
    measures: &[Measure],
) -> Result<(), NoMemory>
    ensures { OnOk result (out.new.items ≡ out.old.items ++ flat_map (λ m. line_text (balanced_line p.now t.now m)) measures.now) }
{
    for m in measures {
        put_value_line(out, p, t, *m)?;
    }
    Ok(())
}

/// `balanced.csv`: under the header `kind,a,b,c,target,value` a line for each live measure, in
/// order, with the target of its row, if there is one, and its value: at most 67,108,864 bytes. It
/// reads back as the table.
pub fn balanced_text(alloc: Global, p: &Problem, t: &Table) -> Result<Vec<u8>, NoMemory>
    requires { IsTableOf p.now t.now }
    ensures text { IfOk result (λ v. v.items ≡ balanced_text p.now t.now) }
    ensures reads_back { IfOk result (λ v. balanced_of p.now v.items ≡ Ok t.now) }
    ensures short { IfOk result (λ v. length v.items ≤ 67108864) }
{
    reads_back(p, t);
    balanced_short(p, t);
    let measures = live(alloc, p)?;
    let mut out = Vec::new(alloc);
    put_bytes(&mut out, b"kind,a,b,c,target,value\n")?;
    put_value_lines(&mut out, p, t, &measures)?;
    Ok(out)
}
