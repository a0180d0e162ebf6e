//! Printing `source.csv`: the rows of a problem in measure order.

ghost use Rattle.std.specs.Prelude.{◌≡◌, ◌++◌, ◌∷◌, [], All, IfOk, Ok, OnOk};
ghost use Rattle.std.specs.List.{flat_map};
ghost use Rattle.sut_text.specs.Text.{behind, line_text, optional_text, whole_text};
ghost use Rattle.sut_text.specs.Fields.{field_bytes};
ghost use Rattle.sut_source.specs.SourceFile.{source_of};
ghost use Rattle.sut_source.specs.SourceText.{HasGrade, grade_name, penalty_text, row_line, source_text};

use no_memory::NoMemory;
use std::alloc::Global;
use sut_classes::Classes;
use sut_measures::put_name;
use sut_settings::{Settings, grade_text};
use sut_tables::{Penalty, Problem, Row};
use sut_text::fields::{Field, put_line_end, put_one};
use sut_text::{put_byte, put_bytes, put_whole};

fn target_field(target: Option<i64>) -> Field<'static>
    ensures { field_bytes result ≡ optional_text target }
{
    match target {
        None => Field::Empty,
        Some(n) => Field::Whole(i128::from(n)),
    }
}

// The name of the grade at a place; empty where there is no such place.
fn grade_name(s: &Settings, place: u8) -> &[u8]
    ensures { result.now ≡ grade_name s.now place }
{
    match grade_text(s, place) {
        Some(name) => name,
        None => b"",
    }
}

// Appends a penalty as it stands behind the grade's name.
fn put_penalty(out: &mut Vec<u8>, penalty: Penalty) -> Result<(), NoMemory>
    ensures { OnOk result (out.new.items ≡ out.old.items ++ penalty_text penalty) }
{
    match penalty {
        Penalty::Square => Ok(()),
        Penalty::Absolute => put_bytes(out, b":abs"),
        Penalty::Band(width) => {
            put_bytes(out, b":band:")?;
            put_whole(out, i128::from(width))
        }
    }
}

// Appends a target behind a comma.
fn put_target(out: &mut Vec<u8>, target: Option<i64>) -> Result<(), NoMemory>
    ensures { OnOk result (out.new.items ≡ out.old.items ++ behind (optional_text target)) }
{
    put_byte(out, b',')?;
    put_one(out, target_field(target))
}

// Appends a grade and a penalty behind a comma.
fn put_grade(out: &mut Vec<u8>, s: &Settings, place: u8, penalty: Penalty) -> Result<(), NoMemory>
    ensures { OnOk result (out.new.items ≡ out.old.items ++ behind (grade_name s.now place ++ penalty_text penalty)) }
{
    put_byte(out, b',')?;
    put_bytes(out, grade_name(s, place))?;
    put_penalty(out, penalty)
}

// Appends both bounds, each behind a comma, and the line's end.
fn put_bounds(out: &mut Vec<u8>, lower: i64, upper: i64) -> Result<(), NoMemory>
    ensures { OnOk result (out.new.items ≡ out.old.items ++ (flat_map behind (whole_text lower ∷ whole_text upper ∷ []) ++ 10 ∷ [])) }
{
    put_line_end(
        out,
        &[
            Field::Whole(i128::from(lower)),
            Field::Whole(i128::from(upper)),
        ],
    )
}

// Appends the line of a row.
fn put_row(out: &mut Vec<u8>, s: &Settings, classes: &Classes, row: &Row) -> Result<(), NoMemory>
    ensures { OnOk result (out.new.items ≡ out.old.items ++ line_text (row_line s.now classes.now row.now)) }
{
    put_name(out, classes, row.measure())?;
    put_target(out, row.target())?;
    put_grade(out, s, row.grade(), row.penalty())?;
    put_bounds(out, row.lower(), row.upper())?;
    Ok(())
}

/// The text of a problem's rows: under the header `kind,a,b,c,target,grade,lower,upper` a line for
/// each row, in measure order. A line has the measure's name; the target, empty where there is
/// none; the grade's name, with `:abs` or `:band:` and the width behind it where the penalty is no
/// square; and both bounds, in whole currency units. Each row's grade has to be one of the
/// settings, and its weight that of this grade for its target. The text reads back, with the same
/// settings and classes, as the same problem.
pub fn print_source(alloc: Global, s: &Settings, p: &Problem) -> Result<Vec<u8>, NoMemory>
    requires { All (HasGrade s.now) p.now.rows }
    ensures text { IfOk result (λ t. t.items ≡ source_text s.now p.now) }
    ensures reads_back { IfOk result (λ t. source_of s.now p.now.classes t.items ≡ Ok p.now) }
{
    s.kept();
    p.kept();
    p.classes().kept();
    let mut out = Vec::new(alloc);
    put_bytes(&mut out, b"kind,a,b,c,target,grade,lower,upper\n")?;
    for row in p.rows() {
        put_row(&mut out, s, p.classes(), row)?;
    }
    Ok(out)
}
