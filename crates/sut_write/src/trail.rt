//! The lines of `trail.csv`.

ghost use Rattle.std.specs.Prelude.{◌≡◌, ◌++◌, ◌∷◌, [], OnOk, decimal};
ghost use Rattle.std.specs.List.{flat_map};
ghost use Rattle.sut_text.specs.Text.{behind, line_text, whole_text, Keeps};
ghost use Rattle.sut_write.specs.Trail.{answer_lines, cell_line, cell_lines};

use no_memory::NoMemory;
use sut_cert::Answer;
use sut_classes::Classes;
use sut_measures::{Measure, put_name};
use sut_tables::{Held, Problem};
use sut_text::fields::{Field, put_line_end, put_one};
use sut_text::put_byte;

// Appends a number and a comma.
fn put_number(out: &mut Vec<u8>, number: u64) -> Result<(), NoMemory>
    ensures done { OnOk result (out.new.items ≡ out.old.items ++ (decimal number ++ 44 ∷ [])) }
    ensures kept { Keeps out.old.items out.new.items }
{
    put_one(out, Field::Count(number))?;
    put_byte(out, b',')?;
    Ok(())
}

// Appends the number of a cell behind a comma, and the line's end.
fn put_held(out: &mut Vec<u8>, held: &Held) -> Result<(), NoMemory>
    ensures done { OnOk result (out.new.items ≡ out.old.items ++ (flat_map behind (whole_text held.now.number ∷ []) ++ 10 ∷ [])) }
    ensures kept { Keeps out.old.items out.new.items }
{
    put_line_end(out, &[Field::Whole(i128::from(held.number))])
}

fn put_cell(out: &mut Vec<u8>, number: u64, classes: &Classes, held: &Held) -> Result<(), NoMemory>
    ensures done { OnOk result (out.new.items ≡ out.old.items ++ line_text (cell_line number classes.now held.now)) }
    ensures kept { Keeps out.old.items out.new.items }
{
    put_number(out, number)?;
    put_name(out, classes, Measure::Cell(held.cell))?;
    put_held(out, held)?;
    Ok(())
}

fn put_cells(
    out: &mut Vec<u8>,
    number: u64,
    classes: &Classes,
    cells: &[Held],
) -> Result<(), NoMemory>
    ensures done { OnOk result (out.new.items ≡ out.old.items ++ cell_lines number classes.now cells.now) }
    ensures kept { Keeps out.old.items out.new.items }
{
    for held in cells {
        put_cell(out, number, classes, held)?;
    }
    Ok(())
}

/// Appends the lines of a rebalance to those of `trail.csv`, whose header is `balance,kind,a,b,c,value`: where it was balanced,
/// for each cell that has a row, in order, the number of the rebalance, from 1, the cell's name and its number, in whole
/// currency units. After want of memory a part of them may stand in `out`, behind
/// what stood there.
pub fn put_trail_lines(
    out: &mut Vec<u8>,
    number: u64,
    p: &Problem,
    a: &Answer,
) -> Result<(), NoMemory>
    ensures done { OnOk result (out.new.items ≡ out.old.items ++ answer_lines number p.now a.now) }
    ensures kept { Keeps out.old.items out.new.items }
{
    match a {
        Answer::Balanced(t, _) => put_cells(out, number, p.classes(), t.cells()),
        Answer::Infeasible(_) => Ok(()),
    }
}
