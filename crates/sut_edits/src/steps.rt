//! The step of an edit on the rows of a problem.

ghost use Rattle.std.specs.Prelude.{◌≡◌, ◌≢◌, Ok, Err, IsOk, OnErr, IsTrue};
ghost use Rattle.sut_records.specs.FirstFault.{and_then};
ghost use Rattle.sut_measures.specs.Fits.{fits};
ghost use Rattle.sut_edits.specs.Edits.{edited};
ghost use Rattle.sut_edits.specs.EditRules.{FitsClasses};

use crate::edits::Edit;
use crate::faults::EditFault;
use sut_measures::Measure;
use sut_tables::{AddFault, Problem, Row};

// A row has no collection, so a copy takes no memory.
fn copy_of(row: &Row) -> Row
    ensures { result ≡ row.now }
{
    row.in_range();
    Row::new(
        row.measure(),
        row.target(),
        row.penalty(),
        row.grade(),
        row.weight(),
        row.lower(),
        row.upper(),
    )
    .unwrap()
}

fn set_row(p: &mut Problem, row: &Row) -> Result<(), EditFault>
    ensures value { edited p.old (Edit.Set row.now) ≡ and_then result (λ _. Ok p.new) }
    ensures kept { OnErr result (p.new ≡ p.old) }
    ensures no_memory { result ≢ Err EditFault.NoMemory }
{
    if p.find(row.measure()).is_none() {
        return Err(EditFault::NoRow);
    }
    let _replaced = p.replace(copy_of(row));
    Ok(())
}

fn add_row(p: &mut Problem, row: &Row) -> Result<(), EditFault>
    requires { IsTrue (fits p.old.classes row.now.measure) }
    ensures value { result ≢ Err EditFault.NoMemory → edited p.old (Edit.Add row.now) ≡ and_then result (λ _. Ok p.new) }
    ensures kept { OnErr result (p.new ≡ p.old) }
    ensures no_memory { result ≡ Err EditFault.NoMemory → IsOk (edited p.old (Edit.Add row.now)) }
{
    match p.add(copy_of(row)) {
        Ok(()) => Ok(()),
        Err(AddFault::There) => Err(EditFault::RowThere),
        Err(AddFault::Full) => Err(EditFault::Full),
        Err(AddFault::NoMemory) => Err(EditFault::NoMemory),
    }
}

fn drop_row(p: &mut Problem, m: Measure) -> Result<(), EditFault>
    ensures value { edited p.old (Edit.Drop m) ≡ and_then result (λ _. Ok p.new) }
    ensures kept { OnErr result (p.new ≡ p.old) }
    ensures no_memory { result ≢ Err EditFault.NoMemory }
{
    if p.find(m).is_none() {
        return Err(EditFault::NoRow);
    }
    let _taken = p.remove(m);
    Ok(())
}

/// Takes an edit's step on the rows of a problem, or answers the first need of it that is not met: a `set` and a `drop` need
/// the measure's row, an `add` needs that there is none, and fewer than 131,072 rows of cells, or 16,384 of totals, and
/// memory. A `balance` and a `dismiss` change no row. Nothing changes after a fault.
pub fn apply_edit(p: &mut Problem, edit: &Edit) -> Result<(), EditFault>
    requires { FitsClasses p.old.classes edit.now }
    ensures value { result ≢ Err EditFault.NoMemory → edited p.old edit.now ≡ and_then result (λ _. Ok p.new) }
    ensures kept { OnErr result (p.new ≡ p.old) }
    ensures no_memory { result ≡ Err EditFault.NoMemory → IsOk (edited p.old edit.now) }
{
    match edit {
        Edit::Set(row) => set_row(p, row),
        Edit::Add(row) => add_row(p, row),
        Edit::Drop(m) => drop_row(p, *m),
        Edit::Balance | Edit::Dismiss(_) => Ok(()),
    }
}
