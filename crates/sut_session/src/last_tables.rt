//! The last balanced table, over which the next one is written.

ghost use Rattle.std.specs.Prelude.{◌≡◌, None, Ok, IfSome};
ghost use Rattle.sut_tables.specs.ProblemFacts.{ProblemFacts};
ghost use Rattle.sut_tables.specs.Problems.{IsTableOf};
ghost use Rattle.sut_cert.specs.Right.{IsRight};
ghost use Rattle.sut_edits.specs.Edits.{edited};

use sut_cert::Answer;
use sut_edits::Edit;
use sut_tables::Table;

/// Takes the answer away. Its table, where it has one, is the last one from now on.
pub(crate) fn take_table(answer: &mut Option<Answer>, last: &mut Option<Table>)
    ensures answer { answer.new ≡ None }
    ensures last { (p : ProblemFacts) → IfSome answer.old (IsRight p) → IfSome last.old (IsTableOf p) → IfSome last.new (IsTableOf p) }
{
    if let Some(Answer::Balanced(table, _)) = answer.take() {
        *last = Some(table);
    }
}

/// The table, where the edit is a set, which leaves the cells that have a row.
pub(crate) fn with_same_cells(table: Option<Table>, edit: &Edit) -> Option<Table>
    ensures { (q p : ProblemFacts) → IfSome table (IsTableOf q) → edited q edit.now ≡ Ok p → IfSome result (IsTableOf p) }
{
    match edit {
        Edit::Set(_) => table,
        Edit::Add(_) | Edit::Drop(_) | Edit::Balance | Edit::Dismiss(_) => None,
    }
}
