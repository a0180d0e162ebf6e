//! The laws of the text of a balanced table: functions that do nothing, whose contracts are the
//! laws.

ghost use Rattle.std.specs.Prelude.{◌≡◌, ◌∷◌, ◌≤◌, List, Ok, length};
ghost use Rattle.sut_records.specs.RecordList.{Fields};
ghost use Rattle.sut_tables.specs.TableFacts.{TableFacts};
ghost use Rattle.sut_tables.specs.Problems.{IsTableOf};
ghost use Rattle.sut_readback.specs.BalancedText.{balanced_header, balanced_lines, balanced_text};
ghost use Rattle.sut_readback.specs.BalancedFile.{balanced_in, balanced_of};

use sut_tables::{Problem, Table};

/// The text of a table of a problem reads back as that table.
pub fn reads_back(p: &Problem, t: &Table)
    requires { IsTableOf p.now t.now }
    ensures { balanced_of p.now (balanced_text p.now t.now) ≡ Ok t.now }
{
    p.kept();
    p.classes().kept();
    t.cells();
}

/// A table has one list of records: those of its text.
pub fn one_list(p: &Problem)
    ensures { (records : List Fields) → (t : TableFacts) → balanced_in p.now records ≡ Ok t → records ≡ balanced_header ∷ balanced_lines p.now t }
{
    p.kept();
}
