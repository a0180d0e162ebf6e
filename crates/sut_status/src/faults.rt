//! What is wrong with a file, in words: the variant's name in lower case with dashes, and then what it carries. After want of
//! memory a part of the words may stand in `out`, behind what stood there.

ghost use Rattle.std.specs.Prelude.{◌≡◌, ◌++◌, ◌∷◌, [], OnOk, codes};
ghost use Rattle.sut_text.specs.Text.{Keeps, spaced, whole_text};
ghost use Rattle.sut_text.specs.Fields.{field_bytes};
ghost use Rattle.sut_status.specs.FaultWords.{ask_words, axis_word, class_words, dismiss_words, edit_words, field_word, name_words, row_words, settings_words, table_words};

use no_memory::NoMemory;
use sut_asks::AskCause;
use sut_classes::{Axis, ClassFault};
use sut_dismissals::DismissCause;
use sut_edits::EditsCause;
use sut_measures::{Field, NameFault};
use sut_readback::BalancedCause;
use sut_settings::SettingsFault;
use sut_source::RowFault;
use sut_text::fields::{Field as Word, put_words};

/// The word of an axis.
pub fn axis_word(axis: Axis) -> Word<'static>
    ensures { field_bytes result ≡ axis_word axis }
{
    match axis {
        Axis::Product => Word::Text(b"product"),
        Axis::Industry => Word::Text(b"industry"),
        Axis::Final => Word::Text(b"final"),
        Axis::Item => Word::Text(b"item"),
        Axis::Margin => Word::Text(b"margin"),
        Axis::Tax => Word::Text(b"tax"),
        Axis::ProductGroup => Word::Text(b"product_group"),
        Axis::IndustryGroup => Word::Text(b"industry_group"),
    }
}

/// The name of a field's column.
pub fn field_word(field: Field) -> Word<'static>
    ensures { field_bytes result ≡ field_word field }
{
    match field {
        Field::Kind => Word::Text(b"kind"),
        Field::A => Word::Text(b"a"),
        Field::B => Word::Text(b"b"),
        Field::C => Word::Text(b"c"),
        Field::Target => Word::Text(b"target"),
        Field::Grade => Word::Text(b"grade"),
        Field::Lower => Word::Text(b"lower"),
        Field::Upper => Word::Text(b"upper"),
    }
}

/// A fault of the settings, each word behind a space; its number counts keys. After want of memory a part may stand in `out`,
/// behind what stood there.
pub fn put_settings_fault(out: &mut Vec<u8>, fault: SettingsFault) -> Result<(), NoMemory>
    ensures done { OnOk result (out.new.items ≡ out.old.items ++ spaced (settings_words fault)) }
    ensures kept { Keeps out.old.items out.new.items }
{
    match fault {
        SettingsFault::Toml => put_words(out, &[Word::Text(b"toml")]),
        SettingsFault::UnknownKey(n) => put_words(
            out,
            &[Word::Text(b"unknown-key"), Word::Count(n)],
        ),
        SettingsFault::NoScheme => put_words(out, &[Word::Text(b"no-scheme")]),
        SettingsFault::BadScheme => put_words(out, &[Word::Text(b"bad-scheme")]),
        SettingsFault::BadGrades => put_words(out, &[Word::Text(b"bad-grades")]),
        SettingsFault::TooMany => put_words(out, &[Word::Text(b"too-many")]),
        SettingsFault::BadGrade(n) => put_words(out, &[Word::Text(b"bad-grade"), Word::Count(n)]),
        SettingsFault::NoMemory => put_words(out, &[Word::Text(b"no-memory")]),
    }
}

/// A fault of the classes without its line, each word behind a space. After want of memory a part may stand in `out`, behind
/// what stood there.
pub fn put_class_fault(out: &mut Vec<u8>, fault: ClassFault) -> Result<(), NoMemory>
    ensures done { OnOk result (out.new.items ≡ out.old.items ++ spaced (class_words fault)) }
    ensures kept { Keeps out.old.items out.new.items }
{
    match fault {
        ClassFault::Csv(_) => put_words(out, &[Word::Text(b"csv")]),
        ClassFault::Header => put_words(out, &[Word::Text(b"header")]),
        ClassFault::UnknownAxis(_) => put_words(out, &[Word::Text(b"unknown-axis")]),
        ClassFault::BadCode(_) => put_words(out, &[Word::Text(b"bad-code")]),
        ClassFault::UnknownKind(_) => put_words(out, &[Word::Text(b"unknown-kind")]),
        ClassFault::UnknownGroup(_) => put_words(out, &[Word::Text(b"unknown-group")]),
        ClassFault::Duplicate(_) => put_words(out, &[Word::Text(b"duplicate")]),
        ClassFault::TooMany(axis) => put_words(out, &[Word::Text(b"too-many"), axis_word(axis)]),
        ClassFault::NoMemory => put_words(out, &[Word::Text(b"no-memory")]),
    }
}

/// A fault of a row, each word behind a space. After want of memory a part may stand in `out`, behind
/// what stood there.
pub fn put_row_fault(out: &mut Vec<u8>, fault: RowFault) -> Result<(), NoMemory>
    ensures done { OnOk result (out.new.items ≡ out.old.items ++ spaced (row_words fault)) }
    ensures kept { Keeps out.old.items out.new.items }
{
    match fault {
        RowFault::Csv => put_words(out, &[Word::Text(b"csv")]),
        RowFault::Header => put_words(out, &[Word::Text(b"header")]),
        RowFault::UnknownKind => put_words(out, &[Word::Text(b"unknown-kind")]),
        RowFault::UnknownCode(at) => put_words(out, &[Word::Text(b"unknown-code"), field_word(at)]),
        RowFault::NotEmpty(at) => put_words(out, &[Word::Text(b"not-empty"), field_word(at)]),
        RowFault::WrongService => put_words(out, &[Word::Text(b"wrong-service")]),
        RowFault::NotNumber(at) => put_words(out, &[Word::Text(b"not-number"), field_word(at)]),
        RowFault::OutOfRange(at) => put_words(out, &[Word::Text(b"out-of-range"), field_word(at)]),
        RowFault::UnknownGrade => put_words(out, &[Word::Text(b"unknown-grade")]),
        RowFault::BadPenalty => put_words(out, &[Word::Text(b"bad-penalty")]),
        RowFault::NoTarget => put_words(out, &[Word::Text(b"no-target")]),
        RowFault::Crossed => put_words(out, &[Word::Text(b"crossed")]),
        RowFault::Duplicate(line) => put_words(out, &[Word::Text(b"duplicate"), Word::Count(line)]),
        RowFault::TooMany => put_words(out, &[Word::Text(b"too-many")]),
        RowFault::NoMemory => put_words(out, &[Word::Text(b"no-memory")]),
    }
}

/// A fault of an edit, each word behind a space; the fault of its row follows. After want of memory a part may stand in `out`,
/// behind what stood there.
pub fn put_edit_fault(out: &mut Vec<u8>, fault: EditsCause) -> Result<(), NoMemory>
    ensures done { OnOk result (out.new.items ≡ out.old.items ++ spaced (edit_words fault)) }
    ensures kept { Keeps out.old.items out.new.items }
{
    match fault {
        EditsCause::Csv => put_words(out, &[Word::Text(b"csv")]),
        EditsCause::Header => put_words(out, &[Word::Text(b"header")]),
        EditsCause::UnknownEdit => put_words(out, &[Word::Text(b"unknown-edit")]),
        EditsCause::NotEmpty(at) => put_words(out, &[Word::Text(b"not-empty"), field_word(at)]),
        EditsCause::BadRow(row) => {
            put_words(out, &[Word::Text(b"bad-row")])?;
            put_row_fault(out, row)
        }
        EditsCause::TooMany => put_words(out, &[Word::Text(b"too-many")]),
        EditsCause::NoRow => put_words(out, &[Word::Text(b"no-row")]),
        EditsCause::RowThere => put_words(out, &[Word::Text(b"row-there")]),
        EditsCause::Full => put_words(out, &[Word::Text(b"full")]),
        EditsCause::NoReviewer => put_words(out, &[Word::Text(b"no-reviewer")]),
        EditsCause::NoMemory => put_words(out, &[Word::Text(b"no-memory")]),
    }
}

/// A fault in a name, each word behind a space. After want of memory a part may stand in `out`, behind what stood there.
pub fn put_name_fault(out: &mut Vec<u8>, fault: NameFault) -> Result<(), NoMemory>
    ensures done { OnOk result (out.new.items ≡ out.old.items ++ spaced (name_words fault)) }
    ensures kept { Keeps out.old.items out.new.items }
{
    match fault {
        NameFault::UnknownKind => put_words(out, &[Word::Text(b"unknown-kind")]),
        NameFault::UnknownCode(at) => put_words(
            out,
            &[Word::Text(b"unknown-code"), field_word(at)],
        ),
        NameFault::NotEmpty(at) => put_words(out, &[Word::Text(b"not-empty"), field_word(at)]),
        NameFault::WrongService => put_words(out, &[Word::Text(b"wrong-service")]),
    }
}

// The value that is printed for a total, and the sum of its cells.
fn put_wrong_total(out: &mut Vec<u8>, printed: i128, sum: i128) -> Result<(), NoMemory>
    ensures done { OnOk result (out.new.items ≡ out.old.items ++ spaced (codes "wrong-total" ∷ whole_text printed ∷ whole_text sum ∷ [])) }
    ensures kept { Keeps out.old.items out.new.items }
{
    put_words(
        out,
        &[
            Word::Text(b"wrong-total"),
            Word::Whole(printed),
            Word::Whole(sum),
        ],
    )
}

/// A fault of a balanced table without its line, each word behind a space. After want of memory a part may stand in `out`,
/// behind what stood there.
pub fn put_table_cause(out: &mut Vec<u8>, cause: BalancedCause) -> Result<(), NoMemory>
    ensures done { OnOk result (out.new.items ≡ out.old.items ++ spaced (table_words cause)) }
    ensures kept { Keeps out.old.items out.new.items }
{
    match cause {
        BalancedCause::Csv => put_words(out, &[Word::Text(b"csv")]),
        BalancedCause::Header => put_words(out, &[Word::Text(b"header")]),
        BalancedCause::WrongMeasure => put_words(out, &[Word::Text(b"wrong-measure")]),
        BalancedCause::WrongTarget => put_words(out, &[Word::Text(b"wrong-target")]),
        BalancedCause::NotNumber => put_words(out, &[Word::Text(b"not-number")]),
        BalancedCause::OutOfRange => put_words(out, &[Word::Text(b"out-of-range")]),
        BalancedCause::WrongTotal { printed, sum } => put_wrong_total(out, printed, sum),
        BalancedCause::Short => put_words(out, &[Word::Text(b"short")]),
        BalancedCause::NoMemory => put_words(out, &[Word::Text(b"no-memory")]),
    }
}

/// A fault of asks without its line, each word behind a space; the fault of a name follows. After want of memory a part may
/// stand in `out`, behind what stood there.
pub fn put_ask_cause(out: &mut Vec<u8>, cause: AskCause) -> Result<(), NoMemory>
    ensures done { OnOk result (out.new.items ≡ out.old.items ++ spaced (ask_words cause)) }
    ensures kept { Keeps out.old.items out.new.items }
{
    match cause {
        AskCause::Csv => put_words(out, &[Word::Text(b"csv")]),
        AskCause::Header => put_words(out, &[Word::Text(b"header")]),
        AskCause::BadName(fault) => {
            put_words(out, &[Word::Text(b"bad-name")])?;
            put_name_fault(out, fault)
        }
        AskCause::NotLive => put_words(out, &[Word::Text(b"not-live")]),
        AskCause::TooMany => put_words(out, &[Word::Text(b"too-many")]),
        AskCause::Short => put_words(out, &[Word::Text(b"short")]),
        AskCause::NoMemory => put_words(out, &[Word::Text(b"no-memory")]),
    }
}

/// A fault of dismissals without its line, each word behind a space. After want of memory a part may stand in `out`, behind
/// what stood there.
pub fn put_dismiss_cause(out: &mut Vec<u8>, cause: DismissCause) -> Result<(), NoMemory>
    ensures done { OnOk result (out.new.items ≡ out.old.items ++ spaced (dismiss_words cause)) }
    ensures kept { Keeps out.old.items out.new.items }
{
    match cause {
        DismissCause::Csv => put_words(out, &[Word::Text(b"csv")]),
        DismissCause::Header => put_words(out, &[Word::Text(b"header")]),
        DismissCause::WrongYear => put_words(out, &[Word::Text(b"wrong-year")]),
        DismissCause::TooMany => put_words(out, &[Word::Text(b"too-many")]),
        DismissCause::NoReviewer => put_words(out, &[Word::Text(b"no-reviewer")]),
        DismissCause::NoMemory => put_words(out, &[Word::Text(b"no-memory")]),
    }
}
