//! The edit that a line of nine fields says.

ghost use Rattle.std.specs.Prelude.{◌≡◌, ◌≢◌, Ok, IfErr, IfOk, IsTrue, length};
ghost use Rattle.csv.specs.Records.{fields_of};
ghost use Rattle.sut_records.specs.RecordList.{field as field_of};
ghost use Rattle.sut_measures.specs.Fits.{fits};
ghost use Rattle.sut_source.specs.SourceText.{HasGrade};
ghost use Rattle.sut_source.specs.RowFile.{name_fault, row_fields};
ghost use Rattle.sut_source.specs.RowRules.{spelled_fields};
ghost use Rattle.sut_edits.specs.EditsFile.{dismiss_in, drop_in, edit_in, edit_with, first_filled, is_filled, measure_in, only_empty, place_of, row_in, word_of};
ghost use Rattle.sut_edits.specs.EditRules.{IsEditOf};

use crate::edits::Edit;
use crate::faults::EditsCause;
use csv::ByteRecord;
use std::alloc::Global;
use sut_classes::Classes;
use sut_measures::{Field, Measure, NameFault, read_name};
use sut_records::field;
use sut_settings::Settings;
use sut_source::{RowFault, RowText, row_from};
use sut_tables::Row;
use sut_text::Label;

/// What an edit does, as its word says.
#[derive(Debug, Clone, Copy, PartialEq, Eq)]
pub(crate) enum Word {
    Set,
    Add,
    Drop,
    Balance,
    Dismiss,
}

/// The fields that follow the word, in the order of the file.
const AFTER_WORD: [Field; 8] = [
    Field::Kind,
    Field::A,
    Field::B,
    Field::C,
    Field::Target,
    Field::Grade,
    Field::Lower,
    Field::Upper,
];

/// The fields that follow a measure's name.
const AFTER_NAME: [Field; 4] = [Field::Target, Field::Grade, Field::Lower, Field::Upper];

/// The fields beside a label, which stands in field a.
const BESIDE_LABEL: [Field; 7] = [
    Field::Kind,
    Field::B,
    Field::C,
    Field::Target,
    Field::Grade,
    Field::Lower,
    Field::Upper,
];

fn word_of(text: &[u8]) -> Option<Word>
    ensures { result ≡ word_of text.now }
{
    if text == b"set".as_slice() {
        Some(Word::Set)
    } else if text == b"add".as_slice() {
        Some(Word::Add)
    } else if text == b"drop".as_slice() {
        Some(Word::Drop)
    } else if text == b"balance".as_slice() {
        Some(Word::Balance)
    } else if text == b"dismiss".as_slice() {
        Some(Word::Dismiss)
    } else {
        None
    }
}

// The place of a field in a line of edits, whose first field is the word.
fn place_of(at: Field) -> usize
    ensures { result ≡ place_of at }
{
    match at {
        Field::Kind => 1,
        Field::A => 2,
        Field::B => 3,
        Field::C => 4,
        Field::Target => 5,
        Field::Grade => 6,
        Field::Lower => 7,
        Field::Upper => 8,
    }
}

fn is_filled(row: &ByteRecord, at: Field) -> bool
    ensures { result ≡ is_filled (fields_of row.now) at }
{
    !field(row, place_of(at)).is_empty()
}

// The first of these fields that is not empty.
fn first_filled(row: &ByteRecord, among: &[Field]) -> Option<Field>
    ensures { result ≡ first_filled (fields_of row.now) among.now }
{
    among.iter().copied().find(|at| is_filled(row, *at))
}

// Whether all of these fields are empty, or the fault of the first that is not.
fn only_empty(row: &ByteRecord, among: &[Field]) -> Result<(), EditsCause>
    ensures { result ≡ only_empty (fields_of row.now) among.now (Ok tt) }
{
    match first_filled(row, among) {
        Some(at) => Err(EditsCause::NotEmpty(at)),
        None => Ok(()),
    }
}

fn name_cause(fault: NameFault) -> RowFault
    ensures { result ≡ name_fault fault }
{
    match fault {
        NameFault::UnknownKind => RowFault::UnknownKind,
        NameFault::UnknownCode(at) => RowFault::UnknownCode(at),
        NameFault::NotEmpty(at) => RowFault::NotEmpty(at),
        NameFault::WrongService => RowFault::WrongService,
    }
}

// The measure that a line names behind its word.
fn measure_in(classes: &Classes, row: &ByteRecord) -> Result<Measure, EditsCause>
    ensures value { result ≡ measure_in classes.now (fields_of row.now) }
    ensures fitting { IfOk result (λ m. IsTrue (fits classes.now m)) }
{
    match read_name(
        classes,
        field(row, 1),
        field(row, 2),
        field(row, 3),
        field(row, 4),
    ) {
        Ok(measure) => Ok(measure),
        Err(fault) => Err(EditsCause::BadRow(name_cause(fault))),
    }
}

fn row_text(row: &ByteRecord) -> RowText<'_>
    ensures { spelled_fields result ≡ row_fields 1 (fields_of row.now) }
{
    RowText {
        kind: field(row, 1),
        a: field(row, 2),
        b: field(row, 3),
        c: field(row, 4),
        target: field(row, 5),
        grade: field(row, 6),
        lower: field(row, 7),
        upper: field(row, 8),
    }
}

// The row of a source that a line spells behind its word.
fn row_in(s: &Settings, classes: &Classes, row: &ByteRecord) -> Result<Row, EditsCause>
    ensures value { result ≡ row_in s.now classes.now (fields_of row.now) }
    ensures fitting { IfOk result (λ r. IsTrue (fits classes.now r.measure)) }
    ensures graded { IfOk result (HasGrade s.now) }
{
    match row_from(s, classes, &row_text(row)) {
        Ok(read) => Ok(read),
        Err(fault) => Err(EditsCause::BadRow(fault)),
    }
}

fn drop_in(classes: &Classes, row: &ByteRecord) -> Result<Edit, EditsCause>
    ensures value { result ≡ drop_in classes.now (fields_of row.now) }
    ensures good { (s : _) → IfOk result (IsEditOf s classes.now) }
{
    let measure = measure_in(classes, row)?;
    only_empty(row, &AFTER_NAME)?;
    Ok(Edit::Drop(measure))
}

fn label_in(alloc: Global, row: &ByteRecord) -> Result<Label, EditsCause>
    ensures value { IfOk result (λ l. l ≡ field_of (fields_of row.now) 2) }
    ensures memory { IfErr result (λ c. c ≡ EditsCause.NoMemory) }
{
    match Vec::from_slice(alloc, field(row, 2)) {
        Ok(bytes) => Ok(Label::new(bytes)),
        Err(_) => Err(EditsCause::NoMemory),
    }
}

fn dismiss_in(alloc: Global, row: &ByteRecord) -> Result<Edit, EditsCause>
    ensures value { result ≢ Err EditsCause.NoMemory → result ≡ dismiss_in (fields_of row.now) }
    ensures good { (s : _) (cs : _) → IfOk result (IsEditOf s cs) }
{
    only_empty(row, &BESIDE_LABEL)?;
    match label_in(alloc, row) {
        Ok(label) => Ok(Edit::Dismiss(label)),
        Err(cause) => Err(cause),
    }
}

// The edit of a line that has this word.
#[tactic(auto, unfolding(crate::specs::EditsFile::edit_with))]
fn edit_with(
    alloc: Global,
    s: &Settings,
    classes: &Classes,
    word: Word,
    row: &ByteRecord,
) -> Result<Edit, EditsCause>
    ensures value { result ≢ Err EditsCause.NoMemory → result ≡ edit_with s.now classes.now (fields_of row.now) word }
    ensures good { IfOk result (IsEditOf s.now classes.now) }
{
    match word {
        Word::Set => Ok(Edit::Set(row_in(s, classes, row)?)),
        Word::Add => Ok(Edit::Add(row_in(s, classes, row)?)),
        Word::Drop => drop_in(classes, row),
        Word::Balance => {
            only_empty(row, &AFTER_WORD)?;
            Ok(Edit::Balance)
        }
        Word::Dismiss => dismiss_in(alloc, row),
    }
}

/// The edit of a line of nine fields, or its first fault.
pub(crate) fn edit_in(
    alloc: Global,
    s: &Settings,
    classes: &Classes,
    row: &ByteRecord,
) -> Result<Edit, EditsCause>
    ensures value { result ≢ Err EditsCause.NoMemory → result ≡ edit_in s.now classes.now (fields_of row.now) }
    ensures good { IfOk result (IsEditOf s.now classes.now) }
{
    match word_of(field(row, 0)) {
        Some(word) => edit_with(alloc, s, classes, word, row),
        None => Err(EditsCause::UnknownEdit),
    }
}
