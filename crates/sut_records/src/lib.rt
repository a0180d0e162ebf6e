//! The records of a file, one at a time.
#![tactic(auto)]

ghost use Rattle.std.specs.Prelude.{◌≡◌, ◌∷◌, ◌+◌, ◌≤◌, [], IfOk, OnOk, length, map};
ghost use Rattle.std.specs.Bool.{MatchBool};
ghost use Rattle.csv.specs.Records.{fields_of};
ghost use Rattle.sut_records.specs.RecordList.{field as field_of, records_of, same_fields};

use csv::{ByteRecord, ErrorKind, Reader, ReaderBuilder};
use std::alloc::{AllocError, Global};
use std::marker::Model;

/// The records of a text that are still to be read. Contracts see their list.
pub struct Records<'a> {
    reader: Reader<&'a [u8]>,
}

impl Drop for Records<'_> {
    fn drop(self) {
        let Records { reader } = self;
        drop(reader);
    }
}

impl<'a> Model for Records<'a> {
    ghost use Rattle.std.specs.Prelude.{◌≡◌, Some, List, true, false};
    ghost use Rattle.csv.specs.Reading.{default_config, has_failed, is_flexible, reader_config, reader_state, reader_trim, source_of, Ready};
    ghost use Rattle.csv.specs.declared.reader.Trim.TheVariants as trim;
    ghost use Rattle.sut_records.specs.RecordList.{Fields, records_left};

    ghost Value = { List Fields };

    ghost view = { λ r. records_left (reader_state r.reader) (source_of (λ s. Some s.now) r.reader) };

    ghost invariant = { λ r. has_failed r.reader ≡ false
        → (reader_trim r.reader ≡ trim.None) × (reader_config r.reader ≡ default_config) × Ready r.reader × (is_flexible r.reader ≡ true) };
}

impl<'a> Records<'a> {
    /// All records of a text.
    pub fn new(alloc: Global, bytes: &'a [u8]) -> Records<'a>
        ensures all { result ≡ records_of bytes.now }
        ensures few { length result ≤ length bytes.now }
    {
        let reader = ReaderBuilder::new()
            .has_headers(false)
            .flexible(true)
            .from_reader(alloc, bytes);
        Records { reader }
    }

    /// Takes the next record into `row`, if there is one. A slice never fails to be read, so the
    /// reader's own failure stands here for want of memory too.
    pub fn next(&mut self, row: &mut ByteRecord) -> Result<bool, AllocError>
        ensures { IfOk result (λ found. MatchBool found (self.old ≡ fields_of row.new ∷ self.new) (self.old ≡ [])) }
    {
        let error = match self.reader.read_byte_record(row) {
            Ok(found) => return Ok(found),
            Err(error) => error,
        };
        match error.into_kind() {
            ErrorKind::Io(_) | ErrorKind::OutOfMemory => Err(AllocError),
            ErrorKind::UnequalLengths { .. }
            | ErrorKind::Utf8 { .. }
            | ErrorKind::Serialize(_)
            | ErrorKind::Deserialize { .. } => unreachable!(),
        }
    }
}

/// The field of a record at a place, counted from 0; nothing where the record is shorter.
pub fn field(row: &ByteRecord, place: usize) -> &[u8]
    ensures { result.now ≡ field_of (fields_of row.now) place }
{
    match row.get(place) {
        Some(bytes) => bytes,
        None => b"",
    }
}

/// Whether a record has these fields.
pub fn has_fields(row: &ByteRecord, names: &[&[u8]]) -> bool
    ensures { result ≡ same_fields (fields_of row.now) (map (λ n. n.now) names.now) }
{
    if row.len() != names.len() {
        return false;
    }
    for (place, name) in names.iter().enumerate() {
        if field(row, place) != *name {
            return false;
        }
    }
    true
}
