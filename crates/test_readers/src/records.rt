//! The records of a text with a byte order mark, quotes and each kind of line end.

use csv::ByteRecord;
use std::process::Abort;
use std::test::Fail;
use sut_records::{Records, field, has_fields};

const TEXT: &[u8] = b"\xEF\xBB\xBFaxis,code\r\n\n\"a,\"\"b\"\"\",\nlast";

/// The fields of each record, and what stands behind its last field.
const RECORDS: [&[&[u8]]; 3] = [&[b"axis", b"code"], &[b"a,\"b\"", b""], &[b"last"]];

/// Tests the records that are left against these.
fn check_records(
    rt: &impl Abort,
    records: &mut Records,
    row: &mut ByteRecord,
    wanted: &[&[&[u8]]],
) -> Result<(), Fail> {
    for want in wanted {
        assert!(rt; records.next(row)?);
        assert!(rt; has_fields(row, want), "{want:?}");
        assert!(rt; field(row, want.len()).is_empty());
    }
    assert!(rt; !records.next(row)?);
    Ok(())
}

#[test]
fn line_ends_quotes_and_a_mark(rt: HostRuntime) -> Result<(), Fail> {
    let mut records = Records::new(rt.alloc(), TEXT);
    let mut row = ByteRecord::new(rt.alloc());
    check_records(&rt, &mut records, &mut row, &RECORDS)
}
