//! What is appended for numbers and fields, and the numbers that texts spell.

use no_memory::NoMemory;
use std::alloc::Global;
use std::test::Fail;
use sut_text::fields::{Field, put_line};
use sut_text::{NumberFault, put_field, put_whole, read_whole};

/// A number and two fields behind what is there.
fn appended(mut out: Vec<u8>) -> Result<Vec<u8>, NoMemory> {
    put_whole(&mut out, -1000)?;
    put_field(&mut out, b",plain")?;
    put_field(&mut out, b"said \"x\"")?;
    Ok(out)
}

/// A line with a field of each form.
fn line_of_each(alloc: Global) -> Result<Vec<u8>, NoMemory> {
    let mut out = Vec::new(alloc);
    put_line(
        &mut out,
        &[
            Field::Text(b"make"),
            Field::Empty,
            Field::Tagged(b"tax", b"VAT"),
            Field::Numbered(b'P', 3),
            Field::Count(7),
            Field::Whole(-5),
        ],
    )?;
    Ok(out)
}

#[test]
fn appends_behind_what_is_there(rt: HostRuntime) -> Result<(), Fail> {
    let out = appended(Vec::from_slice(rt.alloc(), b"a:")?)?;
    let want = b"a:-1000\",plain\"\"said \"\"x\"\"\"".as_slice();
    assert_eq!(rt; out.as_slice(), want);
    Ok(())
}

#[test]
fn a_line_of_fields(rt: HostRuntime) -> Result<(), Fail> {
    let out = line_of_each(rt.alloc())?;
    assert_eq!(rt; out.as_slice(), b"make,,tax:VAT,P3,7,-5\n".as_slice());
    Ok(())
}

/// A text, and the number that it spells or its first fault.
type NumberCase<'a> = (&'a [u8], Result<i128, NumberFault>);

const NUMBERS: [NumberCase; 8] = [
    (b"", Err(NumberFault::Empty)),
    (b"-", Err(NumberFault::BadByte(1))),
    (b"1a", Err(NumberFault::BadByte(1))),
    (b"007", Err(NumberFault::NotShortest)),
    (b"-0", Err(NumberFault::NotShortest)),
    (b"-12", Ok(-12)),
    (b"-170141183460469231731687303715884105728", Ok(i128::MIN)),
    (
        b"170141183460469231731687303715884105728",
        Err(NumberFault::TooWide),
    ),
];

#[test]
fn numbers_and_their_faults(rt: HostRuntime) {
    for (text, want) in NUMBERS {
        assert_eq!(rt; read_whole(text), want, "{text:?}");
    }
}
