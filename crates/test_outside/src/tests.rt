//! Shelves and sinks in memory fail the listed calls and leave what they should; a folder that isn't there.

use std::process::Abort;
use std::test::Fail;
use sut_outside::{
    ConsoleSink, FileName, FolderShelf, MemoryShelf, MemorySink, Shelf, ShelfError, Sink,
    SinkError, SteadyShelf,
};

/// A read or a write of a file.
#[derive(Clone, Copy)]
enum Call<'a> {
    Read(FileName),
    Write(FileName, &'a [u8]),
}

/// A call, its fault if it has one, and what stands under its name after it.
type Step<'a> = (Call<'a>, Option<ShelfError>, Option<&'a [u8]>);

/// Whether a read gives what stands under the name, or this fault.
fn reads<S: Shelf>(shelf: &mut S, name: FileName, want: Result<&[u8], ShelfError>) -> bool {
    match shelf.read(name) {
        Ok(bytes) => want == Ok(bytes.as_slice()),
        Err(fault) => want == Err(fault),
    }
}

/// Whether the call ends so.
fn ends<S: Shelf>(shelf: &mut S, (call, fault, after): Step) -> bool {
    match call {
        Call::Read(name) => match fault {
            Some(fault) => reads(shelf, name, Err(fault)),
            None => reads(shelf, name, Ok(after.unwrap_or(b""))),
        },
        Call::Write(name, bytes) => shelf.write(name, bytes).err() == fault,
    }
}

/// The name that a call is of.
fn name_of(call: Call) -> FileName {
    match call {
        Call::Read(name) => name,
        Call::Write(name, _) => name,
    }
}

fn take_steps(rt: &impl Abort, shelf: &mut MemoryShelf, steps: &[Step]) {
    for step in steps {
        assert!(rt; ends(shelf, *step), "{:?}", step.1);
        assert!(rt; shelf.file(name_of(step.0)) == step.2, "{:?}", step.1);
    }
}

#[test]
fn fails_the_listed_calls(rt: HostRuntime) -> Result<(), Fail> {
    let mut shelf = MemoryShelf::new(rt.alloc(), vec![in rt.alloc(); 2, 4]?);
    shelf.place(FileName::SourceCsv, b"old")?;
    let old = Some(b"old".as_slice());
    let new = Some(b"new".as_slice());
    let steps = [
        (
            Call::Read(FileName::ClassesCsv),
            Some(ShelfError::Missing),
            None,
        ),
        (
            Call::Read(FileName::SourceCsv),
            Some(ShelfError::Failed),
            old,
        ),
        (Call::Read(FileName::SourceCsv), None, old),
        (
            Call::Write(FileName::SourceCsv, b"new"),
            Some(ShelfError::Failed),
            old,
        ),
        (Call::Write(FileName::SourceCsv, b"new"), None, new),
    ];
    take_steps(&rt, &mut shelf, &steps);
    Ok(())
}

#[test]
fn a_torn_write_leaves_its_front(rt: HostRuntime) -> Result<(), Fail> {
    let mut shelf = MemoryShelf::torn(rt.alloc(), vec![in rt.alloc(); 1, 2]?, 2);
    let steps = [
        (
            Call::Write(FileName::UseCsv, b"abc"),
            Some(ShelfError::Failed),
            Some(b"ab".as_slice()),
        ),
        (
            Call::Write(FileName::UseCsv, b"x"),
            Some(ShelfError::Failed),
            Some(b"x".as_slice()),
        ),
    ];
    take_steps(&rt, &mut shelf, &steps);
    Ok(())
}

#[test]
fn a_steady_shelf_keeps_what_is_written(rt: HostRuntime) -> Result<(), Fail> {
    let mut steady = SteadyShelf::new(rt.alloc());
    steady.place(FileName::UseCsv, b"y")?;
    steady.write(FileName::SourceCsv, b"z")?;
    assert!(rt; reads(&mut steady, FileName::UseCsv, Ok(b"y")));
    assert!(rt; steady.file(FileName::SourceCsv) == Some(b"z".as_slice()));
    Ok(())
}

/// Bytes, and how their put ends.
const PUTS: [(&[u8], Result<(), SinkError>); 3] = [
    (b"abc", Ok(())),
    (b"d", Err(SinkError::Failed)),
    (b"efg", Err(SinkError::Failed)),
];

#[test]
fn fails_listed_puts_and_full_ones(rt: HostRuntime) -> Result<(), Fail> {
    let mut sink = MemorySink::new(rt.alloc(), 5, vec![in rt.alloc(); 2]?)?;
    for (bytes, want) in PUTS {
        assert_eq!(rt; sink.put(bytes), want, "{bytes:?}");
    }
    assert_eq!(rt; sink.text(), b"abcef".as_slice());
    Ok(())
}

#[test]
fn a_folder_that_is_not_there(rt: HostRuntime) -> Result<(), Fail> {
    let mut nowhere = FolderShelf::new(&rt, String::from_str(rt.alloc(), "/nowhere")?);
    let name = FileName::Classes2Csv;
    assert!(rt; reads(&mut nowhere, name, Err(ShelfError::Missing)));
    assert_eq!(rt; nowhere.write(name, b""), Err(ShelfError::Failed));
    Ok(())
}

#[test]
fn prints_a_piece(rt: HostRuntime) {
    assert_eq!(rt; ConsoleSink::new(&rt).put(b"printed\n"), Ok(()));
}
