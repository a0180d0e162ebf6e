//! Reads a real file, writes another, reads it back and prints it.
#![tactic(auto)]

#[cfg(test)]
mod tests;

use std::alloc::AllocError;
use sut_outside::{
    ConsoleSink, FileName, FolderShelf, MemoryShelf, Shelf, ShelfError, Sink, SinkError,
};

fn copy<F: Shelf, K: Sink>(shelf: &mut F, out: &mut K) -> Result<(), ShelfError> {
    let bytes = shelf.read(FileName::SourceCsv)?;
    shelf.write(FileName::EditedCsv, &bytes)?;
    let again = shelf.read(FileName::EditedCsv)?;
    if out.put(&again).is_err() {
        return Err(ShelfError::Failed);
    }
    Ok(())
}

fn say<K: Sink>(out: &mut K, answer: Result<(), ShelfError>) -> Result<(), SinkError> {
    match answer {
        Ok(()) => out.put(b"copied\n"),
        Err(ShelfError::Missing) => out.put(b"missing\n"),
        Err(ShelfError::TooLong) => out.put(b"too long\n"),
        Err(ShelfError::Failed) => out.put(b"failed\n"),
        Err(ShelfError::NoMemory) => out.put(b"no memory\n"),
    }
}

fn main(rt: HostRuntime) -> Result<(), AllocError> {
    let alloc = rt.alloc();
    let mut out = ConsoleSink::new(&rt);
    let mut shelf = FolderShelf::new(&rt, String::from_str(alloc, ".")?);
    // the second time a file stands there already
    for _ in 0..2 {
        let answer = copy(&mut shelf, &mut out);
        let _ = say(&mut out, answer);
    }
    let mut none = FolderShelf::new(&rt, String::from_str(alloc, "./nowhere")?);
    let answer = copy(&mut none, &mut out);
    let _ = say(&mut out, answer);
    let mut torn = MemoryShelf::torn(alloc, vec![in alloc; 2]?, 3);
    let _ = torn.place(FileName::SourceCsv, b"a,b,c\n");
    let answer = copy(&mut torn, &mut out);
    let _ = say(&mut out, answer);
    if let Some(bytes) = torn.file(FileName::EditedCsv) {
        let _ = out.put(bytes);
    }
    let _ = out.put(b"\n");
    Ok(())
}
