//! Real files of a folder, and standard output. They tell no contents.
ghost use Rattle.std.specs.Prelude.{◌≡◌, None};

use crate::{FILE_LIMIT, FileName, Shelf, ShelfError, Sink, SinkError};
use std::alloc::{AllocError, AllocFailed};
use std::fs::{OpenFile, OpenOptions, Permissions};
use std::io::{ErrorKind, Read, Write};
use std::os::unix::fs::{OpenOptionsExt, PermissionsExt};
use std::rt::Files;
use std::{fs, io};

/// The files of a folder.
#[derive(Drop)]
pub struct FolderShelf<'a, R: Files + AllocGlobal> {
    rt: &'a R,
    folder: String,
    faults: u64,
    last_failed: Option<FileName>,
}

impl<'a, R: Files + AllocGlobal> FolderShelf<'a, R> {
    /// Over the files of a folder of the machine.
    pub fn new(rt: &'a R, folder: String) -> FolderShelf<'a, R>
        ensures faults { result.faults ≡ 0 }
        ensures last { result.last_failed ≡ None }
    {
        FolderShelf {
            rt,
            folder,
            faults: 0,
            last_failed: None,
        }
    }
}

// The folder's path, a slash, the name and an ending.
fn path_of<R: AllocGlobal>(
    rt: &R,
    folder: &str,
    name: FileName,
    ending: &str,
) -> Result<String, AllocError> {
    let mut path = String::from_str(rt.alloc(), folder)?;
    path.push('/')?;
    path.push_str(name.text())?;
    path.push_str(ending)?;
    Ok(path)
}

// A whole file, but no more than one byte past the limit. A pipe or a device is no file: a read of it might never end.
fn read_file<R: Files + AllocGlobal>(rt: &R, folder: &str, name: FileName) -> io::Result<Vec<u8>> {
    let path = path_of(rt, folder, name, "")?;
    if !fs::metadata(rt, path.as_str())?.is_file() {
        return Err(io::Error::from(ErrorKind::InvalidInput));
    }
    let file = fs::open(rt, path.as_str())?;
    let mut bytes = Vec::new(rt.alloc());
    file.take(FILE_LIMIT as u64 + 1).read_to_end(&mut bytes)?;
    Ok(bytes)
}

// The permissions of the file that stands under a path, if one does, which may be written. A link, a pipe or a device is
// no file.
fn mode_there<R: Files>(rt: &R, path: &str) -> io::Result<Option<u32>> {
    match fs::symlink_metadata(rt, path) {
        Ok(there) if there.is_file() => {
            let file = OpenOptions::new().write(true).open(rt, path)?;
            Ok(Some(file.metadata()?.permissions().mode() & 0o777))
        }
        Ok(_) => Ok(None),
        Err(e) if e.kind() == ErrorKind::NotFound => Ok(None),
        Err(e) => Err(e),
    }
}

// Takes away what a run that was cut off has left.
fn clear<R: Files>(rt: &R, path: &str) -> io::Result<()> {
    match fs::remove_file(rt, path) {
        Ok(()) => Ok(()),
        Err(e) if e.kind() == ErrorKind::NotFound => Ok(()),
        Err(e) => Err(e),
    }
}

// A new file with these bytes, on the device. It follows no link: where anything stands under the path, it fails.
fn write_new<R: Files>(rt: &R, path: &str, mode: Option<u32>, bytes: &[u8]) -> io::Result<()> {
    let mut options = OpenOptions::new();
    options.write(true).create_new(true);
    if let Some(mode) = mode {
        options.mode(mode);
    }
    let mut file = options.open(rt, path)?;
    if let Some(mode) = mode {
        let _ = file.set_permissions(Permissions::from_mode(mode));
    }
    file.write_all(bytes)?;
    file.sync_all()
}

// Puts the folder's names on the device, where the system opens a folder.
fn sync_folder<R: Files>(rt: &R, folder: &str) -> io::Result<()> {
    match fs::open(rt, folder) {
        Ok(names) => names.sync_all(),
        Err(_) => Ok(()),
    }
}

// A new file beside the old one takes its name once it is whole and on the device.
fn replace<R: Files>(rt: &R, path: &str, part: &str, bytes: &[u8]) -> io::Result<()> {
    let mode = mode_there(rt, path)?;
    clear(rt, part)?;
    write_new(rt, part, mode, bytes)?;
    fs::rename(rt, part, path)
}

// Writes NAME.part and renames it over NAME; after a failure NAME.part is taken away.
fn write_file<R: Files + AllocGlobal>(
    rt: &R,
    folder: &str,
    name: FileName,
    bytes: &[u8],
) -> io::Result<()> {
    let path = path_of(rt, folder, name, "")?;
    let part = path_of(rt, folder, name, ".part")?;
    match replace(rt, path.as_str(), part.as_str(), bytes) {
        Ok(()) => sync_folder(rt, folder),
        Err(e) => {
            let _ = fs::remove_file(rt, part.as_str());
            Err(e)
        }
    }
}

impl<R: Files + AllocGlobal> Shelf for FolderShelf<'_, R> {
    ghost files = { λ _. None };

    ghost last_failed = { λ shelf. shelf.last_failed };

    ghost faults = { λ shelf. shelf.faults };

    fn read(&mut self, name: FileName) -> Result<Vec<u8>, ShelfError> {
        match read_file(self.rt, &self.folder, name) {
            Ok(bytes) if bytes.len() > FILE_LIMIT => Err(ShelfError::TooLong),
            Ok(bytes) => Ok(bytes),
            Err(e) if e.kind() == ErrorKind::NotFound => Err(ShelfError::Missing),
            Err(e) if e.kind() == ErrorKind::OutOfMemory => Err(ShelfError::NoMemory),
            Err(_) => {
                self.faults = self.faults.saturating_add(1);
                self.last_failed = Some(name);
                Err(ShelfError::Failed)
            }
        }
    }

    /// Writes NAME.part, puts it on the device, and renames it over NAME: under a name stands what stood there or the whole
    /// new text, as far as the system's rename is atomic. Files that may not be written are left. What a run that was cut
    /// off has left (NAME.part) is removed first.
    fn write(&mut self, name: FileName, bytes: &[u8]) -> Result<(), ShelfError> {
        match write_file(self.rt, &self.folder, name, bytes) {
            Ok(()) => Ok(()),
            Err(e) if e.kind() == ErrorKind::OutOfMemory => Err(ShelfError::NoMemory),
            Err(_) => {
                self.faults = self.faults.saturating_add(1);
                self.last_failed = Some(name);
                Err(ShelfError::Failed)
            }
        }
    }
}

/// Standard output.
#[derive(Drop)]
pub struct ConsoleSink<'a, R: Print> {
    rt: &'a R,
    faults: u64,
}

impl<'a, R: Print> ConsoleSink<'a, R> {
    /// Over the standard output of the machine.
    pub fn new(rt: &'a R) -> ConsoleSink<'a, R>
        ensures { result.faults ≡ 0 }
    {
        ConsoleSink { rt, faults: 0 }
    }
}

// Whether all bytes were taken. A write that takes nothing of what isn't empty is a failure; one that a signal interrupts is
// tried again.
fn print_all<R: Print>(rt: &R, bytes: &[u8]) -> bool {
    io::writer(rt).write_all(bytes).is_ok()
}

impl<R: Print> Sink for ConsoleSink<'_, R> {
    ghost sent = { λ _. None };

    ghost faults = { λ sink. sink.faults };

    fn put(&mut self, piece: &[u8]) -> Result<(), SinkError> {
        if print_all(self.rt, piece) {
            return Ok(());
        }
        self.faults = self.faults.saturating_add(1);
        Err(SinkError::Failed)
    }
}
