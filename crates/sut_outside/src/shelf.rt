//! A shelf of files, and a sink for printed lines.
ghost use Rattle.std.specs.Prelude.{◌≡◌, ◌≢◌, ℕ, List, Option, IfSome};
ghost use Rattle.sut_outside.specs.declared.names.FileName.{FileName};
ghost use Rattle.sut_outside.specs.declared.shelf.SinkError.TheVariants.{Failed as SinkFailed};
ghost use Rattle.sut_outside.specs.declared.shelf.ShelfError.TheVariants.{Failed};
ghost use Rattle.sut_outside.specs.Files.{Files, SameFiles, Reads, Writes, Told};
ghost use Rattle.sut_outside.specs.Causes.{HasCause, NamesFault};
ghost use Rattle.sut_outside.specs.Sent.{Puts};

use crate::FileName;
use thiserror::Error;

/// The most bytes that a read gives.
pub const FILE_LIMIT: usize = 67_108_864;

/// Why a file was not read or written.
#[derive(Clone, Copy, Debug, PartialEq, Eq, Error)]
pub enum ShelfError {
    #[error("the file is missing")]
    Missing,
    #[error("the file is too long")]
    TooLong,
    #[error("the device failed")]
    Failed,
    #[error("out of memory")]
    NoMemory,
}

/// Why a piece was not sent whole.
#[derive(Clone, Copy, Debug, PartialEq, Eq, Error)]
pub enum SinkError {
    #[error("the device failed")]
    Failed,
}

/// A shelf holds files by name. A real folder doesn't tell what it holds, a shelf in memory does. Where a call answers anything
/// but a fault of the device, its count of faults and the name of its last failed call are as they were.
pub trait Shelf {
    /// The files, where they are told.
    ghost files: { Self → Option Files };

    /// The name of the last failed call.
    ghost last_failed: { Self → Option FileName };

    /// How many faults there were, a number that never falls, and that changes only by a failed call.
    ghost faults: { Self → ℕ };

    /// Reads a whole file.
    fn read(&mut self, name: FileName) -> Result<Vec<u8>, ShelfError>
        ensures kept { Told (files self.old) (files self.new) SameFiles }
        ensures answer { IfSome (files self.old) (λ files. Reads files name result) }
        ensures cause { HasCause (faults self.old) (faults self.new) result Failed }
        ensures named { NamesFault name result (last_failed self.old) (last_failed self.new) };

    /// Writes a whole file. After an error the file may hold anything or be gone.
    fn write(&mut self, name: FileName, bytes: &[u8]) -> Result<(), ShelfError>
        ensures written { Told (files self.old) (files self.new) (Writes name bytes.now result) }
        ensures missing { result ≢ Err ShelfError.Missing }
        ensures too_long { result ≢ Err ShelfError.TooLong }
        ensures cause { HasCause (faults self.old) (faults self.new) result Failed }
        ensures named { NamesFault name result (last_failed self.old) (last_failed self.new) };
}

/// A sink takes printed bytes. A real terminal doesn't tell what went out, a sink in memory does. Where a put doesn't fail, the
/// count of faults is as it was.
pub trait Sink {
    /// The bytes that went out, where they are told.
    ghost sent: { Self → Option (List ℕ) };

    /// How many faults there were, a number that never falls, and that changes only by a failed put.
    ghost faults: { Self → ℕ };

    /// Sends a piece. After an error a part of it from its front went out.
    fn put(&mut self, piece: &[u8]) -> Result<(), SinkError>
        ensures sent { Told (sent self.old) (sent self.new) (Puts piece.now result) }
        ensures cause { HasCause (faults self.old) (faults self.new) result SinkFailed };
}
