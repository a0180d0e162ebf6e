//! One file, read.

ghost use Rattle.std.specs.Prelude.{◌≡◌, ◌≤◌, IfErr, IfOk, IfSome, IsErrAnd, Ok};
ghost use Rattle.sut_outside.specs.Causes.{NoneFailed};
ghost use Rattle.sut_outside.specs.Files.{Told, SameFiles};
ghost use Rattle.sut_input.specs.Reads.{FailsBy, GivesOk, IsReadFault, Refuses};
ghost use Rattle.sut_input.specs.Inputs.{read_bytes};

use crate::faults::InputFault;
use sut_outside::{FileName, Shelf, ShelfError};

/// The bytes of a file. Where no failed read is answered, no call of the shelf failed.
pub fn read_file<F: Shelf>(shelf: &mut F, name: FileName) -> Result<Vec<u8>, InputFault>
    ensures kept { Told (F.files shelf.old) (F.files shelf.new) SameFiles }
    ensures ok { IfOk result (λ bytes. IfSome (F.files shelf.old) (λ files. GivesOk (λ failed held. read_bytes failed held name) files bytes.items)) }
    ensures err { IfErr result (λ fault. IfSome (F.files shelf.old) (λ files. Refuses (λ failed held. read_bytes failed held name) files fault)) }
    ensures later { F.faults shelf.old ≤ F.faults shelf.new }
    ensures cause { IfErr result (FailsBy name (F.faults shelf.old) (F.faults shelf.new) (F.last_failed shelf.new)) }
    ensures stays { ¬ IsErrAnd result IsReadFault → NoneFailed (F.faults shelf.old) (F.faults shelf.new) (F.last_failed shelf.old) (F.last_failed shelf.new) }
{
    match shelf.read(name) {
        Ok(bytes) => Ok(bytes),
        Err(ShelfError::Missing) => Err(InputFault::Missing(name)),
        Err(ShelfError::TooLong) => Err(InputFault::TooLong(name)),
        Err(ShelfError::Failed) => Err(InputFault::ReadFault(name)),
        Err(ShelfError::NoMemory) => Err(InputFault::NoMemory),
    }
}
