ghost use Rattle.sheet.specs.declared.error.ReadError.TheVariants.{Fault, OutOfMemory};
ghost use Rattle.sheet.specs.Refusals.{read_error_text};
ghost use Rattle.std.specs.Prelude.{◌≡◌, Some};

use nodes::error::ArchiveError;
use std::alloc::{AllocError, AllocFailed};
use std::error::Error;
use std::fmt;

// Why a sheet was not read.
#[derive(Clone, Copy, PartialEq, Eq, Debug)]
pub enum ReadError {
    Fault(ArchiveError),
    OutOfMemory,
}

impl From<ArchiveError> for ReadError {
    ghost from_gives = { λ e r. r ≡ Fault e };

    fn from(e: ArchiveError) -> ReadError {
        ReadError::Fault(e)
    }
}

impl From<AllocError> for ReadError {
    ghost from_gives = { λ _ r. r ≡ OutOfMemory };

    fn from(_e: AllocError) -> ReadError {
        ReadError::OutOfMemory
    }
}

impl<T: Drop> From<AllocFailed<T>> for ReadError {
    ghost from_gives = { λ _ r. r ≡ OutOfMemory };

    fn from(_e: AllocFailed<T>) -> ReadError {
        ReadError::OutOfMemory
    }
}

impl fmt::Display for ReadError {
    ghost output = { λ e. Some (read_error_text e) };

    fn fmt<W: fmt::Write>(&self, f: &mut fmt::Formatter<W>) -> fmt::Result {
        match self {
            ReadError::Fault(e) => write!(f, "{e}"),
            ReadError::OutOfMemory => f.write_str("out of memory"),
        }
    }
}

impl Error for ReadError {}
