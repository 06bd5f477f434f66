ghost use Rattle.std.specs.Prelude.{◌≡◌};
ghost use Rattle.ic_base.specs.declared.read_error.ReadError.TheVariants.{NoMemory};

use std::alloc::{AllocError, AllocFailed};

/// Why a reader inside a crate gave no value. A public call answers with an error of its own that
/// names the cause.
#[derive(Clone, Copy, Debug, PartialEq, Eq)]
pub enum ReadError {
    /// Memory ran out.
    NoMemory,
    /// No front of the bytes is a spelling.
    Refused,
}

impl From<AllocError> for ReadError {
    ghost from_gives = { λ _ e. e ≡ NoMemory };

    fn from(_e: AllocError) -> ReadError {
        ReadError::NoMemory
    }
}

impl<T: Drop> From<AllocFailed<T>> for ReadError {
    ghost from_gives = { λ _ e. e ≡ NoMemory };

    fn from(_e: AllocFailed<T>) -> ReadError {
        ReadError::NoMemory
    }
}
