ghost use Rattle.std.specs.Prelude.{◌≡◌};
ghost use Rattle.wm_typing.specs.declared.fault.BodyFault.TheVariants.{NoMemory};

use std::alloc::{AllocError, AllocFailed};

/// Why a body is not validated. `Nesting` is tried first.
#[derive(Clone, Copy, Debug, PartialEq, Eq)]
pub enum BodyFault {
    /// More than 1,000 blocks nest, which is a limit of this project.
    Nesting,
    /// The body has no typing (WebAssembly Core 1.0, 3.3).
    Untyped,
    /// Memory ran out, or the body has 2^32 - 1 or more words, or 2^32 or more
    /// locals, arms or operands.
    NoMemory,
}

impl From<AllocError> for BodyFault {
    ghost from_gives = { λ _ e. e ≡ NoMemory };

    fn from(_e: AllocError) -> BodyFault {
        BodyFault::NoMemory
    }
}

impl<T: Drop> From<AllocFailed<T>> for BodyFault {
    ghost from_gives = { λ _ e. e ≡ NoMemory };

    fn from(_e: AllocFailed<T>) -> BodyFault {
        BodyFault::NoMemory
    }
}
