ghost use Rattle.std.specs.Prelude.{◌≡◌};
ghost use Rattle.wm_instance.specs.declared.fault.InstanceFault.TheVariants.{NoMemory};

use std::alloc::{AllocError, AllocFailed};

/// Why a module has no store.
#[derive(Clone, Copy, Debug, PartialEq, Eq)]
pub enum InstanceFault {
    /// A segment passes the end of the table or of the memory.
    SegmentOut,
    /// Memory ran out.
    NoMemory,
}

impl From<AllocError> for InstanceFault {
    ghost from_gives = { λ _ e. e ≡ NoMemory };

    fn from(_e: AllocError) -> InstanceFault {
        InstanceFault::NoMemory
    }
}

impl<T: Drop> From<AllocFailed<T>> for InstanceFault {
    ghost from_gives = { λ _ e. e ≡ NoMemory };

    fn from(_e: AllocFailed<T>) -> InstanceFault {
        InstanceFault::NoMemory
    }
}
