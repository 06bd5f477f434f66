ghost use Rattle.std.specs.Prelude.{◌≡◌};
ghost use Rattle.wm_valid.specs.declared.invalid.Invalid.TheVariants.{NoMemory};

use std::alloc::{AllocError, AllocFailed};

/// Why a module is not valid. The checks are tried in this order, each with the least number.
/// Imports, exports and the functions that the module defines are counted from 0; sections have the
/// numbers of the binary format (WebAssembly Core 1.0, 5.5.2).
#[derive(Clone, Copy, Debug, PartialEq, Eq)]
pub enum Invalid {
    /// An import is no call of the System API.
    Import { number: u32 },
    /// An index or a limit is out of range, a type has two results, there are two tables or two
    /// memories, a constant expression is no constant of the type, or the start function is not
    /// () -> ().
    Index { section: u32 },
    /// A table has more than 65,536 entries at first, a memory more than 256 pages, or a function
    /// more than 10,000 parameters and locals.
    Size { section: u32 },
    /// An export repeats an earlier name; or its name begins with `canister_` and is not that of an
    /// entry point, or it is no function () -> (); or its method is an update and a query.
    Entry { export: u32 },
    /// More than 1,000 blocks nest in a function's body.
    Nesting { function: u32 },
    /// A function's body has no typing.
    Untyped { function: u32 },
    /// Memory ran out.
    NoMemory,
}

impl From<AllocError> for Invalid {
    ghost from_gives = { λ _ e. e ≡ NoMemory };

    fn from(_e: AllocError) -> Invalid {
        Invalid::NoMemory
    }
}

impl<T: Drop> From<AllocFailed<T>> for Invalid {
    ghost from_gives = { λ _ e. e ≡ NoMemory };

    fn from(_e: AllocFailed<T>) -> Invalid {
        Invalid::NoMemory
    }
}
