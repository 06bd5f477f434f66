ghost use Rattle.std.specs.Prelude.{◌≡◌, IfOk};

use ic_base::NoMemory;
use std::alloc::AllocError;

/// The number in 32 bits. What does not fit counts as out of memory.
pub(crate) fn in_u32(n: usize) -> Result<u32, NoMemory>
    ensures { IfOk result (λ m. m ≡ n) }
{
    if n <= u32::MAX as usize {
        Ok(n as u32)
    } else {
        Err(AllocError)
    }
}
