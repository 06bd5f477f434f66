ghost use Rattle.ic_leb.specs.Spelling.{unsigned_spelling};
ghost use Rattle.wm_encode.specs.Ranges.{Is32};

use crate::item::Encode;
use ic_base::NoMemory;
use ic_leb::{size_u, write_u};

impl Encode<()> for u32 {
    ghost bytes = { unsigned_spelling };

    ghost Ranged = { Is32 };

    fn size(&self) -> usize {
        size_u(*self as u128)
    }

    fn write(&self, out: &mut Vec<u8>) -> Result<(), NoMemory> {
        write_u(*self as u128, out)?;
        Ok(())
    }
}
