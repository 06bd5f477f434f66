ghost use Rattle.std.specs.Prelude.{List, ℕ, Option};
ghost use Rattle.ic_base.specs.Gives.{Gives};
ghost use Rattle.ic_base.specs.Reader.{many_at};

use crate::read_error::ReadError;
use crate::room::room_claimed;
use std::alloc::Global;

/// A value that is in the lists of a binary format. `context` is what its reading depends on,
/// `()` where it depends on nothing.
pub trait Item<C>: Drop {
    /// What reads a value in the context.
    ghost reading: { C → List ℕ → Option (Self × List ℕ) };

    /// Reads a value from the front of the bytes, and gives the bytes after it. `Refused`: no front
    /// spells a value.
    fn read<'a>(alloc: Global, context: &C, bytes: &'a [u8]) -> Result<(Self, &'a [u8]), ReadError>
        ensures { Gives (λ x. (x.0, x.1.now)) result (reading context.now bytes.now) };
}

/// Reads `count` values, one after the other, and gives the bytes after them. Memory is taken as
/// values are read, whatever `count` claims; the caller bounds `count` where a value may take no
/// byte. `Refused`: fewer values are there.
pub fn many<'a, C, T: Item<C>>(
    alloc: Global,
    context: &C,
    count: u128,
    bytes: &'a [u8],
) -> Result<(Vec<T>, &'a [u8]), ReadError>
    ensures { Gives (λ x. (x.0.items, x.1.now)) result (many_at (T.reading context.now) count bytes.now) }
{
    let mut items = Vec::with_capacity(alloc, room_claimed(count, bytes))?;
    let mut rest = bytes;
    for _ in 0..count {
        let (item, after) = T::read(alloc, context, rest)?;
        items.push(item)?;
        rest = after;
    }
    Ok((items, rest))
}
