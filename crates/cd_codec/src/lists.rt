ghost use Rattle.std.specs.Prelude.{ℕ};
ghost use Rattle.ic_base.specs.Gives.{Gives};
ghost use Rattle.ic_base.specs.Reader.{vec_at};
ghost use Rattle.ic_leb.specs.declared.width.Width.TheVariants.{Candid};
ghost use Rattle.ic_leb.specs.Reading.{unsigned_reader};
ghost use Rattle.cd_codec.specs.ReadHeader.{few_at};

use crate::plain::unsigned_of;
use ic_base::{Item, ReadError, many};
use std::alloc::Global;

/// Whether numbers of floats are admitted where a type is named.
#[derive(Clone, Copy)]
pub struct Floats {
    pub admitted: bool,
}

/// How many entries a table, and how many arguments a message may have.
const MAX_LISTED: u128 = 10_000;

/// A list of any length. Memory is taken as the values are read, whatever the count claims.
pub(crate) fn list_of<'a, T: Item<Floats>>(
    alloc: Global,
    floats: &Floats,
    bytes: &'a [u8],
) -> Result<(Vec<T>, &'a [u8]), ReadError>
    ensures { Gives (λ x. (x.0.items, x.1.now)) result (vec_at (unsigned_reader Candid) (T.reading floats.now) bytes.now) }
{
    let (count, rest) = unsigned_of(bytes)?;
    many(alloc, floats, count, rest)
}

/// A list of at most 10,000 values.
#[tactic(auto, unfolding(crate::specs::ReadHeader::few_at))]
pub(crate) fn short_list_of<'a, T: Item<Floats>>(
    alloc: Global,
    floats: &Floats,
    bytes: &'a [u8],
) -> Result<(Vec<T>, &'a [u8]), ReadError>
    ensures { Gives (λ x. (x.0.items, x.1.now)) result (vec_at few_at (T.reading floats.now) bytes.now) }
{
    let (count, rest) = unsigned_of(bytes)?;
    if count > MAX_LISTED {
        return Err(ReadError::Refused);
    }
    many(alloc, floats, count, rest)
}
