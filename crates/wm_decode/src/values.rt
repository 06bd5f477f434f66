ghost use Rattle.std.specs.Prelude.{List, ℕ};
ghost use Rattle.ic_base.specs.Gives.{Gives};
ghost use Rattle.ic_base.specs.Reader.{byte_at};
ghost use Rattle.wm_decode.specs.Readers.{u32_at, list_at, vec_bytes_at, name_at};

use ic_base::{Item, ReadError, many};
use ic_leb::{Width, take_u};
use std::alloc::Global;
use std::str;
use wm_tree::Name;

/// Reads a byte.
pub(crate) fn byte(bytes: &[u8]) -> Result<(u8, &[u8]), ReadError>
    ensures { Gives (λ x. (x.0, x.1.now)) result (byte_at bytes.now) }
{
    match bytes {
        [first, rest @ ..] => Ok((*first, rest)),
        [] => Err(ReadError::Refused),
    }
}

/// Reads an unsigned number of 32 bits.
pub(crate) fn number(bytes: &[u8]) -> Result<(u32, &[u8]), ReadError>
    ensures { Gives (λ x. (x.0, x.1.now)) result (u32_at bytes.now) }
{
    let (n, rest) = take_u(bytes, Width::Wasm32)?;
    Ok((n as u32, rest))
}

/// Reads a vector of bytes.
#[tactic(auto, unfolding(crate::specs::Readers::vec_bytes_at))]
pub(crate) fn vec_bytes(bytes: &[u8]) -> Result<(&[u8], &[u8]), ReadError>
    ensures { Gives (λ x. (x.0.now, x.1.now)) result (vec_bytes_at bytes.now) }
{
    let (count, rest) = number(bytes)?;
    let count = count as usize;
    if rest.len() < count {
        return Err(ReadError::Refused);
    }
    let (items, rest) = rest.split_at(count);
    Ok((items, rest))
}

/// Reads a name without a copy of it.
#[tactic(auto, unfolding(crate::specs::Readers::name_at))]
pub(crate) fn text(bytes: &[u8]) -> Result<(&str, &[u8]), ReadError>
    ensures { Gives (λ x. (x.0.now, x.1.now)) result (name_at bytes.now) }
{
    let (items, rest) = vec_bytes(bytes)?;
    match str::from_utf8(items) {
        Ok(text) => Ok((text, rest)),
        Err(_) => Err(ReadError::Refused),
    }
}

/// Reads a name.
pub(crate) fn name(alloc: Global, bytes: &[u8]) -> Result<(Name, &[u8]), ReadError>
    ensures { Gives (λ x. (x.0, x.1.now)) result (name_at bytes.now) }
{
    let (text, rest) = text(bytes)?;
    let items = String::from_str(alloc, text)?;
    Ok((Name { items }, rest))
}

/// Reads a vector of items. Each item takes a byte at least, so no more memory is taken than the
/// bytes call for, whatever the count claims.
pub(crate) fn list<'a, C, T: Item<C>>(
    alloc: Global,
    context: &C,
    bytes: &'a [u8],
) -> Result<(Vec<T>, &'a [u8]), ReadError>
    ensures { Gives (λ x. (x.0.items, x.1.now)) result (list_at (T.reading context.now) bytes.now) }
{
    let (count, rest) = number(bytes)?;
    many(alloc, context, count as u128, rest)
}
