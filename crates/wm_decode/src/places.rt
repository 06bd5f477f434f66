//! Where a word of a body is in the module's bytes, and what a function is named there.
ghost use Rattle.ic_base.specs.Gives.{Gives};
ghost use Rattle.wm_decode.specs.Listing.{skipped, function_at, body_at, words_after, offset_in, first_at, naming_at, name_if, name_at_index};
ghost use Rattle.wm_decode.specs.Readers.{vec_bytes_at};

use crate::profile::Profile;
use crate::values::{list, number, text, vec_bytes};
use crate::words::word;
use ic_base::ReadError;
use std::alloc::Global;
use wm_tree::{Listing, Run};

/// Validated bodies have no floats.
const PROFILE: Profile = Profile { float: false };

/// The bytes after `count` codes. A code is written as a vector of bytes is, so they are skipped unread.
fn skip_codes(codes: &[u8], count: usize) -> Result<&[u8], ReadError>
    ensures { Gives (λ rest. rest.now) result (skipped vec_bytes_at count codes.now) }
{
    let mut rest = codes;
    for _ in 0..count {
        let (_code, after) = vec_bytes(rest)?;
        rest = after;
    }
    Ok(rest)
}

/// The code of the function of that number, with what is after it.
fn function_in(code: &[u8], function: usize) -> Result<&[u8], ReadError>
    ensures { Gives (λ rest. rest.now) result (function_at function code.now) }
{
    let (_count, codes) = number(code)?;
    skip_codes(codes, function)
}

/// The bytes of a code after its size and its locals.
fn body_in(alloc: Global, code: &[u8]) -> Result<&[u8], ReadError>
    ensures { Gives (λ rest. rest.now) result (body_at code.now) }
{
    let (_size, rest) = number(code)?;
    let (_locals, rest): (Vec<Run>, &[u8]) = list(alloc, &PROFILE, rest)?;
    Ok(rest)
}

/// The bytes after that number of words.
fn skip_words(alloc: Global, body: &[u8], words: usize) -> Result<&[u8], ReadError>
    ensures { Gives (λ rest. rest.now) result (words_after words body.now) }
{
    let mut rest = body;
    for _ in 0..words {
        let (_word, after) = word(alloc, PROFILE, rest)?;
        rest = after;
    }
    Ok(rest)
}

/// Where a word of a body is in the module's bytes: its offset there, as disassemblers print it. The function is told by its
/// number among those that the module defines. Time grows with the number of functions before it, and with the
/// words of its body before the word.
pub fn offset_of(
    alloc: Global,
    listing: &Listing,
    function: usize,
    place: usize,
) -> Result<usize, ReadError>
    ensures { Gives (λ offset. offset) result (offset_in function place listing.now) }
{
    let code = listing.code.items.as_slice();
    let function = function_in(code, function)?;
    let body = body_in(alloc, function)?;
    let rest = skip_words(alloc, body, place)?;
    Ok(listing.at as usize + code.len().saturating_sub(rest.len()))
}

/// Reads the index of a function, and its name.
#[tactic(auto, unfolding(crate::specs::Listing::naming_at))]
fn naming(bytes: &[u8]) -> Result<(u32, &str, &[u8]), ReadError>
    ensures { Gives (λ x. ((x.0, x.1.now), x.2.now)) result (naming_at bytes.now) }
{
    let (index, rest) = number(bytes)?;
    let (name, rest) = text(rest)?;
    Ok((index, name, rest))
}

/// The name of that function, among `count` of them.
fn find_name(names: &[u8], count: u32, function: u64) -> Result<&str, ReadError>
    ensures { Gives (λ name. name.now) result (first_at naming_at (name_if function) count names.now) }
{
    let mut rest = names;
    for _ in 0..count {
        let (index, name, after) = naming(rest)?;
        if u64::from(index) == function && !name.is_empty() {
            return Ok(name);
        }
        rest = after;
    }
    Err(ReadError::Refused)
}

/// The name that the name section gives to the function of that index: the first one there that is not empty. Where the
/// section is faulty, what is before the fault counts.
pub fn name_in(listing: &Listing, function: u64) -> Result<&str, ReadError>
    ensures { Gives (λ name. name.now) result (name_at_index function listing.now.names) }
{
    let (count, names) = number(listing.names.items.as_slice())?;
    find_name(names, count, function)
}
