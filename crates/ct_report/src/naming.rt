use cd_tokens::{PlacedToken, Token, is_name, placed_tokens_of};
use ct_outcomes::{Named, name_of};
use ic_base::NoMemory;
use ic_principal::{Bytes, Principal};
use std::alloc::Global;

/// A part of a text, and the name that is written in its place.
#[derive(Clone, Copy)]
struct Swap<'n> {
    start: usize,
    end: usize,
    name: &'n [u8],
}

// The name of the principal that a string says, if it has one.
fn name_written<'n>(names: &'n [Named], written: &[u8]) -> Option<&'n [u8]> {
    match str::from_utf8(written) {
        Err(_) => None,
        Ok(text) => match Principal::from_text(text) {
            Err(_) => None,
            Ok(id) => name_of(names, &id),
        },
    }
}

// Where the part begins that a name is written for: `principal` goes, `service` and `func` stay.
fn start_of(word: &[u8], first: usize, second: usize) -> Option<usize> {
    if word == b"principal".as_slice() {
        Some(first)
    } else if word == b"service".as_slice() || word == b"func".as_slice() {
        Some(second)
    } else {
        None
    }
}

// Where a string ends that begins at a place.
fn end_of(place: usize, string: &[u8]) -> usize {
    place.saturating_add(string.len()).saturating_add(2)
}

// The name that is written in place of the first two tokens, or of the second, if they are of a principal that has one.
fn swap_at<'n>(names: &'n [Named], tokens: &[PlacedToken<'_>]) -> Option<Swap<'n>> {
    match tokens {
        [first, second, ..] => match (&first.token, &second.token) {
            (Token::Run(word), Token::Quoted(written)) => {
                let start = start_of(word.bytes, first.place, second.place)?;
                let name = name_written(names, written.bytes)?;
                let end = end_of(second.place, written.bytes);
                Some(Swap { start, end, name })
            }
            _ => None,
        },
        _ => None,
    }
}

// The word that is written in place of the string with the name of a method, if that is one: it comes third after the string of a
// principal, and that one has a name.
fn bare_method<'t>(names: &[Named], tokens: &[PlacedToken<'t>]) -> Option<Swap<'t>> {
    match tokens {
        [first, second, dot, method, ..] => {
            let start = method.place;
            match (&first.token, &second.token, &dot.token, &method.token) {
                (
                    Token::Run(word),
                    Token::Quoted(written),
                    Token::Mark(b'.'),
                    Token::Quoted(name),
                ) => {
                    start_of(word.bytes, first.place, second.place)?;
                    name_written(names, written.bytes)?;
                    let name = name.bytes;
                    let end = end_of(start, name);
                    if is_name(name) {
                        Some(Swap { start, end, name })
                    } else {
                        None
                    }
                }
                _ => None,
            }
        }
        _ => None,
    }
}

// Adds the part of a text between two places.
fn push_part(text: &[u8], start: usize, end: usize, out: &mut Vec<u8>) -> Result<(), NoMemory> {
    match text.get(start..end) {
        None => Ok(()),
        Some(part) => out.extend_from_slice(part),
    }
}

// Adds the text up to a part, and the name in place of that: what is added ends there.
fn push_swap(
    text: &[u8],
    copied: usize,
    swap: Option<Swap<'_>>,
    out: &mut Vec<u8>,
) -> Result<usize, NoMemory> {
    match swap {
        None => Ok(copied),
        Some(swap) => {
            push_part(text, copied, swap.start, out)?;
            out.extend_from_slice(swap.name)?;
            Ok(swap.end)
        }
    }
}

/// A printed text of values with names in place of the principals that have one.
pub(crate) fn with_names(alloc: Global, names: &[Named], text: &[u8]) -> Result<Bytes, NoMemory> {
    let placed = placed_tokens_of(alloc, false, text)?;
    let mut items = Vec::with_capacity(alloc, text.len())?;
    let mut copied = 0;
    for index in 0..placed.items.len() {
        let tokens = &placed.items[index..];
        copied = push_swap(text, copied, swap_at(names, tokens), &mut items)?;
        copied = push_swap(text, copied, bare_method(names, tokens), &mut items)?;
    }
    push_part(text, copied, text.len(), &mut items)?;
    Ok(Bytes { items })
}
