//! Names that Rust mangled in its legacy scheme (`rustc`'s `symbol_mangling::legacy`), as the paths that they were made of.

use ic_base::NoMemory;
use std::alloc::Global;

// The character of an escape, of what is between its two `$`.
fn escaped(name: &str) -> Option<char> {
    match name {
        "LT" => Some('<'),
        "GT" => Some('>'),
        "LP" => Some('('),
        "RP" => Some(')'),
        "RF" => Some('&'),
        "BP" => Some('*'),
        "SP" => Some('@'),
        "C" => Some(','),
        _ => match name.strip_prefix("u") {
            None => None,
            Some(digits) => match u32::from_str_radix(digits, 16) {
                Ok(code) => char::from_u32(code),
                Err(_) => None,
            },
        },
    }
}

// How many decimal digits a text begins with.
fn digits(text: &str) -> usize {
    for (place, byte) in text.as_bytes().iter().enumerate() {
        if !byte.is_ascii_digit() {
            return place;
        }
    }
    text.len()
}

// The first part of a path, which its length comes before, and what is after it.
fn first_part(path: &str) -> Option<(&str, &str)> {
    let (length, rest) = path.split_at_checked(digits(path))?;
    match length.parse::<usize>() {
        Ok(length) => rest.split_at_checked(length),
        Err(_) => None,
    }
}

// Whether a part is the hash that each path ends with: `h` and 16 hexadecimal digits.
fn is_hash(part: &str) -> bool {
    match part.strip_prefix("h") {
        Some(digits) => digits.len() == 16 && u64::from_str_radix(digits, 16).is_ok(),
        None => false,
    }
}

// Adds a text with `::` in place of each `..`.
fn push_dotted(text: &str, out: &mut String) -> Result<(), NoMemory> {
    for (number, piece) in text.split("..").enumerate() {
        if number > 0 {
            out.push_str("::")?;
        }
        out.push_str(piece)?;
    }
    Ok(())
}

// Adds a part. Every second piece between its `$` is an escape, and a `_` comes before one that it begins with.
fn push_part(part: &str, out: &mut String) -> Result<(), NoMemory> {
    let pieces = match part.strip_prefix("_$") {
        Some(_) => part.strip_prefix("_").unwrap_or(part),
        None => part,
    };
    for (number, piece) in pieces.split('$').enumerate() {
        match escaped(piece) {
            Some(character) if number % 2 == 1 => out.push(character)?,
            _ => push_dotted(piece, out)?,
        }
    }
    Ok(())
}

// The path of parts one after another, if a hash ends them, which is left out.
fn path_of_parts(alloc: Global, parts: &str) -> Result<Option<String>, NoMemory> {
    let mut out = String::new(alloc);
    let mut rest = parts;
    for _ in 0..parts.len() {
        let Some((part, after)) = first_part(rest) else {
            return Ok(None);
        };
        if after.is_empty() {
            return Ok(if is_hash(part) { Some(out) } else { None });
        }
        if !out.is_empty() {
            out.push_str("::")?;
        }
        push_part(part, &mut out)?;
        rest = after;
    }
    Ok(None)
}

/// The path that a name was mangled from, without its hash, as `votes::vote` of `_ZN5votes4vote17h0123456789abcdefE`.
pub(crate) fn path_of(alloc: Global, name: &[u8]) -> Result<Option<String>, NoMemory> {
    let text = str::from_utf8(name).unwrap_or("");
    match text.strip_prefix("_ZN") {
        None => Ok(None),
        Some(rest) => match rest.strip_suffix("E") {
            None => Ok(None),
            Some(parts) => path_of_parts(alloc, parts),
        },
    }
}
