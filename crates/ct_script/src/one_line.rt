use cd_tokens::{Token, placed_tokens_of};
use ct_file::Span;
use ic_base::NoMemory;
use ic_principal::Bytes;
use std::alloc::Global;

/// How many characters of a statement a comment has.
const SHOWN: usize = 200;

// How many bytes a token has in its text.
fn written_len(token: &Token<'_>) -> usize {
    match token {
        Token::Run(run) => run.bytes.len(),
        Token::Quoted(string) => string.bytes.len() + 2,
        Token::Mark(_) => 1,
        Token::Arrow => 2,
    }
}

// Adds a token as it is written.
fn push_token(token: &Token<'_>, out: &mut Vec<u8>) -> Result<(), NoMemory> {
    match token {
        Token::Run(run) => out.extend_from_slice(run.bytes),
        Token::Quoted(string) => {
            out.push(b'"')?;
            out.extend_from_slice(string.bytes)?;
            out.extend_from_slice(b"\"")
        }
        Token::Mark(mark) => out.extend_from_slice(&[*mark]),
        Token::Arrow => out.extend_from_slice(b"->"),
    }
}

// The part of a text within a span.
fn part_of(text: &[u8], span: Span) -> &[u8] {
    match text.get(span.start..span.end) {
        Some(part) => part,
        None => &[],
    }
}

/// The part of a test file within a span, in one line: its tokens as they are written, and one blank
/// where anything is between two. Time grows with the part.
pub fn written(alloc: Global, text: &[u8], span: Span) -> Result<Bytes, NoMemory> {
    let placed = placed_tokens_of(alloc, true, part_of(text, span))?;
    let mut items = Vec::new(alloc);
    let mut end = 0;
    for one in &placed.items {
        if end > 0 && end < one.place {
            items.push(b' ')?;
        }
        push_token(&one.token, &mut items)?;
        end = one.place.saturating_add(written_len(&one.token));
    }
    Ok(Bytes { items })
}

// The front of a text, of at most this many characters.
fn front_of(text: &[u8], most: usize) -> &[u8] {
    let mut left = most;
    for (place, byte) in text.iter().enumerate() {
        if *byte & 0xC0 != 0x80 {
            if left == 0 {
                return text.get(..place).unwrap_or(text);
            }
            left -= 1;
        }
    }
    text
}

/// A statement of a test file as comments have it: in one line, and cut after 200 characters.
pub fn shown(alloc: Global, text: &[u8], span: Span) -> Result<Bytes, NoMemory> {
    let statement = written(alloc, text, span)?;
    Ok(Bytes {
        items: Vec::from_slice(alloc, front_of(&statement.items, SHOWN))?,
    })
}
