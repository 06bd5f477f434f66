ghost use Rattle.std.specs.Prelude.{◌≡◌, ◌≤◌, ◌↔◌, List, None, IfOk, IfSome, length, true};
ghost use Rattle.std.specs.List.{prefix_len};
ghost use Rattle.std.specs.Str.{is_utf8};
ghost use Rattle.cd_tokens.specs.Placed.{placed_view, placed_views, is_within, are_within};
ghost use Rattle.cd_tokens.specs.Token as token;
ghost use Rattle.cd_tokens.specs.View.{token_view};
ghost use Rattle.ct_file.specs.Fits.{AreTokens, is_proper};

use crate::cause::{Cause, Fault};
use cd_tokens::{
    PlacedToken, PlacedTokens, Token, is_name, placed_tokens_of, says_bytes, says_integer,
};
use ic_base::NoMemory;
use std::alloc::Global;

/// The tokens of a text, as far as they are those of a test file, and the fault after them.
#[derive(Drop)]
pub(crate) struct FileTokens<'a> {
    pub(crate) items: Vec<PlacedToken<'a>>,
    pub(crate) fault: Option<Fault>,
}

// The place of the first byte that begins no character.
fn invalid_at(text: &[u8]) -> Option<usize>
    ensures value { (result ≡ None) ↔ (is_utf8 text.now ≡ true) }
    ensures bound { IfSome result (λ place. place ≤ length text.now) }
{
    match str::from_utf8(text) {
        Ok(_) => None,
        Err(error) => Some(error.valid_up_to()),
    }
}

fn is_proper(token: &Token<'_>) -> bool
    ensures { result ≡ is_proper (token_view token.now) }
{
    match token {
        Token::Run(run) => is_name(run.bytes) || says_integer(run.bytes),
        Token::Quoted(string) => says_bytes(string.bytes),
        Token::Mark(_) => true,
        Token::Arrow => false,
    }
}

// Whether the token ends before the place.
fn ends_before(placed: &PlacedToken<'_>, place: usize) -> bool {
    match &placed.token {
        Token::Quoted(string) => {
            placed
                .place
                .saturating_add(string.bytes.len())
                .saturating_add(1)
                < place
        }
        Token::Run(_) | Token::Mark(_) | Token::Arrow => placed.place < place,
    }
}

// Whether the token is one of test files, and all before its end is UTF-8.
fn is_whole(placed: &PlacedToken<'_>, invalid: Option<usize>) -> bool
    ensures { invalid ≡ None → result ≡ is_proper (placed_view placed.now) }
{
    match invalid {
        None => is_proper(&placed.token),
        Some(place) => is_proper(&placed.token) && ends_before(placed, place),
    }
}

// How many tokens are whole, from the first on.
fn whole_len(tokens: &[PlacedToken<'_>], invalid: Option<usize>) -> usize
    ensures bound { result ≤ length tokens.now }
    ensures all { invalid ≡ None → result ≡ prefix_len is_proper (placed_views tokens.now) }
{
    let mut len = 0;
    for placed in tokens {
        if !is_whole(placed, invalid) {
            return len;
        }
        len += 1;
    }
    len
}

// The fault of a token that is not whole.
fn token_fault(text: &[u8], placed: &PlacedToken<'_>, invalid: Option<usize>) -> Fault
    requires within { is_within text.now placed.now ≡ true }
    requires invalid { IfSome invalid (λ place. place ≤ length text.now) }
    ensures { result.place ≤ length text.now }
{
    let proper = is_proper(&placed.token);
    match invalid {
        Some(place) if proper || place < placed.place => Fault {
            place,
            cause: Cause::NotUtf8,
        },
        _ => Fault {
            place: placed.place,
            cause: match &placed.token {
                Token::Quoted(_) => Cause::BadString,
                Token::Run(_) | Token::Mark(_) | Token::Arrow => Cause::NotAToken,
            },
        },
    }
}

// Why no token can be read where these bytes are.
fn stop_cause(rest: &[u8]) -> Cause {
    match rest {
        [b'"', ..] => Cause::BadString,
        [b'/', b'*', ..] => Cause::OpenComment,
        _ => Cause::NotAToken,
    }
}

// The fault at the place where no token can be read.
fn stop_fault(text: &[u8], stop: usize, invalid: Option<usize>) -> Fault
    requires stop { stop ≤ length text.now }
    requires invalid { IfSome invalid (λ place. place ≤ length text.now) }
    ensures { result.place ≤ length text.now }
{
    let (_, rest) = text.split_at(stop);
    let cause = stop_cause(rest);
    match invalid {
        Some(place) if place <= stop || matches!(cause, Cause::OpenComment) => Fault {
            place,
            cause: Cause::NotUtf8,
        },
        _ => Fault { place: stop, cause },
    }
}

// The fault after the first `len` tokens, which are whole.
fn fault_after(
    text: &[u8],
    placed: &PlacedTokens<'_>,
    len: usize,
    invalid: Option<usize>,
) -> Option<Fault>
    requires within { are_within text.now placed.now.items.items ≡ true }
    requires stop { IfSome placed.now.stop (λ place. place ≤ length text.now) }
    requires invalid { IfSome invalid (λ place. place ≤ length text.now) }
    ensures none { (result ≡ None) ↔ ((length placed.now.items.items ≤ len) × (placed.now.stop ≡ None) × (invalid ≡ None)) }
    ensures bound { IfSome result (λ fault. fault.place ≤ length text.now) }
{
    if let Some(token) = placed.items.get(len) {
        return Some(token_fault(text, token, invalid));
    }
    if let Some(stop) = placed.stop {
        return Some(stop_fault(text, stop, invalid));
    }
    let cause = Cause::NotUtf8;
    Some(Fault {
        place: invalid?,
        cause,
    })
}

/// The tokens of a text, up to the first fault of them.
pub(crate) fn file_tokens_of<'a>(alloc: Global, text: &'a [u8]) -> Result<FileTokens<'a>, NoMemory>
    ensures found { IfOk result (λ tokens. tokens.fault ≡ None → AreTokens (placed_views tokens.items.items) text.now) }
    ensures only { IfOk result (λ found. (tokens : List token.Token) → AreTokens tokens text.now → found.fault ≡ None) }
    ensures places { IfOk result (λ tokens. are_within text.now tokens.items.items ≡ true) }
    ensures end { IfOk result (λ tokens. IfSome tokens.fault (λ fault. fault.place ≤ length text.now)) }
{
    let invalid = invalid_at(text);
    let mut placed = placed_tokens_of(alloc, true, text)?;
    let len = whole_len(&placed.items, invalid);
    let fault = fault_after(text, &placed, len, invalid);
    placed.items.truncate(len);
    Ok(FileTokens {
        items: placed.items,
        fault,
    })
}
