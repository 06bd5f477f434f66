ghost use Rattle.std.specs.Prelude.{◌≡◌, ◌==◌, ◌&&◌, ◌<◌, ◌^◌, List, IfOk, length};
ghost use Rattle.std.specs.Str.{is_utf8};
ghost use Rattle.ic_base.specs.Gives.{Gives};
ghost use Rattle.cd_codec.specs.AreValues.{HasTypes};
ghost use Rattle.cd_codec.specs.Answers.{contents};
ghost use Rattle.cd_codec.specs.Content.{Content};
ghost use Rattle.cd_codec.specs.View.{view, views};
ghost use Rattle.cd_tokens.specs.Lexed.{Agrees};
ghost use Rattle.cd_tokens.specs.View.{token_view, token_views};
ghost use Rattle.cd_text.specs.ReadSaid.{after_field, argument_at, arguments_at, parts_at};
ghost use Rattle.cd_text.specs.Placed.{placed};
ghost use Rattle.cd_text.specs.ReadsText.{ReadsText};
ghost use Rattle.cd_text.specs.Room.{size, room};
ghost use Rattle.cd_text.specs.Whole.{Said, SaysArguments};

use crate::fault::TextFault;
use crate::reading::{Level, annotated_of};
use cd_codec::{Expected, Value, Values};
use cd_tokens::{Token, rest_of, starts_mark, tokens_of};
use cd_types::{TyRef, TypeTable};
use ic_base::ReadError;
use std::alloc::Global;

/// How deep values may nest, parentheses counted.
pub(crate) const MAX_NESTING: u32 = 128;

/// How many values a text may say, with those that stand for missing fields.
pub(crate) const MAX_VALUES: u32 = 1_000_000;

// An argument, at the type of its place.
fn argument_of<'t, 'a>(
    alloc: Global,
    table: &TypeTable,
    types: &[TyRef],
    place: usize,
    left: u32,
    tokens: &'t [Token<'a>],
) -> Result<(Value, u32, &'t [Token<'a>]), ReadError>
    ensures { Gives (λ x. ((place, view x.0), x.1, token_views x.2.now)) result (argument_at table.now types.now place left (token_views tokens.now)) }
{
    match types.get(place) {
        None => Err(ReadError::Refused),
        Some(ty) => {
            let level = Level {
                table,
                depth: MAX_NESTING,
            };
            annotated_of(alloc, level, *ty, left, tokens)
        }
    }
}

// The arguments after the opening parenthesis.
fn arguments_of<'t, 'a>(
    alloc: Global,
    table: &TypeTable,
    types: &[TyRef],
    most: usize,
    tokens: &'t [Token<'a>],
) -> Result<(Vec<Value>, u32, &'t [Token<'a>]), ReadError>
    ensures { Gives (λ x. (placed 0 (views x.0.items), x.1, token_views x.2.now)) result (parts_at 44 41 (argument_at table.now types.now) after_field most 0 1000000 (token_views tokens.now)) }
{
    let mut values = Vec::new(alloc);
    let mut unread = MAX_VALUES;
    let mut rest = tokens;
    for _ in 0..most {
        if starts_mark(rest, b')') {
            return Ok((values, unread, rest_of(rest)));
        }
        let (value, left, after) = argument_of(alloc, table, types, values.len(), unread, rest)?;
        values.push(value)?;
        if starts_mark(after, b')') {
            return Ok((values, left, rest_of(after)));
        }
        if !starts_mark(after, b',') {
            return Err(ReadError::Refused);
        }
        unread = left;
        rest = rest_of(after);
    }
    Err(ReadError::Refused)
}

// Whether there is a value for each type, and nothing after them.
fn is_all(values: usize, types: usize, rest: &[Token<'_>]) -> bool
    ensures { result ≡ (length rest.now == 0 && values == types) }
{
    rest.is_empty() && values == types
}

pub(crate) fn is_utf8(text: &[u8]) -> bool
    ensures { result ≡ is_utf8 text.now }
{
    match str::from_utf8(text) {
        Ok(_) => true,
        Err(_) => false,
    }
}

// The values that the tokens of a text say.
fn values_of(
    alloc: Global,
    table: &TypeTable,
    types: &[TyRef],
    tokens: &[Token<'_>],
) -> Result<Vec<Value>, ReadError>
    ensures { Gives (λ values. views values.items) result (arguments_at table.now types.now (token_views tokens.now)) }
{
    if !starts_mark(tokens, b'(') {
        return Err(ReadError::Refused);
    }
    let inner = rest_of(tokens);
    let (values, _, rest) = arguments_of(alloc, table, types, tokens.len(), inner)?;
    if is_all(values.len(), types.len(), rest) {
        Ok(values)
    } else {
        Err(ReadError::Refused)
    }
}

// The values that a text says.
fn said_by(
    alloc: Global,
    table: &TypeTable,
    types: &[TyRef],
    text: &[u8],
) -> Result<Vec<Value>, ReadError>
    ensures found { IfOk result (λ values. Said table.now types.now (views values.items) text.now) }
    ensures only { (values : List Content) → Said table.now types.now values text.now → Agrees (λ vs. views vs.items) result values }
    ensures typed { IfOk result (λ values. HasTypes table.now types.now (views values.items)) }
{
    let _entries = table.len();
    let _bytes = text.len();
    if !is_utf8(text) {
        return Err(ReadError::Refused);
    }
    let tokens = tokens_of(alloc, false, text)?;
    values_of(alloc, table, types, &tokens)
}

/// The values that a text says at the expected types, one for each (Candid specification, "Core
/// Grammar"): within nesting 128, with parentheses counted, and 1,000,000 values, with those that
/// stand for missing fields. Time grows with the text and with what is left out.
pub fn read(alloc: Global, expected: &Expected, text: &[u8]) -> Result<Values, TextFault>
    // What is read is said by the text.
    ensures found { IfOk result (λ values. Said expected.now.0 expected.now.1 (contents values) text.now) }
    // What the text says is read, unless memory runs out; so with a `NotText` it says no values.
    ensures only { (values : List Content) → Said expected.now.0 expected.now.1 values text.now → ReadsText result values }
    // What is read has the expected types.
    ensures typed { IfOk result (λ values. HasTypes expected.now.0 expected.now.1 (contents values)) }
{
    match said_by(alloc, expected.table(), expected.types(), text) {
        Ok(items) => Ok(Values { items }),
        Err(ReadError::Refused) => Err(TextFault::NotText),
        Err(ReadError::NoMemory) => Err(TextFault::NoMemory),
    }
}

// What the type of a token says: its bytes are in memory.
fn fits_memory(token: &Token<'_>)
    ensures { size (token_view token.now) < 2 ^ 63 }
{
    match token {
        Token::Run(piece) | Token::Quoted(piece) => {
            let _bytes = piece.bytes.len();
        }
        Token::Mark(_) | Token::Arrow => {}
    }
}

// So what tokens say can be spelled.
fn fit_memory(tokens: &[Token<'_>])
    ensures { room (token_views tokens.now) < 2 ^ 128 }
{
    let _tokens = tokens.len();
    for token in tokens {
        fits_memory(token);
    }
}

// The values that tokens say, and what holds of them.
fn said_by_tokens(
    alloc: Global,
    table: &TypeTable,
    types: &[TyRef],
    tokens: &[Token<'_>],
) -> Result<Vec<Value>, ReadError>
    ensures found { IfOk result (λ values. SaysArguments table.now types.now (views values.items) (token_views tokens.now)) }
    ensures only { (values : List Content) → SaysArguments table.now types.now values (token_views tokens.now) → Agrees (λ vs. views vs.items) result values }
    ensures typed { IfOk result (λ values. HasTypes table.now types.now (views values.items)) }
{
    let _entries = table.len();
    fit_memory(tokens);
    values_of(alloc, table, types, tokens)
}

/// The values that tokens say at the expected types, with parentheses around them, as `read` reads
/// those of a text.
pub fn read_tokens(
    alloc: Global,
    expected: &Expected,
    tokens: &[Token<'_>],
) -> Result<Values, TextFault>
    // What is read is said by the tokens.
    ensures found { IfOk result (λ values. SaysArguments expected.now.0 expected.now.1 (contents values) (token_views tokens.now)) }
    // What the tokens say is read, unless memory runs out; so with a `NotText` they say no values.
    ensures only { (values : List Content) → SaysArguments expected.now.0 expected.now.1 values (token_views tokens.now) → ReadsText result values }
    // What is read has the expected types.
    ensures typed { IfOk result (λ values. HasTypes expected.now.0 expected.now.1 (contents values)) }
{
    match said_by_tokens(alloc, expected.table(), expected.types(), tokens) {
        Ok(items) => Ok(Values { items }),
        Err(ReadError::Refused) => Err(TextFault::NotText),
        Err(ReadError::NoMemory) => Err(TextFault::NoMemory),
    }
}
