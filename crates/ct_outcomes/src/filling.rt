ghost use Rattle.std.specs.Prelude.{◌≡◌, List, ℕ, Some, None, IfOk, IfSome, map, option_map};
ghost use Rattle.cd_tokens.specs.Placed.{placed_views};
ghost use Rattle.cd_tokens.specs.View.{token_views};
ghost use Rattle.ct_outcomes.specs.Answers.{Finds, written_in, written_at};
ghost use Rattle.ct_outcomes.specs.Arguments.{IsArgument};
ghost use Rattle.ct_outcomes.specs.Standings.{AreReadAt, IsFilledIn, IsReadAt, IsReadFor, service_tokens};
ghost use Rattle.ct_outcomes.specs.Types.{types_at};

use crate::at::At;
use crate::message::message_of;
use crate::named::{Named, standing_at};
use crate::standing::Standing;
use cd_tokens::{Piece, PlacedToken, Token, tokens_of};
use ct_check::Filled;
use ct_names::{Meaning, exchange};
use ic_base::{NoMemory, ReadError};
use ic_principal::{Bytes, Text};
use std::alloc::{AllocError, Global};

/// How many tokens are read in place of the names of one statement: more count as out of memory.
const MAX_TOKENS: usize = 16_777_216;

// The text of the principal or the service in a slot.
fn written_at(alloc: Global, names: &[Named], slot: usize) -> Result<Text, NoMemory>
    ensures { IfOk result (λ text. text ≡ written_at names.now slot) }
{
    match standing_at(names, slot) {
        Some(Standing::Principal(id)) => id.to_text(alloc),
        Some(Standing::Service(id)) => id.to_text(alloc),
        Some(Standing::Value(_)) | None => Ok(Text {
            items: String::new(alloc),
        }),
    }
}

/// The texts of the principals and services in slots: what is read in place of names is lent from
/// these and from `names`.
pub(crate) fn texts_of(
    alloc: Global,
    slots: &[usize],
    names: &[Named],
) -> Result<Vec<Text>, NoMemory>
    ensures { IfOk result (λ texts. texts.items ≡ map (written_at names.now) slots.now) }
{
    let mut texts = Vec::with_capacity(alloc, slots.len())?;
    for slot in slots {
        texts.push(written_at(alloc, names, *slot)?)?;
    }
    Ok(texts)
}

fn service_of<'t>(alloc: Global, text: &'t [u8]) -> Result<Meaning<'t>, NoMemory>
    ensures { IfOk result (λ meaning. meaning ≡ service_tokens text.now) }
{
    let mut items = Vec::with_capacity(alloc, 2)?;
    items.push(Token::Run(Piece { bytes: b"service" }))?;
    items.push(Token::Quoted(Piece { bytes: text }))?;
    Ok(Meaning { items })
}

// What is read in place of a name, whose principal or service has this text.
fn meaning_of<'t>(
    alloc: Global,
    standing: &'t Standing,
    text: &'t Text,
) -> Result<Option<Meaning<'t>>, NoMemory>
    requires { text.now ≡ written_in (Some standing.now) }
    ensures { Finds (λ meaning. meaning) (IsReadFor standing.now) result }
{
    match standing {
        Standing::Principal(_) => Ok(Some(Meaning::of_principal(alloc, text.items.as_bytes())?)),
        Standing::Service(_) => Ok(Some(service_of(alloc, text.items.as_bytes())?)),
        Standing::Value(bytes) => match tokens_of(alloc, false, &bytes.items) {
            Ok(items) => Ok(Some(Meaning { items })),
            Err(ReadError::Refused) => Ok(None),
            Err(ReadError::NoMemory) => Err(AllocError),
        },
    }
}

// The same of the name in a slot.
fn meaning_at<'t>(
    alloc: Global,
    names: &'t [Named],
    slot: usize,
    text: &'t Text,
) -> Result<Option<Meaning<'t>>, NoMemory>
    requires { text.now ≡ written_at names.now slot }
    ensures { Finds (λ meaning. meaning) (IsReadAt names.now slot) result }
{
    match standing_at(names, slot) {
        None => Ok(None),
        Some(standing) => meaning_of(alloc, standing, text),
    }
}

// How many tokens may still be read.
fn spend(left: usize, meaning: &Meaning<'_>) -> Option<usize> {
    left.checked_sub(meaning.items.len())
}

// What is read in place of the names in slots.
fn meanings_of<'t>(
    alloc: Global,
    slots: &[usize],
    names: &'t [Named],
    texts: &'t [Text],
) -> Result<Option<Vec<Meaning<'t>>>, NoMemory>
    requires { texts.now ≡ map (written_at names.now) slots.now }
    ensures { Finds (λ meanings. meanings.items) (AreReadAt names.now slots.now) result }
{
    let mut meanings = Vec::with_capacity(alloc, slots.len())?;
    let mut left = MAX_TOKENS;
    for (index, slot) in slots.iter().enumerate() {
        match meaning_at(alloc, names, *slot, &texts[index])? {
            None => return Ok(None),
            Some(meaning) => {
                left = spend(left, &meaning).ok_or(AllocError)?;
                meanings.push(meaning)?;
            }
        }
    }
    Ok(Some(meanings))
}

// Tokens without their places.
fn without_places<'a>(alloc: Global, placed: &[PlacedToken<'a>]) -> Result<Vec<Token<'a>>, NoMemory>
    ensures { IfOk result (λ tokens. token_views tokens.items ≡ placed_views placed.now) }
{
    let mut tokens = Vec::with_capacity(alloc, placed.len())?;
    for one in placed {
        tokens.push(one.token.copy())?;
    }
    Ok(tokens)
}

/// The tokens that are filled in, with what the names stand for in their place, if each slot has a
/// name that stands for tokens. More than 16,777,216 in place of names count as out of memory.
pub(crate) fn filled_in<'t>(
    alloc: Global,
    filled: &'t Filled<'_, 't>,
    names: &'t [Named],
    texts: &'t [Text],
) -> Result<Option<Vec<Token<'t>>>, NoMemory>
    requires { texts.now ≡ map (written_at names.now) filled.now.names }
    ensures { Finds (λ tokens. token_views tokens.items) (IsFilledIn names.now filled.now) result }
{
    match meanings_of(alloc, &filled.names, names, texts)? {
        None => Ok(None),
        Some(meanings) => {
            let arguments = filled.arguments;
            let placed = exchange(alloc, &arguments.items, &meanings)?;
            Ok(Some(without_places(alloc, &placed)?))
        }
    }
}

// The argument that is filled in.
fn filled_argument(
    alloc: Global,
    at: At<'_>,
    filled: &Filled<'_, '_>,
    names: &[Named],
) -> Result<Option<Bytes>, NoMemory>
    ensures { Finds (λ arg. arg) (IsArgument (types_at at.entry) names.now (Some filled.now)) result }
{
    let texts = texts_of(alloc, &filled.names, names)?;
    match filled_in(alloc, filled, names, &texts)? {
        None => Ok(None),
        Some(tokens) => message_of(alloc, at, &tokens),
    }
}

/// The argument of a message: what is filled in, where it says values of the types with what the
/// names stand for in their place. Without `filled` the arguments of an installation are left out. More than
/// 16,777,216 tokens in place of names count as out of memory.
pub fn argument_of(
    alloc: Global,
    at: At<'_>,
    filled: Option<&Filled<'_, '_>>,
    names: &[Named],
) -> Result<Option<Bytes>, NoMemory>
    // What is answered is the argument.
    ensures found { IfOk result (λ found. IfSome found (IsArgument (types_at at.entry) names.now (option_map (λ f. f.now) filled.entry))) }
    // Where nothing is, there is none: what is filled in says no values of the types.
    ensures only { IfOk result (λ found. found ≡ None → (arg : List ℕ) → IsArgument (types_at at.entry) names.now (option_map (λ f. f.now) filled.entry) arg → ⊥) }
{
    match filled {
        None => message_of(alloc, at, &[]),
        Some(filled) => filled_argument(alloc, at, filled, names),
    }
}
