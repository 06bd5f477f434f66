ghost use Rattle.std.specs.Prelude.{◌≡◌, IfOk, option_map};
ghost use Rattle.std.specs.Result.{result_ok};
ghost use Rattle.cd_tokens.specs.View.{token_views};
ghost use Rattle.cd_codec.specs.Answers.{contents};
ghost use Rattle.cd_coerce.specs.Decoded.{decoded};
ghost use Rattle.ct_outcomes.specs.Answers.{Finds};
ghost use Rattle.ct_outcomes.specs.Arguments.{IsMessageOf, in_parentheses};
ghost use Rattle.ct_outcomes.specs.Meets.{Reads};
ghost use Rattle.ct_outcomes.specs.Types.{types_at};

use crate::at::At;
use cd_codec::{Expected, Values, encode};
use cd_coerce::laws::one_answer;
use cd_coerce::{DidlFault, decode};
use cd_text::{TextFault, read_tokens};
use cd_tokens::Token;
use ic_base::NoMemory;
use ic_principal::Bytes;
use std::alloc::{AllocError, Global};

// The tokens between parentheses.
fn in_parentheses<'a>(alloc: Global, tokens: &[Token<'a>]) -> Result<Vec<Token<'a>>, NoMemory>
    ensures { IfOk result (λ whole. token_views whole.items ≡ in_parentheses (token_views tokens.now)) }
{
    let mut whole = Vec::new(alloc);
    whole.push(Token::Mark(b'('))?;
    for token in tokens {
        whole.push(token.copy())?;
    }
    whole.push(Token::Mark(b')'))?;
    Ok(whole)
}

/// The message that tokens say at types, if they say values of these.
pub(crate) fn message_of(
    alloc: Global,
    at: At<'_>,
    tokens: &[Token<'_>],
) -> Result<Option<Bytes>, NoMemory>
    ensures { Finds (λ bytes. bytes) (IsMessageOf (types_at at.entry) (token_views tokens.now)) result }
{
    let Some(part) = at.needed(alloc)? else {
        return Ok(None);
    };
    let whole = in_parentheses(alloc, tokens)?;
    match read_tokens(alloc, &part, &whole) {
        Ok(values) => Ok(Some(encode(alloc, part.table(), part.types(), &values.items)?)),
        Err(TextFault::NotText) => Ok(None),
        Err(TextFault::NoMemory) => Err(AllocError),
    }
}

// The values that bytes decode to, if they do.
fn decoded_of(alloc: Global, expected: &Expected, bytes: &[u8]) -> Result<Option<Values>, NoMemory>
    ensures { IfOk result (λ found. option_map contents found ≡ result_ok (decoded expected.now bytes.now)) }
{
    match decode(alloc, expected, bytes) {
        Ok(values) => Ok(Some(values)),
        Err(DidlFault::NoMemory) => Err(AllocError),
        Err(DidlFault::NotHeader) => Ok(None),
        Err(DidlFault::Float) => Ok(None),
        Err(DidlFault::NotSubtype { .. }) => Ok(None),
        Err(DidlFault::BadValue) => Ok(None),
    }
}

/// The values of a reply, if its bytes can be read at the types.
pub(crate) fn values_of(
    alloc: Global,
    at: At<'_>,
    bytes: &Bytes,
) -> Result<Option<Values>, NoMemory>
    ensures { Finds contents (Reads (types_at at.entry) bytes.now) result }
{
    one_answer();
    let Some(part) = at.needed(alloc)? else {
        return Ok(None);
    };
    decoded_of(alloc, &part, &bytes.items)
}
