ghost use Rattle.std.specs.Prelude.{◌≡◌, ◌≤◌, List, None, IfOk, IfSome, length};
ghost use Rattle.cd_codec.specs.Content.{Content};
ghost use Rattle.cd_text.specs.Whole.{Said};

use crate::fault::TextFault;
use crate::walk::tokens_passed;
use crate::whole::read;
use cd_codec::Expected;
use cd_tokens::{placed_tokens_of, tokens_of};
use ic_base::{NoMemory, ReadError};
use std::alloc::{AllocError, Global};

// Where the walk over a text ends: at a token, where none can be read, or at the text's end.
fn end_of_walk(alloc: Global, expected: &Expected, text: &[u8]) -> Result<usize, NoMemory> {
    let placed = placed_tokens_of(alloc, false, text)?;
    let end = placed.stop.unwrap_or(text.len());
    let (front, _) = text.split_at(end);
    match tokens_of(alloc, false, front) {
        Ok(tokens) => {
            let passed = tokens_passed(alloc, expected, &tokens)?;
            match placed.items.get(passed) {
                Some(token) => Ok(token.place),
                None => Ok(end),
            }
        }
        Err(ReadError::Refused) => Ok(end),
        Err(ReadError::NoMemory) => Err(AllocError),
    }
}

/// Where a text that `read` refuses is wrong, as the offset of a byte: of the token with which no text
/// of the expected types goes on, of the first that is no token, or the text's length where it ends too
/// early. A value that is nested too deep, or one too many, is so at its first token, and a missing
/// field at the `}`. The place is advice.
pub fn fault_place(
    alloc: Global,
    expected: &Expected,
    text: &[u8],
) -> Result<Option<usize>, NoMemory>
    // There is none exactly where the text says values.
    ensures said { (values : List Content) → Said expected.now.0 expected.now.1 values text.now → IfOk result (λ place. place ≡ None) }
    ensures only { IfOk result (λ place. place ≡ None → (values : List Content) × Said expected.now.0 expected.now.1 values text.now) }
    ensures within { IfOk result (λ place. IfSome place (λ p. p ≤ length text.now)) }
{
    match read(alloc, expected, text) {
        Ok(_) => Ok(None),
        Err(TextFault::NoMemory) => Err(AllocError),
        Err(TextFault::NotText) => match end_of_walk(alloc, expected, text) {
            Ok(place) => Ok(Some(place.min(text.len()))),
            Err(e) => Err(e),
        },
    }
}
