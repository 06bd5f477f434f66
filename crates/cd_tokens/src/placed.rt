ghost use Rattle.std.specs.Prelude.{◌≡◌, ◌≤◌, List, None, IfOk, IfSome, length, true};
ghost use Rattle.cd_tokens.specs.Lexed.{IsTokens};
ghost use Rattle.cd_tokens.specs.Placed.{placed_view, placed_views, are_within};
ghost use Rattle.cd_tokens.specs.Token as token;

use crate::gap::{gap_len, past_gap};
use crate::token::{Token, token_of};
use ic_base::NoMemory;
use std::alloc::Global;

/// A token, and the offset of its first byte: of a string, of the quote that begins it.
#[derive(Drop)]
pub struct PlacedToken<'a> {
    pub token: Token<'a>,
    pub place: usize,
}

impl<'a> PlacedToken<'a> {
    /// The same token at the same place.
    pub fn copy(&self) -> PlacedToken<'a>
        ensures token { placed_view result ≡ placed_view self.now }
        ensures place { result.place ≡ self.now.place }
    {
        PlacedToken {
            token: self.token.copy(),
            place: self.place,
        }
    }
}

/// The tokens of a text, as far as they can be read.
#[derive(Drop)]
pub struct PlacedTokens<'a> {
    pub items: Vec<PlacedToken<'a>>,
    /// The first place after a gap where no token can be read; of a comment that does not end, its
    /// first slash.
    pub stop: Option<usize>,
}

// Where a gap ends after which no token can be read.
fn stop_after(comments: bool, text: &[u8], rest: &[u8]) -> usize
    requires { length rest.now ≤ length text.now }
    ensures { result ≤ length text.now }
{
    text.len() - rest.len() + gap_len(comments, rest)
}

/// The tokens of a text with their places, as `tokens_of` reads them, up to the first that cannot be
/// read.
pub fn placed_tokens_of<'a>(
    alloc: Global,
    comments: bool,
    text: &'a [u8],
) -> Result<PlacedTokens<'a>, NoMemory>
    // Where nothing stops them they are the tokens of the text.
    ensures found { IfOk result (λ placed. placed.stop ≡ None → IsTokens comments (placed_views placed.items.items) text.now) }
    // Nothing stops the tokens of a text.
    ensures only { IfOk result (λ placed. (tokens : List token.Token) → IsTokens comments tokens text.now → placed.stop ≡ None) }
    // Each place is one of the text, and the stop is one or its end.
    ensures places { IfOk result (λ placed. are_within text.now placed.items.items ≡ true) }
    ensures end { IfOk result (λ placed. IfSome placed.stop (λ place. place ≤ length text.now)) }
{
    let mut items = Vec::new(alloc);
    let Some(mut rest) = past_gap(comments, text) else {
        let stop = Some(stop_after(comments, text, text));
        return Ok(PlacedTokens { items, stop });
    };
    while !rest.is_empty() {
        let place = text.len() - rest.len();
        let Some((token, after)) = token_of(rest) else {
            let stop = Some(place);
            return Ok(PlacedTokens { items, stop });
        };
        items.push(PlacedToken { token, place })?;
        match past_gap(comments, after) {
            Some(next) => rest = next,
            None => {
                let stop = Some(stop_after(comments, text, after));
                return Ok(PlacedTokens { items, stop });
            }
        }
    }
    Ok(PlacedTokens { items, stop: None })
}
