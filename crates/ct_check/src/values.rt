ghost use Rattle.std.specs.Prelude.{◌≡◌, IfOk, is_none, is_some, map, true};
ghost use Rattle.cd_tokens.specs.Placed.{placed_views};
ghost use Rattle.cd_tokens.specs.View.{token_views};
ghost use Rattle.ct_names.specs.Exchange.{Meanings, exchanged, used_names};
ghost use Rattle.ct_check.specs.Values.{are_spelled};

use cd_tokens::{PlacedToken, Token};
use cd_types::{TyRef, TypeTable};
use ct_names::{Meaning, exchange};
use ct_values::{Admitted, PatternFault, pattern_of};
use ic_base::NoMemory;
use std::alloc::{AllocError, Global};

fn tokens_of<'a>(alloc: Global, placed: &[PlacedToken<'a>]) -> Result<Vec<Token<'a>>, NoMemory>
    ensures { IfOk result (λ tokens. token_views tokens.items ≡ placed_views placed.now) }
{
    let mut tokens = Vec::with_capacity(alloc, placed.len())?;
    for one in placed {
        tokens.push(one.token.copy())?;
    }
    Ok(tokens)
}

/// Tokens between parentheses, and the place of the parenthesis that ends them.
#[derive(Drop)]
pub(crate) struct Between<'t, 'a> {
    pub(crate) tokens: &'t [PlacedToken<'a>],
    pub(crate) end: usize,
}

impl<'t, 'a> Between<'t, 'a> {
    /// The place of the first token with which no values of the types go on, if there is one, with these
    /// tokens in place of the names that are used. `patterns`: what may be written in place of values is
    /// one as well.
    pub(crate) fn value_fault(
        &self,
        alloc: Global,
        meanings: &[Meaning<'a>],
        table: &TypeTable,
        types: &[TyRef],
        patterns: bool,
    ) -> Result<Option<usize>, NoMemory>
        ensures { (meaning : Meanings) → meanings.now ≡ map meaning (used_names (placed_views self.now.tokens.now)) → IfOk result (λ place. is_none place ≡ are_spelled patterns table.now types.now (exchanged meaning (placed_views self.now.tokens.now))) }
    {
        let read = exchange(alloc, self.tokens, meanings)?;
        let tokens = tokens_of(alloc, &read)?;
        let admitted = Admitted {
            patterns,
            names: true,
        };
        match pattern_of(alloc, table, types, admitted, &tokens) {
            Ok(_) => Ok(None),
            Err(PatternFault::NoMemory) => Err(AllocError),
            Err(PatternFault::Unexpected { index }) => match read.get(index) {
                None => Ok(Some(self.end)),
                Some(placed) => Ok(Some(placed.place)),
            },
        }
    }
}
