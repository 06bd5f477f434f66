ghost use Rattle.std.specs.Prelude.{◌≡◌, IfOk, ◌∷◌, []};
ghost use Rattle.cd_tokens.specs.Token as token;
ghost use Rattle.ct_names.specs.Exchange.{principal_tokens};

use cd_tokens::{Piece, Token};
use ic_base::NoMemory;
use std::alloc::Global;
use std::marker::Model;

/// What a name stands for. Contracts see the tokens.
#[derive(Drop)]
pub struct Meaning<'a> {
    pub items: Vec<Token<'a>>,
}

impl<'a> Model for Meaning<'a> {
    ghost use Rattle.std.specs.Prelude.{List};
    ghost use Rattle.cd_tokens.specs.Token as token;
    ghost use Rattle.cd_tokens.specs.View.{token_views};

    ghost Value = { List token.Token };

    ghost view = { λ m. token_views m.items.items };
}

impl<'a> Meaning<'a> {
    /// `principal` and a text, as of a user or a canister.
    pub fn of_principal(alloc: Global, text: &'a [u8]) -> Result<Meaning<'a>, NoMemory>
        ensures { IfOk result (λ meaning. meaning ≡ principal_tokens text.now) }
    {
        let mut items = Vec::with_capacity(alloc, 2)?;
        items.push(Token::Run(Piece {
            bytes: b"principal",
        }))?;
        items.push(Token::Quoted(Piece { bytes: text }))?;
        Ok(Meaning { items })
    }

    /// The name itself, where it is not known what it stands for.
    pub fn itself(alloc: Global, name: &'a [u8]) -> Result<Meaning<'a>, NoMemory>
        ensures { IfOk result (λ meaning. meaning ≡ token.run name.now ∷ []) }
    {
        let mut items = Vec::with_capacity(alloc, 1)?;
        items.push(Token::Run(Piece { bytes: name }))?;
        Ok(Meaning { items })
    }
}
