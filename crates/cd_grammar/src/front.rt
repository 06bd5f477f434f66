ghost use Rattle.std.specs.Prelude.{◌≡◌};
ghost use Rattle.ic_base.specs.Gives.{Gives};
ghost use Rattle.cd_tokens.specs.View.{token_view, token_views};
ghost use Rattle.cd_grammar.specs.Words.{word_of};
ghost use Rattle.cd_grammar.specs.Read.{is_arrow, starts, first_word, token_word, is_any_word, is_argument_name, free_name, unless_word};

use crate::word::Word;
use cd_tokens::{Token, is_name, says_bytes};
use ic_base::ReadError;
use ic_principal::Bytes;
use std::alloc::Global;

/// Whether `->` comes first.
pub fn starts_arrow(tokens: &[Token<'_>]) -> bool
    ensures { result ≡ starts is_arrow (token_views tokens.now) }
{
    match tokens {
        [] => false,
        [first, ..] => match first {
            Token::Arrow => true,
            Token::Mark(_) => false,
            Token::Run(_) => false,
            Token::Quoted(_) => false,
        },
    }
}

/// The word that the token is.
pub(crate) fn word_of(token: &Token<'_>) -> Option<Word>
    ensures { result ≡ token_word (token_view token.now) }
{
    match token {
        Token::Run(run) => Word::of(run.bytes),
        Token::Quoted(_) => None,
        Token::Mark(_) => None,
        Token::Arrow => None,
    }
}

/// The word that comes first.
pub fn first_word(tokens: &[Token<'_>]) -> Option<Word>
    ensures { result ≡ first_word (token_views tokens.now) }
{
    match tokens {
        [] => None,
        [first, ..] => word_of(first),
    }
}

/// Whether the token is a word, of the grammar or not.
pub fn is_any_word(token: &Token<'_>) -> bool
    ensures { result ≡ is_any_word (token_view token.now) }
{
    match token {
        Token::Run(run) => is_name(run.bytes),
        Token::Quoted(_) => false,
        Token::Mark(_) => false,
        Token::Arrow => false,
    }
}

/// Whether the token may be an argument's name: any word, or any string.
pub fn is_argument_name(token: &Token<'_>) -> bool
    ensures { result ≡ is_argument_name (token_view token.now) }
{
    match token {
        Token::Run(run) => is_name(run.bytes),
        Token::Quoted(string) => says_bytes(string.bytes),
        Token::Mark(_) => false,
        Token::Arrow => false,
    }
}

fn unless_word(alloc: Global, name: &[u8]) -> Result<Bytes, ReadError>
    ensures { Gives (λ name. name) result (unless_word name.now (word_of name.now)) }
{
    match Word::of(name) {
        Some(_) => Err(ReadError::Refused),
        None => Ok(Bytes {
            items: Vec::from_slice(alloc, name)?,
        }),
    }
}

/// The name that the token is. `Refused`: it is none, or a word of the grammar.
pub fn name_of(alloc: Global, token: &Token<'_>) -> Result<Bytes, ReadError>
    ensures { Gives (λ name. name) result (free_name (token_view token.now)) }
{
    match token {
        Token::Run(run) => {
            if is_name(run.bytes) {
                unless_word(alloc, run.bytes)
            } else {
                Err(ReadError::Refused)
            }
        }
        Token::Quoted(_) | Token::Mark(_) | Token::Arrow => Err(ReadError::Refused),
    }
}
