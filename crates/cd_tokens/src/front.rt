ghost use Rattle.std.specs.Prelude.{◌≡◌, drop};
ghost use Rattle.cd_tokens.specs.View.{token_view, token_views};
ghost use Rattle.cd_tokens.specs.Front.{is_mark, is_word, starts};

use crate::token::Token;

/// Whether the token is this mark.
pub fn is_mark(token: &Token<'_>, mark: u8) -> bool
    ensures { result ≡ is_mark mark (token_view token.now) }
{
    match token {
        Token::Mark(other) => *other == mark,
        Token::Run(_) => false,
        Token::Quoted(_) => false,
        Token::Arrow => false,
    }
}

/// Whether the token is this word.
pub fn is_word(token: &Token<'_>, word: &[u8]) -> bool
    ensures { result ≡ is_word word.now (token_view token.now) }
{
    match token {
        Token::Run(run) => run.bytes == word,
        Token::Mark(_) => false,
        Token::Quoted(_) => false,
        Token::Arrow => false,
    }
}

/// Whether the mark comes first.
pub fn starts_mark(tokens: &[Token<'_>], mark: u8) -> bool
    ensures { result ≡ starts (is_mark mark) (token_views tokens.now) }
{
    match tokens {
        [] => false,
        [first, ..] => is_mark(first, mark),
    }
}

/// Whether the word comes first.
pub fn starts_word(tokens: &[Token<'_>], word: &[u8]) -> bool
    ensures { result ≡ starts (is_word word.now) (token_views tokens.now) }
{
    match tokens {
        [] => false,
        [first, ..] => is_word(first, word),
    }
}

/// The tokens after the first.
pub fn rest_of<'t, 'a>(tokens: &'t [Token<'a>]) -> &'t [Token<'a>]
    ensures { token_views result.now ≡ drop 1 (token_views tokens.now) }
{
    match tokens {
        [] => tokens,
        [_, rest @ ..] => rest,
    }
}
