ghost use Rattle.std.specs.Prelude.{◌≡◌, ◌==◌, ◌&&◌, not, ℕ, ◌<◌, ◌≤◌, length, IfSome, false, List, IfOk, option_map};
ghost use Rattle.std.specs.List.{prefix_len};
ghost use Rattle.cd_tokens.specs.Bytes.{is_word_byte};
ghost use Rattle.cd_tokens.specs.ReadToken.{end_of, string_at, run_at, ends_arrow, token_at};
ghost use Rattle.cd_tokens.specs.Token.{begins_run};
ghost use Rattle.cd_tokens.specs.Token as token;
ghost use Rattle.cd_tokens.specs.Lexed.{IsTokens, Agrees};
ghost use Rattle.cd_tokens.specs.View.{token_view, token_views};

use crate::bytes::{goes_on, is_mark, is_sign, is_word_byte};
use crate::gap::past_gap;
use crate::piece::Piece;
use ic_base::ReadError;
use std::alloc::Global;

/// A token of a text.
#[derive(Drop)]
pub enum Token<'a> {
    /// A word or a number, with its sign.
    Run(Piece<'a>),
    /// A string, as it is between its quotes.
    Quoted(Piece<'a>),
    /// One of `(` `)` `{` `}` `:` `;` `,` `=` `.`
    Mark(u8),
    /// `->`
    Arrow,
}

impl<'a> Token<'a> {
    /// The same token; it owns nothing.
    pub fn copy(&self) -> Token<'a>
        ensures { token_view result ≡ token_view self.now }
    {
        match self {
            Token::Run(run) => Token::Run(run.copy()),
            Token::Quoted(string) => Token::Quoted(string.copy()),
            Token::Mark(mark) => Token::Mark(*mark),
            Token::Arrow => Token::Arrow,
        }
    }
}

fn begins_run(byte: u8, rest: &[u8]) -> bool
    ensures { result ≡ begins_run byte rest.now }
{
    is_word_byte(byte) || is_sign(byte) && goes_on(rest)
}

fn run_len(bytes: &[u8]) -> usize
    ensures value { result ≡ prefix_len is_word_byte bytes.now }
    ensures bound { result ≤ length bytes.now }
{
    bytes.iter().take_while(|byte| is_word_byte(**byte)).count()
}

fn is_unescaped(escaped: bool, byte: u8, other: u8) -> bool
    ensures { result ≡ (not escaped && byte == other) }
{
    !escaped && byte == other
}

// The place of the quote that ends a string.
fn end_of(bytes: &[u8]) -> Option<usize>
    ensures value { result ≡ end_of false bytes.now }
    ensures bound { IfSome result (λ n. n < length bytes.now) }
{
    let mut escaped = false;
    for (place, byte) in bytes.iter().enumerate() {
        if is_unescaped(escaped, *byte, b'"') {
            return Some(place);
        }
        escaped = is_unescaped(escaped, *byte, b'\\');
    }
    None
}

fn string_of(bytes: &[u8]) -> Option<(Token<'_>, &[u8])>
    ensures { option_map (λ x. (token_view x.0, x.1.now)) result ≡ string_at bytes.now }
{
    match end_of(bytes) {
        None => None,
        Some(end) => {
            let (front, _) = bytes.split_at(end);
            let (_, rest) = bytes.split_at(end + 1);
            Some((Token::Quoted(Piece { bytes: front }), rest))
        }
    }
}

fn run_of(bytes: &[u8]) -> (Token<'_>, &[u8])
    requires { 0 < length bytes.now }
    ensures { (token_view result.0, result.1.now) ≡ run_at bytes.now }
{
    let (_, others) = bytes.split_at(1);
    let (run, rest) = bytes.split_at(run_len(others) + 1);
    (Token::Run(Piece { bytes: run }), rest)
}

fn ends_arrow(bytes: &[u8]) -> bool
    ensures { result ≡ ends_arrow bytes.now }
{
    match bytes {
        [] => false,
        [first, ..] => *first == b'>',
    }
}

fn is_arrow(byte: u8, rest: &[u8]) -> bool
    ensures { result ≡ (byte == 45 && ends_arrow rest.now) }
{
    byte == b'-' && ends_arrow(rest)
}

#[tactic(auto, unfolding(crate::specs::ReadToken::token_at))]
pub(crate) fn token_of(bytes: &[u8]) -> Option<(Token<'_>, &[u8])>
    ensures { option_map (λ x. (token_view x.0, x.1.now)) result ≡ token_at bytes.now }
{
    match bytes {
        [] => None,
        [first, rest @ ..] => {
            if is_mark(*first) {
                Some((Token::Mark(*first), rest))
            } else if *first == b'"' {
                string_of(rest)
            } else if begins_run(*first, rest) {
                Some(run_of(bytes))
            } else if is_arrow(*first, rest) {
                Some((Token::Arrow, &rest[1..]))
            } else {
                None
            }
        }
    }
}

/// The tokens of a text, with blanks between them and, where they are admitted, comments.
/// `Refused`: it has none. A string stands as it is written; a token takes no memory of its own.
pub fn tokens_of<'a>(
    alloc: Global,
    comments: bool,
    text: &'a [u8],
) -> Result<Vec<Token<'a>>, ReadError>
    // What is answered are its tokens.
    ensures found { IfOk result (λ tokens. IsTokens comments (token_views tokens.items) text.now) }
    // Its tokens are what is answered, unless memory runs out.
    ensures only { (tokens : List token.Token) → IsTokens comments tokens text.now → Agrees (λ ts. token_views ts.items) result tokens }
{
    let mut tokens = Vec::new(alloc);
    let mut rest = past_gap(comments, text).ok_or(ReadError::Refused)?;
    while !rest.is_empty() {
        let (token, after) = token_of(rest).ok_or(ReadError::Refused)?;
        tokens.push(token)?;
        rest = past_gap(comments, after).ok_or(ReadError::Refused)?;
    }
    Ok(tokens)
}
