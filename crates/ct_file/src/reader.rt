ghost use Rattle.std.specs.Prelude.{◌≡◌, Some, drop};
ghost use Rattle.cd_tokens.specs.Placed.{placed_view, placed_views};
ghost use Rattle.cd_tokens.specs.ReadNumeral.{numeral_of};
ghost use Rattle.cd_tokens.specs.View.{token_view};
ghost use Rattle.ct_file.specs.Gives.{Gives};
ghost use Rattle.cd_tokens.specs.Front.{is_mark, starts};
ghost use Rattle.ct_file.specs.Words.{is_word};
ghost use Rattle.ct_file.specs.Read.{is_numeric, is_quoted, are_none, past, token_name, text_written, token_text, in_range, token_number, token_method, name_at, text_at, number_at, method_at};

use crate::cause::{ParseError, Wanted};
use crate::keyword::Keyword;
use crate::leaf::{Name, Number, Quoted};
use crate::tree::Method;
use cd_tokens::{PlacedToken, Token, is_mark, is_name, is_word, numeral_of, text_of};
use ic_base::ReadError;
use std::alloc::Global;

/// The tokens of a file that are left. Where nothing is read it is at the token that does not go
/// on.
#[derive(Drop)]
pub(crate) struct Reader<'t, 'a> {
    pub(crate) alloc: Global,
    pub(crate) rest: &'t [PlacedToken<'a>],
    /// Where the tokens end.
    pub(crate) end: usize,
}

fn is_numeric(token: &Token<'_>) -> bool
    ensures { result ≡ is_numeric (token_view token.now) }
{
    match token {
        Token::Run(run) => !is_name(run.bytes),
        Token::Quoted(_) => false,
        Token::Mark(_) => false,
        Token::Arrow => false,
    }
}

fn is_quoted(token: &Token<'_>) -> bool
    ensures { result ≡ is_quoted (token_view token.now) }
{
    match token {
        Token::Quoted(_) => true,
        Token::Run(_) => false,
        Token::Mark(_) => false,
        Token::Arrow => false,
    }
}

fn name_of<'a>(placed: &PlacedToken<'a>) -> Option<Name<'a>>
    ensures { result ≡ token_name (placed_view placed.now) }
{
    match &placed.token {
        Token::Run(run) => {
            if !is_name(run.bytes) {
                return None;
            }
            Some(Name {
                bytes: run.bytes,
                place: placed.place,
            })
        }
        Token::Quoted(_) => None,
        Token::Mark(_) => None,
        Token::Arrow => None,
    }
}

// The text between the quotes, where they say one.
fn quoted_of<'a>(alloc: Global, written: &'a [u8], place: usize) -> Result<Quoted<'a>, ParseError>
    ensures { Gives (λ quoted. quoted) result (text_written written.now) }
{
    match text_of(alloc, written) {
        Ok(_) => Ok(Quoted { written, place }),
        Err(ReadError::Refused) => Err(ParseError::BadString),
        Err(ReadError::NoMemory) => Err(ParseError::NoMemory),
    }
}

fn text_token_of<'a>(alloc: Global, placed: &PlacedToken<'a>) -> Result<Quoted<'a>, ParseError>
    ensures { Gives (λ quoted. quoted) result (token_text (placed_view placed.now)) }
{
    match &placed.token {
        Token::Quoted(string) => quoted_of(alloc, string.bytes, placed.place),
        Token::Run(_) => Err(ParseError::Expected(Wanted::Text)),
        Token::Mark(_) => Err(ParseError::Expected(Wanted::Text)),
        Token::Arrow => Err(ParseError::Expected(Wanted::Text)),
    }
}

// The number that the bytes say, from least to most.
fn number_in(bytes: &[u8], least: u128, most: u128) -> Option<u128>
    ensures { result ≡ in_range least most (numeral_of bytes.now) }
{
    match numeral_of(bytes) {
        None => None,
        Some(value) => {
            if least <= value && value <= most {
                Some(value)
            } else {
                None
            }
        }
    }
}

// What is wanted where a run is no number in the range.
fn wanted_number(run: &[u8], least: u128, most: u128) -> Wanted {
    if is_name(run) {
        Wanted::Number
    } else {
        Wanted::NumberIn { least, most }
    }
}

fn number_of<'a>(
    placed: &PlacedToken<'a>,
    least: u128,
    most: u128,
) -> Result<Number<'a>, ParseError>
    ensures { Gives (λ number. number) result (token_number least most (placed_view placed.now)) }
{
    match &placed.token {
        Token::Run(run) => match number_in(run.bytes, least, most) {
            Some(value) => Ok(Number {
                written: run.bytes,
                value,
                place: placed.place,
            }),
            None => Err(ParseError::Expected(wanted_number(run.bytes, least, most))),
        },
        Token::Quoted(_) => Err(ParseError::Expected(Wanted::Number)),
        Token::Mark(_) => Err(ParseError::Expected(Wanted::Number)),
        Token::Arrow => Err(ParseError::Expected(Wanted::Number)),
    }
}

fn method_of<'a>(alloc: Global, placed: &PlacedToken<'a>) -> Result<Method<'a>, ParseError>
    ensures { Gives (λ method. method) result (token_method (placed_view placed.now)) }
{
    match &placed.token {
        Token::Run(run) => {
            if !is_name(run.bytes) {
                return Err(ParseError::Expected(Wanted::Method));
            }
            Ok(Method::Word(Name {
                bytes: run.bytes,
                place: placed.place,
            }))
        }
        Token::Quoted(string) => match quoted_of(alloc, string.bytes, placed.place) {
            Ok(quoted) => Ok(Method::Text(quoted)),
            Err(parse_error) => Err(parse_error),
        },
        Token::Mark(_) => Err(ParseError::Expected(Wanted::Method)),
        Token::Arrow => Err(ParseError::Expected(Wanted::Method)),
    }
}

impl<'t, 'a> Reader<'t, 'a> {
    /// The place of the first token, or where they end.
    pub(crate) fn place(&self) -> usize {
        match self.rest {
            [] => self.end,
            [first, ..] => first.place,
        }
    }

    /// Whether no token is left.
    pub(crate) fn is_done(&self) -> bool
        ensures { result ≡ are_none (placed_views self.now.rest.now) }
    {
        match self.rest {
            [] => true,
            [_, ..] => false,
        }
    }

    /// Whether the mark comes first.
    pub(crate) fn starts_mark(&self, mark: u8) -> bool
        ensures { result ≡ starts (is_mark mark) (placed_views self.now.rest.now) }
    {
        match self.rest {
            [] => false,
            [first, ..] => is_mark(&first.token, mark),
        }
    }

    /// Whether the word comes first.
    pub(crate) fn starts_word(&self, word: Keyword) -> bool
        ensures { result ≡ starts (is_word word) (placed_views self.now.rest.now) }
    {
        match self.rest {
            [] => false,
            [first, ..] => is_word(&first.token, word.spelling().as_bytes()),
        }
    }

    /// Whether a run that is no word comes first.
    pub(crate) fn starts_number(&self) -> bool
        ensures { result ≡ starts is_numeric (placed_views self.now.rest.now) }
    {
        match self.rest {
            [] => false,
            [first, ..] => is_numeric(&first.token),
        }
    }

    /// Whether a string comes first.
    pub(crate) fn starts_text(&self) -> bool
        ensures { result ≡ starts is_quoted (placed_views self.now.rest.now) }
    {
        match self.rest {
            [] => false,
            [first, ..] => is_quoted(&first.token),
        }
    }

    /// Goes past the first token, if one is left.
    pub(crate) fn advance(&mut self)
        ensures { placed_views self.new.rest.now ≡ drop 1 (placed_views self.old.rest.now) }
    {
        match self.rest {
            [] => {}
            [_, rest @ ..] => self.rest = rest,
        }
    }

    /// Goes past the mark.
    pub(crate) fn expect_mark(&mut self, mark: u8) -> Result<(), ParseError>
        ensures { Gives (λ done. placed_views self.new.rest.now) result (past (is_mark mark) (placed_views self.old.rest.now)) }
    {
        if !self.starts_mark(mark) {
            return Err(ParseError::Expected(Wanted::Mark(mark)));
        }
        self.advance();
        Ok(())
    }

    /// Goes past the word.
    pub(crate) fn expect_word(&mut self, word: Keyword) -> Result<(), ParseError>
        ensures { Gives (λ done. placed_views self.new.rest.now) result (past (is_word word) (placed_views self.old.rest.now)) }
    {
        if !self.starts_word(word) {
            return Err(ParseError::Expected(Wanted::Word(word)));
        }
        self.advance();
        Ok(())
    }

    /// A name, where this is wanted.
    pub(crate) fn name_for(&mut self, wanted: Wanted) -> Result<Name<'a>, ParseError>
        ensures { Gives (λ name. (name, placed_views self.new.rest.now)) result (name_at (placed_views self.old.rest.now)) }
    {
        match self.rest {
            [] => Err(ParseError::Expected(wanted)),
            [first, rest @ ..] => match name_of(first) {
                None => Err(ParseError::Expected(wanted)),
                Some(name) => {
                    self.rest = rest;
                    Ok(name)
                }
            },
        }
    }

    pub(crate) fn name(&mut self) -> Result<Name<'a>, ParseError>
        ensures { Gives (λ name. (name, placed_views self.new.rest.now)) result (name_at (placed_views self.old.rest.now)) }
    {
        self.name_for(Wanted::Name)
    }

    pub(crate) fn text(&mut self) -> Result<Quoted<'a>, ParseError>
        ensures { Gives (λ text. (text, placed_views self.new.rest.now)) result (text_at (placed_views self.old.rest.now)) }
    {
        match self.rest {
            [] => Err(ParseError::Expected(Wanted::Text)),
            [first, rest @ ..] => {
                let text = text_token_of(self.alloc, first)?;
                self.rest = rest;
                Ok(text)
            }
        }
    }

    /// A number without a sign, from least to most.
    pub(crate) fn number(&mut self, least: u128, most: u128) -> Result<Number<'a>, ParseError>
        ensures { Gives (λ number. (number, placed_views self.new.rest.now)) result (number_at least most (placed_views self.old.rest.now)) }
    {
        match self.rest {
            [] => Err(ParseError::Expected(Wanted::Number)),
            [first, rest @ ..] => {
                let number = number_of(first, least, most)?;
                self.rest = rest;
                Ok(number)
            }
        }
    }

    pub(crate) fn method(&mut self) -> Result<Method<'a>, ParseError>
        ensures { Gives (λ method. (method, placed_views self.new.rest.now)) result (method_at (placed_views self.old.rest.now)) }
    {
        match self.rest {
            [] => Err(ParseError::Expected(Wanted::Method)),
            [first, rest @ ..] => {
                let method = method_of(self.alloc, first)?;
                self.rest = rest;
                Ok(method)
            }
        }
    }
}
