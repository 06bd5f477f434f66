ghost use Rattle.std.specs.Prelude.{◌≡◌, ◌==◌, ◌&&◌, ◌||◌, not, IfOk, Some, None, codes, bytes_eq};
ghost use Rattle.cd_tokens.specs.Front.{is_mark, starts};
ghost use Rattle.cd_tokens.specs.Placed.{placed_views};
ghost use Rattle.cd_tokens.specs.View.{token_view};
ghost use Rattle.ct_names.specs.Roles.{admits_value, is_reference, may_begin, after_word, after_mark, after, word_role, role, roles_of};

use crate::word::is_free_name;
use cd_tokens::{PlacedToken, Token, is_mark};
use ic_base::NoMemory;
use std::alloc::Global;

/// What is before a token, as far as it decides what a name there is.
#[derive(Clone, Copy)]
pub(crate) enum Before {
    /// Nothing, or a token that decides nothing: a name there is used.
    Value,
    /// The word `variant`.
    Variant,
    /// The word `variant` and a brace: the name of a case follows.
    Case,
    /// A dot or a colon: the name of a method or of a type follows.
    Member,
    /// `let`: the name that it binds follows.
    Let,
    /// The word `service` or `func`: the text of a principal follows, without `principal`.
    Reference,
}

/// What a token of arguments is to names.
#[derive(Clone, Copy, Debug, PartialEq, Eq)]
pub enum Role {
    /// A name that is used. `alone`: after `service` or `func`, where a principal is a string alone.
    Used { alone: bool },
    /// The token after `let`: the name that it binds, if it is a name.
    Bound,
    /// Any other token.
    Other,
}

// Whether `=` comes first.
fn starts_equals(tokens: &[PlacedToken<'_>]) -> bool
    ensures { result ≡ starts (is_mark 61) (placed_views tokens.now) }
{
    match tokens {
        [] => false,
        [first, ..] => is_mark(&first.token, b'='),
    }
}

fn after_word(word: &[u8]) -> Before
    ensures { result ≡ after_word word.now }
{
    if word == b"variant".as_slice() {
        Before::Variant
    } else if word == b"let".as_slice() {
        Before::Let
    } else if word == b"service".as_slice() {
        Before::Reference
    } else if word == b"func".as_slice() {
        Before::Reference
    } else {
        Before::Value
    }
}

impl Before {
    fn admits_value(self) -> bool
        ensures { result ≡ admits_value self }
    {
        match self {
            Before::Value | Before::Variant | Before::Reference => true,
            Before::Case | Before::Member | Before::Let => false,
        }
    }

    // Whether a value may begin with the token before `rest`: it is no label, case, method or type,
    // and no name after `let`.
    fn may_begin(self, rest: &[PlacedToken<'_>]) -> bool
        ensures { result ≡ may_begin self (placed_views rest.now) }
    {
        self.admits_value() && !starts_equals(rest)
    }

    fn after_mark(self, mark: u8) -> Before
        ensures { result ≡ after_mark self mark }
    {
        match self {
            Before::Variant => {
                if mark == b'{' {
                    return Before::Case;
                }
            }
            _ => {}
        }
        if mark == b'.' || mark == b':' {
            Before::Member
        } else {
            Before::Value
        }
    }

    /// What is before the first token of `rest`, by what is before this token.
    pub(crate) fn after(self, token: &Token<'_>, rest: &[PlacedToken<'_>]) -> Before
        ensures { result ≡ after self (token_view token.now) (placed_views rest.now) }
    {
        match token {
            Token::Run(run) => {
                if self.may_begin(rest) {
                    after_word(run.bytes)
                } else {
                    Before::Value
                }
            }
            Token::Mark(mark) => self.after_mark(*mark),
            Token::Quoted(_) => Before::Value,
            Token::Arrow => Before::Value,
        }
    }

    fn is_reference(self) -> bool
        ensures { result ≡ is_reference self }
    {
        matches!(self, Before::Reference)
    }

    fn word_role(self, token: &Token<'_>, rest: &[PlacedToken<'_>]) -> Role
        ensures { result ≡ word_role self (token_view token.now) (placed_views rest.now) }
    {
        match token {
            Token::Run(run) => {
                if self.may_begin(rest) && is_free_name(run.bytes) {
                    Role::Used {
                        alone: self.is_reference(),
                    }
                } else {
                    Role::Other
                }
            }
            Token::Mark(_) => Role::Other,
            Token::Quoted(_) => Role::Other,
            Token::Arrow => Role::Other,
        }
    }

    /// The role of the token before `rest`.
    pub(crate) fn role(self, token: &Token<'_>, rest: &[PlacedToken<'_>]) -> Role
        ensures { result ≡ role self (token_view token.now) (placed_views rest.now) }
    {
        match self {
            Before::Let => Role::Bound,
            _ => self.word_role(token, rest),
        }
    }
}

/// The role of each token of arguments, in order. Time grows with the number of tokens.
pub fn roles_of(alloc: Global, tokens: &[PlacedToken<'_>]) -> Result<Vec<Role>, NoMemory>
    ensures { IfOk result (λ roles. roles.items ≡ roles_of (placed_views tokens.now)) }
{
    let mut roles = Vec::with_capacity(alloc, tokens.len())?;
    let mut before = Before::Value;
    let mut rest = tokens;
    while let [first, more @ ..] = rest {
        roles.push(before.role(&first.token, more))?;
        before = before.after(&first.token, more);
        rest = more;
    }
    Ok(roles)
}
