ghost use Rattle.std.specs.Prelude.{◌≡◌};
ghost use Rattle.ct_file.specs.declared.cause.FileError.TheVariants.{NoMemory};
ghost use Rattle.ct_file.specs.declared.cause.ParseError.TheVariants.{NoMemory as no_memory};

use crate::keyword::Keyword;
use ic_base::NoMemory as OutOfMemory;
use std::alloc::AllocFailed;
use std::fmt;

/// What is wanted where something else is, if all that may be left out before it is left out.
#[derive(Clone, Copy, Debug, PartialEq, Eq)]
pub enum Wanted {
    Mark(u8),
    Word(Keyword),
    Name,
    Text,
    /// Any number is wanted, and there is none.
    Number,
    /// A number without a sign is wanted in this range, and there is another one.
    NumberIn { least: u128, most: u128 },
    Method,
    Outcome,
    /// Where a canister comes from.
    Origin,
    StatementOrTest,
    StatementOrEnd,
    Move,
    MoveOrEnd,
    /// What may come after `as` and a name in a statement.
    CanisterOrMove,
}

impl fmt::Display for Wanted {
    fn fmt<W: fmt::Write>(&self, f: &mut fmt::Formatter<W>) -> fmt::Result {
        match self {
            Wanted::Mark(mark) => {
                let mark = char::from(*mark);
                write!(f, "'{mark}'")
            }
            Wanted::Word(word) => write!(f, "'{word}'"),
            Wanted::NumberIn { least, most } => write!(f, "a number from {least} to {most}"),
            Wanted::Name => f.write_str("a name"),
            Wanted::Text => f.write_str("a text"),
            Wanted::Number => f.write_str("a number"),
            Wanted::Method => f.write_str("a method"),
            Wanted::Outcome => f.write_str("'replies', 'rejects' or 'refused'"),
            Wanted::Origin => f.write_str("a text, 'principal' or a name"),
            Wanted::StatementOrTest => f.write_str("a statement or a test"),
            Wanted::StatementOrEnd => f.write_str("a statement or '}'"),
            Wanted::Move => f.write_str("a call, query, upgrade or reinstall"),
            Wanted::MoveOrEnd => f.write_str("a call, query, upgrade, reinstall or '}'"),
            Wanted::CanisterOrMove => {
                f.write_str("a canister, call, query, upgrade or reinstall")
            }
        }
    }
}

/// Why a text is no test file.
#[derive(Clone, Copy, Debug, PartialEq, Eq)]
pub enum Cause {
    /// A byte begins no character.
    NotUtf8,
    /// A string does not end, has a wrong escape or a control character, or is to be a text and says
    /// bytes that are no UTF-8.
    BadString,
    /// A comment does not end.
    OpenComment,
    /// A byte begins no token, or a token is neither a word nor a number.
    NotAToken,
    /// Another token is wanted there, or the file is not at its end yet.
    Expected(Wanted),
}

impl fmt::Display for Cause {
    fn fmt<W: fmt::Write>(&self, f: &mut fmt::Formatter<W>) -> fmt::Result {
        match self {
            Cause::NotUtf8 => f.write_str("not UTF-8"),
            Cause::BadString => f.write_str("bad string"),
            Cause::OpenComment => f.write_str("comment without end"),
            Cause::NotAToken => f.write_str("not a token"),
            Cause::Expected(wanted) => write!(f, "expected {wanted}"),
        }
    }
}

/// Where a text is no test file, and why: the offset of a byte, or the text's length at its end.
#[derive(Clone, Copy, Debug, PartialEq, Eq)]
pub struct Fault {
    pub place: usize,
    pub cause: Cause,
}

/// Why no file is read.
#[derive(Clone, Copy, Debug, PartialEq, Eq)]
pub enum FileError {
    /// Memory ran out.
    NoMemory,
    /// The text is no test file.
    Faulty(Fault),
}

impl From<OutOfMemory> for FileError {
    ghost from_gives = { λ _ error. error ≡ NoMemory };

    fn from(_: OutOfMemory) -> FileError {
        FileError::NoMemory
    }
}

/// Why the reader stops at a token.
#[derive(Clone, Copy, Debug, PartialEq, Eq)]
pub(crate) enum ParseError {
    /// Memory ran out.
    NoMemory,
    /// The token is a string that says no text.
    BadString,
    /// Something else is wanted there.
    Expected(Wanted),
}

impl From<OutOfMemory> for ParseError {
    ghost from_gives = { λ _ parse_error. parse_error ≡ no_memory };

    fn from(_: OutOfMemory) -> ParseError {
        ParseError::NoMemory
    }
}

impl<T: Drop> From<AllocFailed<T>> for ParseError {
    ghost from_gives = { λ _ parse_error. parse_error ≡ no_memory };

    fn from(_: AllocFailed<T>) -> ParseError {
        ParseError::NoMemory
    }
}
