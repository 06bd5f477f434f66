ghost use Rattle.std.specs.Prelude.{◌≡◌};
ghost use Rattle.ct_check.specs.declared.cause.CheckError.TheVariants.{NoMemory, Faulty};

use cd_tokens::Piece;
use ct_sources::FileFault;
use ic_base::NoMemory as OutOfMemory;
use std::alloc::AllocFailed;
use std::fmt;

/// What does not hold of a test file.
#[derive(Drop)]
pub enum CheckCause<'a> {
    /// The name of a test is empty or has a character that TAP gives a meaning.
    BadTestName,
    TwoTests,
    UnknownName(Piece<'a>),
    NoUserOrCanister(Piece<'a>),
    NoCanister(Piece<'a>),
    CandidWord(Piece<'a>),
    BoundTwice(Piece<'a>),
    /// There are outcomes beside, or it is a query in an interleave.
    NoNameHere,
    ExpectedName,
    NoPrincipal,
    TimeGoesBack,
    NoSuchMethod,
    /// No line of a script can have the name of the method.
    BadMethodName,
    /// The file of this name, in quotes, is of no use.
    File { name: String, fault: FileFault },
    /// Arguments are left out where there are types.
    ExpectedArguments,
    NotOfType,
}

// The bytes of a name, which are a word.
fn word<'a>(name: &Piece<'a>) -> &'a str {
    match str::from_utf8(name.bytes) {
        Ok(word) => word,
        Err(_) => "",
    }
}

impl<'a> fmt::Display for CheckCause<'a> {
    fn fmt<W: fmt::Write>(&self, f: &mut fmt::Formatter<W>) -> fmt::Result {
        match self {
            CheckCause::BadTestName => f.write_str("bad name of a test"),
            CheckCause::TwoTests => f.write_str("two tests of one name"),
            CheckCause::UnknownName(name) => {
                let name = word(name);
                write!(f, "unknown name '{name}'")
            }
            CheckCause::NoUserOrCanister(name) => {
                let name = word(name);
                write!(f, "'{name}' is no user or canister")
            }
            CheckCause::NoCanister(name) => {
                let name = word(name);
                write!(f, "'{name}' is no canister")
            }
            CheckCause::CandidWord(name) => {
                let name = word(name);
                write!(f, "'{name}' is a word of Candid")
            }
            CheckCause::BoundTwice(name) => {
                let name = word(name);
                write!(f, "name '{name}' bound twice")
            }
            CheckCause::NoNameHere => f.write_str("no name can be bound here"),
            CheckCause::ExpectedName => f.write_str("expected a name"),
            CheckCause::NoPrincipal => f.write_str("no principal"),
            CheckCause::TimeGoesBack => f.write_str("time goes back"),
            CheckCause::NoSuchMethod => f.write_str("no such method"),
            CheckCause::BadMethodName => f.write_str("bad name of a method"),
            CheckCause::File { name, fault } => write!(f, "{name}: {fault}"),
            CheckCause::ExpectedArguments => f.write_str("expected '('"),
            CheckCause::NotOfType => f.write_str("not a value of its type"),
        }
    }
}

/// Where something does not hold of a test file, and what: the offset of a byte.
pub struct CheckFault<'a> {
    pub place: usize,
    pub cause: CheckCause<'a>,
}

// Not derived, so that it is proved here and not in each crate that drops one.
impl<'a> Drop for CheckFault<'a> {
    fn drop(self) {
        let CheckFault {
            place: _,
            cause: _cause,
        } = self;
    }
}

impl<'a> CheckFault<'a> {
    /// Whether a file could not be read.
    pub fn is_unreadable(&self) -> bool {
        match &self.cause {
            CheckCause::File { fault, .. } => matches!(fault, FileFault::Unreadable),
            _ => false,
        }
    }
}

/// Why no file is checked.
#[derive(Drop)]
pub enum CheckError<'a> {
    /// Memory ran out.
    NoMemory,
    /// Something does not hold.
    Faulty(CheckFault<'a>),
}

impl<'a> From<OutOfMemory> for CheckError<'a> {
    ghost from_gives = { λ _ error. error ≡ NoMemory };

    fn from(_: OutOfMemory) -> CheckError<'a> {
        CheckError::NoMemory
    }
}

impl<'a, T: Drop> From<AllocFailed<T>> for CheckError<'a> {
    ghost from_gives = { λ _ error. error ≡ NoMemory };

    fn from(_: AllocFailed<T>) -> CheckError<'a> {
        CheckError::NoMemory
    }
}

/// A fault at a place.
pub(crate) fn fault<'a>(place: usize, cause: CheckCause<'a>) -> CheckError<'a>
    ensures { result ≡ Faulty (record { place = place; cause = cause.entry }) }
{
    CheckError::Faulty(CheckFault { place, cause })
}
