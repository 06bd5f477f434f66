ghost use Rattle.std.specs.Prelude.{◌≡◌};
ghost use Rattle.ic_script.specs.declared.line_cause.LineError.TheVariants.{NoMemory};

use ic_base::NoMemory as OutOfMemory;
use std::fmt;

/// Why a line is refused.
#[derive(Clone, Copy, Debug, PartialEq, Eq)]
pub enum LineCause {
    /// The line is neither empty nor a comment, and is no command: it has a byte outside the
    /// printable ones, an empty word, an unknown first word, a wrong number of words, or a method
    /// of more than 20,000 bytes.
    Form,
    /// A word that is to name a principal is the text of no principal.
    Principal,
    /// A word that is to spell bytes is neither `-` nor an even number of hexadecimal digits.
    Hex,
    /// A word that is to spell a number is none in decimal digits without a sign and without a
    /// leading zero, or the number is greater than it may be here.
    Number,
    /// A word spells more than 2,097,152 bytes.
    Size,
    /// The time is before the present one.
    Back,
    /// As many calls were submitted as may be.
    Calls,
    /// The line is longer than a line may be.
    LineTooLong,
    /// The script is longer than a script may be.
    ScriptTooLong,
}

impl fmt::Display for LineCause {
    ghost use Rattle.std.specs.Prelude.{Some};
    ghost use Rattle.ic_script.specs.CauseText.{cause_text};

    ghost output = { λ cause. Some (cause_text cause) };

    #[tactic(auto, unfolding(crate::specs::CauseText::cause_text))]
    fn fmt<W: fmt::Write>(&self, f: &mut fmt::Formatter<W>) -> fmt::Result {
        f.write_str(match self {
            LineCause::Form => "Form",
            LineCause::Principal => "Principal",
            LineCause::Hex => "Hex",
            LineCause::Number => "Number",
            LineCause::Size => "Size",
            LineCause::Back => "Back",
            LineCause::Calls => "Calls",
            LineCause::LineTooLong => "LineTooLong",
            LineCause::ScriptTooLong => "ScriptTooLong",
        })
    }
}

/// Why `parse_line` gives no command.
#[derive(Clone, Copy, Debug, PartialEq, Eq)]
pub enum LineError {
    /// As `LineCause::Form`.
    Form,
    /// As `LineCause::Principal`.
    Principal,
    /// As `LineCause::Hex`.
    Hex,
    /// As `LineCause::Number`.
    Number,
    /// As `LineCause::Size`.
    Size,
    /// Out of memory.
    NoMemory,
}

impl From<OutOfMemory> for LineError {
    ghost from_gives = { λ _ error. error ≡ NoMemory };

    fn from(_: OutOfMemory) -> LineError {
        LineError::NoMemory
    }
}
