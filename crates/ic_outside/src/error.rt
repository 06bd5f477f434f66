use ic_base::NoMemory;
use std::error::Error;
use std::fmt;

/// A read or a write failed: the stream's count of faults rose.
#[derive(Clone, Copy, Debug, PartialEq, Eq)]
pub struct Failed;

/// Bytes could not be sent: the sink's count of faults rose.
#[derive(Clone, Copy, Debug, PartialEq, Eq)]
pub struct WriteFault;

/// Why there is no next line. A reader answers its first fault from then on.
#[derive(Clone, Copy, Debug, PartialEq, Eq)]
pub enum LineFault {
    /// The source failed.
    ReadFault,

    /// The line with this number, from 1, has more bytes before its LF than a line may have.
    LineTooLong { line: u64 },

    /// The script has more bytes than a script may have; the first byte too many is in the
    /// line with this number, from 1.
    ScriptTooLong { line: u64 },

    /// Memory was wanting for the line.
    NoMemory,
}

impl fmt::Display for Failed {
    ghost use Rattle.std.specs.Prelude.{Some, codes};

    ghost output = { λ _. Some (codes "the stream failed") };

    fn fmt<W: fmt::Write>(&self, f: &mut fmt::Formatter<W>) -> fmt::Result {
        write!(f, "the stream failed")
    }
}

impl Error for Failed {}

impl fmt::Display for WriteFault {
    ghost use Rattle.std.specs.Prelude.{Some, codes};

    ghost output = { λ _. Some (codes "the sink failed") };

    fn fmt<W: fmt::Write>(&self, f: &mut fmt::Formatter<W>) -> fmt::Result {
        write!(f, "the sink failed")
    }
}

impl Error for WriteFault {}

impl fmt::Display for LineFault {
    ghost use Rattle.std.specs.Prelude.{Some};
    ghost use Rattle.ic_outside.specs.FaultText.{fault_text};

    ghost output = { λ fault. Some (fault_text fault) };

    #[tactic(auto, unfolding(crate::specs::FaultText::fault_text))]
    fn fmt<W: fmt::Write>(&self, f: &mut fmt::Formatter<W>) -> fmt::Result {
        match self {
            LineFault::ReadFault => write!(f, "the source failed"),
            LineFault::LineTooLong { line } => write!(f, "line {line} is too long"),
            LineFault::ScriptTooLong { line } => write!(f, "the script is too long at line {line}"),
            LineFault::NoMemory => write!(f, "out of memory"),
        }
    }
}

impl Error for LineFault {}
