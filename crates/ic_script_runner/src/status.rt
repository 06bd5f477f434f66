ghost use Rattle.std.specs.Prelude.{◌≡◌};
ghost use Rattle.std.specs.Process.{exit_status};
ghost use Rattle.ic_script_runner.specs.Status.{code_of};

use ic_outside::LineFault;
use ic_script::LineCause;
use std::process::ExitCode;

/// How a call of `replica` ended.
#[derive(Clone, Copy, Debug, PartialEq, Eq)]
pub enum Status {
    /// The script was read to its end, and all was written.
    Done,
    /// The words are refused, and the usage line was written.
    BadWords,
    /// The line of this number, from 1, is the first bad one, and all was written.
    BadLine { line: u64, cause: LineCause },
    /// The source failed. What the whole lines read print was written.
    ReadFault,
    /// The sink failed. It has taken a front of the output.
    WriteFault,
    /// Out of memory. The sink has taken a front of the output.
    NoMemory,
}

impl Status {
    /// The exit status of a program that ends so.
    pub fn code(&self) -> u8
        ensures { result ≡ code_of self.now }
    {
        match self {
            Status::Done => 0,
            Status::BadWords => 2,
            Status::BadLine { .. } => 3,
            Status::ReadFault => 4,
            Status::WriteFault => 5,
            Status::NoMemory => 6,
        }
    }

    /// The code, as `main` answers it.
    pub fn exit_code(&self) -> ExitCode
        ensures { exit_status result ≡ code_of self.now }
    {
        ExitCode::from(self.code())
    }
}

impl From<LineFault> for Status {
    ghost use Rattle.std.specs.Prelude.{◌≡◌};
    ghost use Rattle.ic_script_runner.specs.Acts.{status_of};

    ghost from_gives = { λ fault status. status ≡ status_of fault };

    fn from(fault: LineFault) -> Status {
        match fault {
            LineFault::LineTooLong { line } => Status::BadLine {
                line,
                cause: LineCause::LineTooLong,
            },
            LineFault::ScriptTooLong { line } => Status::BadLine {
                line,
                cause: LineCause::ScriptTooLong,
            },
            LineFault::ReadFault => Status::ReadFault,
            LineFault::NoMemory => Status::NoMemory,
        }
    }
}
