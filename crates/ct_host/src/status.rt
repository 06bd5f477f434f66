ghost use Rattle.std.specs.Prelude.{◌≡◌};
ghost use Rattle.std.specs.Process.{exit_status};
ghost use Rattle.ct_host.specs.Statuses.{code_of};

use std::process::ExitCode;

/// How the program ended.
#[derive(Clone, Copy, Debug, PartialEq, Eq)]
pub enum Status {
    /// All tests passed, or a script was printed.
    Passed,
    /// A test failed or was not decided.
    Failed,
    /// The words are refused, or no test is meant by them.
    BadWords,
    /// A test file is faulty, or a file that it names.
    Faulty,
    /// A file could not be read.
    Unreadable,
    WriteFault,
    NoMemory,
}

impl Status {
    /// The exit status of a program that ends so.
    pub fn code(self) -> u8
        ensures { result ≡ code_of self }
    {
        match self {
            Status::Passed => 0,
            Status::Failed => 1,
            Status::BadWords => 2,
            Status::Faulty => 3,
            Status::Unreadable => 4,
            Status::WriteFault => 5,
            Status::NoMemory => 6,
        }
    }

    /// The code, as `main` answers it.
    pub fn exit_code(self) -> ExitCode
        ensures { exit_status result ≡ code_of self }
    {
        ExitCode::from(self.code())
    }
}
