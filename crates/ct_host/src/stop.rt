ghost use Rattle.std.specs.Prelude.{◌≡◌};
ghost use Rattle.ct_host.specs.Statuses.{status_after, status_of};

use crate::status::Status;
use ic_base::NoMemory;

/// Why a run of tests breaks off.
#[derive(Clone, Copy, Debug, PartialEq, Eq)]
pub(crate) enum Broken {
    WriteFault,
    NoMemory,
}

impl From<NoMemory> for Broken {
    ghost use Rattle.std.specs.Prelude.{◌≡◌};
    ghost use Rattle.ct_host.specs.declared.stop.Broken.TheVariants.{NoMemory};

    ghost from_gives = { λ _ broken. broken ≡ NoMemory };

    fn from(_: NoMemory) -> Broken {
        Broken::NoMemory
    }
}

impl Broken {
    pub(crate) fn status(self) -> Status
        ensures { result ≡ status_after self }
    {
        match self {
            Broken::WriteFault => Status::WriteFault,
            Broken::NoMemory => Status::NoMemory,
        }
    }
}

/// Why no test runs.
#[derive(Clone, Copy, Debug, PartialEq, Eq)]
pub(crate) enum Why {
    BadWords,
    Faulty,
    Unreadable,
}

impl Why {
    pub(crate) fn status(self) -> Status
        ensures { result ≡ status_of self }
    {
        match self {
            Why::BadWords => Status::BadWords,
            Why::Faulty => Status::Faulty,
            Why::Unreadable => Status::Unreadable,
        }
    }
}

/// Why no test runs, and the line of standard error that tells it.
#[derive(Drop)]
pub(crate) struct Told {
    pub(crate) why: Why,
    pub(crate) line: String,
}

/// Why the program ends early.
#[derive(Drop)]
pub(crate) enum Stop {
    Told(Told),
    Broken(Broken),
}

impl From<NoMemory> for Stop {
    ghost use Rattle.std.specs.Prelude.{◌≡◌};
    ghost use Rattle.ct_host.specs.declared.stop.Broken.TheVariants.{NoMemory};
    ghost use Rattle.ct_host.specs.declared.stop.Stop.TheVariants as stops;

    ghost from_gives = { λ _ stop. stop ≡ stops.Broken NoMemory };

    fn from(_: NoMemory) -> Stop {
        Stop::Broken(Broken::NoMemory)
    }
}
