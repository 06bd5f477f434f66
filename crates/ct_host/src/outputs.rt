ghost use Rattle.std.specs.Prelude.{◌≡◌, ◌≢◌, Err, OnOk, string_bytes};
ghost use Rattle.std.specs.Io.KnownBytes.{append_known};
ghost use Rattle.ct_host.specs.declared.status.Status.TheVariants.{WriteFault};
ghost use Rattle.ct_host.specs.declared.stop.Stop.TheVariants as stops;
ghost use Rattle.ct_host.specs.declared.stop.Told.{Told as ATold};
ghost use Rattle.ct_host.specs.Ends.{Concludes, faults_after};

use crate::status::Status;
use crate::stop::{Broken, Stop};
use ic_base::NoMemory;
use ic_outside::{Sink, send};
use ic_principal::{Bytes, Text};
use std::alloc::Global;

/// Takes the cursor of a terminal to the begin of its line, and clears that.
const CLEARED: &str = "\r\x1b[K";

/// The two outputs of the program. On a terminal `err` tells which test runs.
#[derive(Drop)]
pub struct Outputs<K: Drop, E: Drop> {
    pub out: K,
    pub err: E,
    pub is_terminal: bool,
}

impl<K: Sink + Drop, E: Sink + Drop> Outputs<K, E> {
    /// Prints what the program is for.
    pub(crate) fn print(&mut self, text: &Bytes) -> Result<(), Broken>
        ensures printed { OnOk result (K.taken self.new.out ≡ append_known (K.taken self.old.out) text.now) }
        ensures counted { K.faults self.new.out ≡ faults_after (K.faults self.old.out) result }
    {
        match send(&mut self.out, &text.items) {
            Ok(()) => Ok(()),
            Err(_) => Err(Broken::WriteFault),
        }
    }

    /// Shows which test runs, until `clear`. That it cannot be written changes nothing.
    pub(crate) fn show(
        &mut self,
        alloc: Global,
        number: usize,
        tests: usize,
        name: &Text,
    ) -> Result<(), NoMemory>
        ensures { self.new.out ≡ self.old.out }
    {
        if self.is_terminal {
            let name = name.items.as_str();
            let line = format!(in alloc; "{CLEARED}{number} of {tests}: {name}")?;
            let _ = send(&mut self.err, line.as_bytes());
        }
        Ok(())
    }

    /// Clears what is shown.
    pub(crate) fn clear(&mut self)
        ensures { self.new.out ≡ self.old.out }
    {
        if self.is_terminal {
            let _ = send(&mut self.err, CLEARED.as_bytes());
        }
    }

    /// Ends the program: where no test ran, `err` is told why.
    pub(crate) fn conclude(&mut self, ended: Result<Status, Stop>) -> Status
        ensures out { self.new.out ≡ self.old.out }
        ensures status { Concludes (E.faults self.old.err) (E.faults self.new.err) ended result }
        ensures told { (told : ATold) → ended ≡ Err (stops.Told told) → result ≢ WriteFault
            → E.taken self.new.err ≡ append_known (E.taken self.old.err) (string_bytes told.line) }
    {
        match ended {
            Ok(status) => status,
            Err(Stop::Broken(broken)) => broken.status(),
            Err(Stop::Told(told)) => match send(&mut self.err, told.line.as_bytes()) {
                Ok(()) => told.why.status(),
                Err(_) => Status::WriteFault,
            },
        }
    }
}
