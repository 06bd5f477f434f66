ghost use Rattle.std.specs.Prelude.{◌≢◌, Err};
ghost use Rattle.ic_script_runner.specs.Acts.{Concludes};
ghost use Rattle.ic_script_runner.specs.Sending.{Prints, sink_at};

use crate::status::Status;
use ic_outside::{Sink, send};

/// Prints bytes. It takes no memory.
pub fn print_bytes<K: Sink>(sink: &mut K, text: &[u8]) -> Result<(), Status>
    ensures printed { Prints (sink_at K.taken K.fits K.faults sink.old)
        (sink_at K.taken K.fits K.faults sink.new) text.now result }
    ensures no_memory_taken { result ≢ Err Status.NoMemory }
{
    match send(sink, text) {
        Ok(()) => Ok(()),
        Err(_) => Err(Status::WriteFault),
    }
}

/// Prints all that a run prints, and answers the status. It takes no memory.
pub fn print_last<K: Sink>(sink: &mut K, text: &[u8], status: Status) -> Status
    ensures { Concludes (sink_at K.taken K.fits K.faults sink.old) (sink_at K.taken K.fits K.faults sink.new)
        (record { bytes = text.now; status = status }) result }
{
    match print_bytes(sink, text) {
        Ok(()) => status,
        Err(fault) => fault,
    }
}
