ghost use Rattle.std.specs.Prelude.{◌≡◌, ◌≤◌, [], length, IfSome, OnOk, OnErr};
ghost use Rattle.std.specs.Io.KnownBytes.{append_known};
ghost use Rattle.ic_outside.specs.Faults.{count_after};
ghost use Rattle.ic_outside.specs.Given.{TookFront};
ghost use Rattle.ic_outside.specs.Reading.{IsSure};
ghost use Rattle.ic_outside.specs.Writing.{room_before};

use crate::{Sink, WriteFault};

/// Writes all the bytes to the sink, in as many writes as it takes, and takes no memory. Where a
/// write fails the sink has taken a front of the bytes.
pub fn send<K: Sink>(sink: &mut K, bytes: &[u8]) -> Result<(), WriteFault>
    ensures all { OnOk result (K.taken sink.new ≡ append_known (K.taken sink.old) bytes.now) }
    ensures room { OnOk result (K.fits sink.old ≡ room_before (length bytes.now) (K.fits sink.new)) }
    ensures front { OnErr result
        (TookFront (K.taken sink.old) (K.taken sink.new) (K.fits sink.old) (K.fits sink.new) bytes.now) }
    ensures counted { K.faults sink.new ≡ count_after (K.faults sink.old) result }
    ensures fitting { IfSome (K.fits sink.old) (λ room. length bytes.now ≤ room
        → IsSure (K.faults sink.old) (K.faults sink.new) result) }
    ensures nothing { bytes.now ≡ [] → sink.new ≡ sink.old }
{
    let mut rest = bytes;
    while !rest.is_empty() {
        match sink.write(rest) {
            Ok(n) => rest = &rest[n..],
            Err(_) => return Err(WriteFault),
        }
    }
    Ok(())
}
