ghost use Rattle.std.specs.Prelude.{◌≡◌, ◌<◌, ◌≤◌, ◌^◌, ℕ, List, Option, None, Ok, Err, length, IfOk, IfSome};
ghost use Rattle.std.specs.Io.KnownBytes.{append_known};
ghost use Rattle.ic_outside.specs.Faults.{capped, count_after};
ghost use Rattle.ic_outside.specs.Given.{bytes_moved};
ghost use Rattle.ic_outside.specs.Reading.{IsSure};
ghost use Rattle.ic_outside.specs.Writing.{count_moved, room_before};
ghost use Rattle.ic_outside.specs.Inner.{PassedOn};
ghost use Rattle.ic_outside.specs.StdEnds.{std_writer, sink_faults};

use crate::{Failed, Sink};
use std::io::Write;

/// A sink over a standard writer, flushed after each write. It tells nothing of what was taken.
#[derive(Drop)]
pub struct StdSink<W> {
    writer: W,
    faults: u64,
}

impl<W: Write> StdSink<W> {
    /// A sink over this writer, without a fault so far.
    pub fn new(writer: W) -> StdSink<W>
        ensures writer { std_writer result ≡ writer }
        ensures faults { sink_faults result ≡ 0 }
    {
        StdSink { writer, faults: 0 }
    }

    // Writes and flushes: how many bytes the writer took, at least one where there is one.
    fn pass_on(&mut self, piece: &[u8]) -> Result<usize, Failed>
        ensures bound { IfOk result (λ n. n ≤ length piece.now) }
        ensures some { IfOk result (λ n. 0 < length piece.now → 0 < n) }
        ensures inner { PassedOn (W.contents (std_writer self.old)) (W.contents (std_writer self.new)) result piece.now }
        ensures faults { sink_faults self.new ≡ sink_faults self.old }
    {
        match self.writer.write(piece) {
            Ok(count) if count > 0 || piece.is_empty() => match self.writer.flush() {
                Ok(()) => Ok(count),
                Err(_) => Err(Failed),
            },
            _ => Err(Failed),
        }
    }
}

impl<W: Write> Sink for StdSink<W> {
    ghost use Rattle.std.proofs.Common.{arith};
    ghost use Rattle.ic_outside.specs.Faults.{capped};

    ghost taken = { λ _. None };

    ghost faults = { λ s. capped (sink_faults s) };

    ghost fits = { λ _. None };

    ghost faults_fit = { λ s. Prim.omega arith };

    fn write(&mut self, piece: &[u8]) -> Result<usize, Failed>
        ensures bound { IfOk result (λ n. n ≤ length piece.now) }
        ensures some { IfOk result (λ n. 0 < length piece.now → 0 < n) }
        ensures appended { None ≡ append_known None (bytes_moved result piece.now) }
        ensures counted { capped (sink_faults self.new) ≡ count_after (capped (sink_faults self.old)) result }
        ensures room { None ≡ room_before (count_moved result) None }
        ensures fitting { IfSome None (λ room. (0 < length piece.now → 0 < room)
            → IsSure (capped (sink_faults self.old)) (capped (sink_faults self.new)) result) }
        // The count rises exactly where the call fails.
        ensures count { sink_faults self.new ≡ count_after (sink_faults self.old) result }
        // What is said to be taken the inner writer has taken.
        ensures inner { PassedOn (W.contents (std_writer self.old)) (W.contents (std_writer self.new)) result piece.now }
    {
        let passed = self.pass_on(piece);
        if passed.is_err() {
            self.faults = self.faults.saturating_add(1);
        }
        passed
    }
}
