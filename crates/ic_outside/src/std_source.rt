ghost use Rattle.std.specs.Prelude.{◌≡◌, ◌||◌, ◌<◌, ◌^◌, ℕ, List, Bool, false, Option, None, Ok, Err, IsTrue, length, IfOk};
ghost use Rattle.std.specs.Io.{ReadsAtMost};
ghost use Rattle.std.specs.Io.KnownBytes.{prepend_known, IsAtEnd, ReadConsumes};
ghost use Rattle.ic_outside.specs.Faults.{capped, count_after};
ghost use Rattle.ic_outside.specs.Given.{bytes_moved, gives_end};
ghost use Rattle.ic_outside.specs.Reading.{IsSure};
ghost use Rattle.ic_outside.specs.StdEnds.{std_reader, source_faults, source_ended};

use crate::{Failed, Source};
use std::io::Read;

/// A source over a standard reader. It tells nothing of what is left.
#[derive(Drop)]
pub struct StdSource<R> {
    reader: R,
    faults: u64,
    ended: bool,
}

impl<R: Read> StdSource<R> {
    /// A source over this reader, without a fault so far.
    pub fn new(reader: R) -> StdSource<R>
        ensures reader { std_reader result ≡ reader }
        ensures faults { source_faults result ≡ 0 }
        ensures ended { source_ended result ≡ false }
    {
        StdSource {
            reader,
            faults: 0,
            ended: false,
        }
    }
}

impl<R: Read> Source for StdSource<R> {
    ghost use Rattle.std.proofs.Common.{arith};
    ghost use Rattle.ic_outside.specs.Faults.{capped};

    ghost left = { λ _. None };

    ghost faults = { λ s. capped (source_faults s) };

    ghost cannot_fail = { λ _. ⊥ };

    ghost ended = { source_ended };

    ghost faults_fit = { λ s. Prim.omega arith };

    fn read(&mut self, buffer: &mut [u8]) -> Result<usize, Failed>
        ensures bound { ReadsAtMost result buffer.new }
        ensures taken { None ≡ prepend_known (bytes_moved result buffer.new) None }
        ensures at_end { IfOk result (λ n. n ≡ 0 → 0 < length buffer.new → IsAtEnd None) }
        ensures ended { source_ended self.new ≡ (source_ended self.old || gives_end result buffer.new) }
        ensures counted { capped (source_faults self.new) ≡ count_after (capped (source_faults self.old)) result }
        ensures sure { ⊥
            → ⊥ × IsSure (capped (source_faults self.old)) (capped (source_faults self.new)) result }
        // The count rises exactly where the call fails.
        ensures count { source_faults self.new ≡ count_after (source_faults self.old) result }
        // What the inner reader gave was handed on.
        ensures inner { ReadConsumes (R.remaining (std_reader self.old)) (R.remaining (std_reader self.new)) result buffer.new }
    {
        match self.reader.read(buffer) {
            Ok(count) => {
                if count == 0 && !buffer.is_empty() {
                    self.ended = true;
                }
                Ok(count)
            }
            Err(_) => {
                self.faults = self.faults.saturating_add(1);
                Err(Failed)
            }
        }
    }
}
