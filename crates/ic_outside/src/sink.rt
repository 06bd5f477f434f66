ghost use Rattle.std.specs.Prelude.{◌≡◌, ◌<◌, ◌≤◌, ◌^◌, ℕ, List, Option, length, IfOk, IfSome};
ghost use Rattle.std.specs.Io.KnownBytes.{append_known};
ghost use Rattle.ic_outside.specs.Faults.{count_after};
ghost use Rattle.ic_outside.specs.Given.{bytes_moved};
ghost use Rattle.ic_outside.specs.Reading.{IsSure};
ghost use Rattle.ic_outside.specs.Writing.{count_moved, room_before};

use crate::Failed;

/// Where bytes go.
pub trait Sink {
    // The bytes taken so far, where the sink tells them. Whether it tells them never changes.
    ghost taken: { Self → Option (List ℕ) };

    // A count of faults: one more for each write that fails, up to 2^64-1.
    ghost faults: { Self → ℕ };

    // How many bytes the sink still takes without a fault, where it tells this. Whether it tells it
    // never changes.
    ghost fits: { Self → Option ℕ };

    /// Takes a front of the piece, one byte at least where there is one; how many. A write that
    /// fails takes nothing.
    fn write(&mut self, piece: &[u8]) -> Result<usize, Failed>
        ensures bound { IfOk result (λ n. n ≤ length piece.now) }
        ensures some { IfOk result (λ n. 0 < length piece.now → 0 < n) }
        ensures appended { taken self.new ≡ append_known (taken self.old) (bytes_moved result piece.now) }
        ensures counted { faults self.new ≡ count_after (faults self.old) result }
        ensures room { fits self.old ≡ room_before (count_moved result) (fits self.new) }
        // Where room is left, or there is nothing to write, it does not fail.
        ensures fitting { IfSome (fits self.old) (λ room. (0 < length piece.now → 0 < room)
            → IsSure (faults self.old) (faults self.new) result) };

    // A law: the count fits 64 bits.
    ghost faults_fit: { (sink : Self) → faults sink < 2 ^ 64 };
}
