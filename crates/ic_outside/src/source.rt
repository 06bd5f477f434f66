ghost use Rattle.std.specs.Prelude.{◌≡◌, ◌||◌, ◌<◌, ◌^◌, ℕ, List, Bool, Option, IsTrue, length, IfOk};
ghost use Rattle.std.specs.Io.{ReadsAtMost};
ghost use Rattle.std.specs.Io.KnownBytes.{prepend_known, IsAtEnd};
ghost use Rattle.ic_outside.specs.Faults.{count_after};
ghost use Rattle.ic_outside.specs.Given.{bytes_moved, gives_end};
ghost use Rattle.ic_outside.specs.Reading.{IsSure};

use crate::Failed;

/// Where bytes come from.
pub trait Source {
    // The bytes left, where the source tells them. Whether it tells them never changes.
    ghost left: { Self → Option (List ℕ) };

    // A count of faults: one more for each read that fails, up to 2^64-1.
    ghost faults: { Self → ℕ };

    // No read will fail.
    ghost cannot_fail: { Self → Type 0 };

    // A read into a buffer that was not empty gave nothing.
    ghost ended: { Self → Bool };

    /// Takes bytes from the source and puts them at the buffer's front; how many. `Ok(0)` for a
    /// buffer that is not empty is the end. A read that fails takes nothing.
    fn read(&mut self, buffer: &mut [u8]) -> Result<usize, Failed>
        ensures bound { ReadsAtMost result buffer.new }
        ensures taken { left self.old ≡ prepend_known (bytes_moved result buffer.new) (left self.new) }
        ensures at_end { IfOk result (λ n. n ≡ 0 → 0 < length buffer.new → IsAtEnd (left self.new)) }
        ensures ended { ended self.new ≡ (ended self.old || gives_end result buffer.new) }
        ensures counted { faults self.new ≡ count_after (faults self.old) result }
        ensures sure { cannot_fail self.old → cannot_fail self.new × IsSure (faults self.old) (faults self.new) result };

    // A law: the count fits 64 bits.
    ghost faults_fit: { (source : Self) → faults source < 2 ^ 64 };
}
