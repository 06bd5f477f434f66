ghost use Rattle.std.specs.Prelude.{◌≡◌, [], ◌||◌, ◌<◌, ◌≤◌, false, Some, Ok, Err, length, take, IfOk, if◌then◌else◌};
ghost use Rattle.std.specs.Io.{ReadsAtMost};
ghost use Rattle.std.specs.Io.KnownBytes.{prepend_known, IsAtEnd};
ghost use Rattle.ic_outside.specs.Faults.{capped, count_after};
ghost use Rattle.ic_outside.specs.Given.{bytes_moved, gives_end};
ghost use Rattle.ic_outside.specs.Reading.{IsSure};
ghost use Rattle.ic_outside.specs.MemoryReader.{read_fails, read_size, after_read};

use crate::kept::Kept;
use crate::{Failed, Source};
use std::marker::Model;

/// A source over bytes in memory, which can be told to give them in small pieces and to fail at
/// chosen reads.
#[derive(Drop)]
pub struct MemorySource {
    left: Kept,
    piece: usize,
    failing: Vec<u64>,
    reads: u64,
    faults: u64,
    ended: bool,
}

impl Model for MemorySource {
    ghost use Rattle.std.specs.Prelude.{◌<◌};
    ghost use Rattle.ic_outside.specs.MemoryReader.{MemoryReader};

    ghost Value = { MemoryReader };

    ghost view = { λ s. record {
      left = s.left;
      piece = s.piece;
      failing = s.failing.items;
      reads = s.reads;
      faults = s.faults;
      ended = s.ended;
    } };

    ghost invariant = { λ s. 0 < s.piece };
}

impl MemorySource {
    /// A source of these bytes. A read gives at most `piece` of them, and the reads whose numbers,
    /// counted from 1, are in `failing` fail. Every read after the one with number 2^64-1 bears
    /// that number too.
    pub fn new(bytes: Vec<u8>, piece: usize, failing: Vec<u64>) -> MemorySource
        requires { 0 < piece }
        ensures { result ≡ record {
          left = bytes.items;
          piece = piece;
          failing = failing.items;
          reads = 0;
          faults = 0;
          ended = false;
        } }
    {
        MemorySource {
            left: Kept::from_vec(bytes),
            piece,
            failing,
            reads: 0,
            faults: 0,
            ended: false,
        }
    }
}

impl Source for MemorySource {
    ghost use Rattle.std.specs.Prelude.{◌≡◌, [], Some};
    ghost use Rattle.std.proofs.Common.{arith};

    ghost left = { λ s. Some s.left };

    ghost faults = { λ s. capped s.faults };

    ghost cannot_fail = { λ s. s.failing ≡ [] };

    ghost ended = { λ s. s.ended };

    ghost faults_fit = { λ s. Prim.omega arith };

    fn read(&mut self, buffer: &mut [u8]) -> Result<usize, Failed>
        ensures bound { ReadsAtMost result buffer.new }
        ensures taken { Some self.old.left ≡ prepend_known (bytes_moved result buffer.new) (Some self.new.left) }
        ensures at_end { IfOk result (λ n. n ≡ 0 → 0 < length buffer.new → IsAtEnd (Some self.new.left)) }
        ensures ended { self.new.ended ≡ (self.old.ended || gives_end result buffer.new) }
        ensures counted { capped self.new.faults ≡ count_after (capped self.old.faults) result }
        ensures sure { self.old.failing ≡ []
            → (self.new.failing ≡ []) × IsSure (capped self.old.faults) (capped self.new.faults) result }
        // It fails exactly at the reads whose numbers are in the list.
        ensures exact { result ≡ (if read_fails self.old then Err (record {})
            else Ok (read_size self.old (length buffer.old))) }
        ensures after { self.new ≡ after_read self.old (length buffer.old) }
    {
        self.reads = self.reads.saturating_add(1);
        if self.failing.contains(&self.reads) {
            self.faults = self.faults.saturating_add(1);
            return Err(Failed);
        }
        let left = self.left.as_slice();
        let count = self.piece.min(buffer.len()).min(left.len());
        copy_front(left, buffer, count);
        self.left.take(count);
        if count == 0 && !buffer.is_empty() {
            self.ended = true;
        }
        Ok(count)
    }
}

fn copy_front(from: &[u8], to: &mut [u8], count: usize)
    requires source { count ≤ length from.now }
    requires target { count ≤ length to.old }
    ensures { take count to.new ≡ take count from.now }
{
    to[..count].copy_from_slice(&from[..count]);
}
