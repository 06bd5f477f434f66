ghost use Rattle.std.specs.Prelude.{◌≡◌, ◌<◌, ◌≤◌, ◌^◌, ℕ, List, [], Option, Some, Ok, Err, length, IfOk, IfSome, if◌then◌else◌};
ghost use Rattle.std.specs.Io.KnownBytes.{append_known};
ghost use Rattle.ic_outside.specs.Faults.{capped, count_after};
ghost use Rattle.ic_outside.specs.Given.{bytes_moved};
ghost use Rattle.ic_outside.specs.Reading.{IsSure};
ghost use Rattle.ic_outside.specs.Writing.{count_moved, room_before};
ghost use Rattle.ic_outside.specs.MemoryWriter.{write_fails, write_size, after_write, room_without_faults};

use crate::{Failed, Sink};
use ic_base::NoMemory;
use std::alloc::Global;
use std::marker::Model;

/// A sink that keeps bytes in memory, which can be told to take them in small pieces and to fail at
/// chosen writes.
#[derive(Drop)]
pub struct MemorySink {
    bytes: Vec<u8>,
    room: usize,
    piece: usize,
    failing: Vec<u64>,
    writes: u64,
    faults: u64,
}

impl Model for MemorySink {
    ghost use Rattle.std.specs.Prelude.{◌+◌, ◌<◌, ◌≤◌, vec_len, vec_capacity};
    ghost use Rattle.ic_outside.specs.MemoryWriter.{MemoryWriter};

    ghost Value = { MemoryWriter };

    ghost view = { λ s. record {
      taken = s.bytes.items;
      room = s.room;
      piece = s.piece;
      failing = s.failing.items;
      writes = s.writes;
      faults = s.faults;
    } };

    ghost invariant = { λ s. (vec_len s.bytes + s.room ≤ vec_capacity s.bytes) × (0 < s.piece) };
}

impl MemorySink {
    /// A sink with room for that many bytes, whose memory is taken here. A write takes at most
    /// `piece` bytes, and the writes whose numbers, counted from 1, are in `failing` fail. Every
    /// write after the one with number 2^64-1 bears that number too.
    pub fn new(
        alloc: Global,
        room: usize,
        piece: usize,
        failing: Vec<u64>,
    ) -> Result<MemorySink, NoMemory>
        requires { 0 < piece }
        ensures { IfOk result (λ sink. sink ≡ record {
          taken = [];
          room = room;
          piece = piece;
          failing = failing.items;
          writes = 0;
          faults = 0;
        }) }
    {
        Ok(MemorySink {
            bytes: Vec::with_capacity(alloc, room)?,
            room,
            piece,
            failing,
            writes: 0,
            faults: 0,
        })
    }

    /// The bytes taken so far.
    pub fn taken(&self) -> &[u8]
        ensures { result.now ≡ self.now.taken }
    {
        &self.bytes
    }
}

impl Sink for MemorySink {
    ghost use Rattle.std.specs.Prelude.{Some};
    ghost use Rattle.std.proofs.Common.{arith};

    ghost taken = { λ s. Some s.taken };

    ghost faults = { λ s. capped s.faults };

    ghost fits = { room_without_faults };

    ghost faults_fit = { λ s. Prim.omega arith };

    fn write(&mut self, piece: &[u8]) -> Result<usize, Failed>
        ensures bound { IfOk result (λ n. n ≤ length piece.now) }
        ensures some { IfOk result (λ n. 0 < length piece.now → 0 < n) }
        ensures appended { Some self.new.taken ≡ append_known (Some self.old.taken) (bytes_moved result piece.now) }
        ensures counted { capped self.new.faults ≡ count_after (capped self.old.faults) result }
        ensures room { room_without_faults self.old ≡ room_before (count_moved result) (room_without_faults self.new) }
        ensures fitting { IfSome (room_without_faults self.old) (λ room. (0 < length piece.now → 0 < room)
            → IsSure (capped self.old.faults) (capped self.new.faults) result) }
        // It fails exactly at the writes whose numbers are in the list, and where no room is left.
        ensures exact { result ≡ (if write_fails self.old piece.now then Err (record {})
            else Ok (write_size self.old piece.now)) }
        ensures after { self.new ≡ after_write self.old piece.now }
    {
        self.writes = self.writes.saturating_add(1);
        let full = self.room == 0 && !piece.is_empty();
        if full || self.failing.contains(&self.writes) {
            self.faults = self.faults.saturating_add(1);
            return Err(Failed);
        }
        let count = self.piece.min(piece.len()).min(self.room);
        match self.bytes.extend_from_slice(&piece[..count]) {
            Ok(()) => {}
            Err(_) => unreachable!(),
        }
        self.room -= count;
        Ok(count)
    }
}
