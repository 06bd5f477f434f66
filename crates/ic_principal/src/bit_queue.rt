ghost use Rattle.std.specs.Prelude.{◌≡◌, ℕ, ◌+◌, ◌^◌, ◌<◌, ◌≤◌, ◌↔◌, false, List, [], ◌++◌, length, replicate, IsTrue};
ghost use Rattle.ic_principal.specs.Bits.{bits_of};

use std::marker::Model;

/// A queue of up to 12 bits, first in and first out. Contracts see the bits.
#[derive(Drop)]
pub struct BitQueue {
    value: u16,
    count: u16,
}

impl Model for BitQueue {
    ghost use Rattle.std.specs.Prelude.{◌^◌, ◌<◌, ◌≤◌, Bool, List};
    ghost use Rattle.ic_principal.specs.Bits.{bits_of};

    ghost Value = { List Bool };

    ghost view = { λ q. bits_of q.count q.value };

    ghost invariant = { λ q. (q.count ≤ 12) × (q.value < 2 ^ q.count) };
}

impl BitQueue {
    pub fn new() -> BitQueue
        ensures { result ≡ [] }
    {
        BitQueue { value: 0, count: 0 }
    }

    pub fn len(&self) -> u16
        ensures value { result ≡ length self.now }
        ensures bound { result ≤ 12 }
    {
        self.count
    }

    /// Whether no bit is set.
    pub fn is_clear(&self) -> bool
        ensures { IsTrue result ↔ self.now ≡ replicate (length self.now) false }
    {
        self.value == 0
    }

    /// Appends the lowest `width` bits of `value`, from the highest of them down.
    pub fn push(&mut self, width: u16, value: u8)
        requires room { length self.old + width ≤ 12 }
        requires fits { value < 2 ^ width }
        ensures bits { self.new ≡ self.old ++ bits_of width value }
        ensures len { length self.new ≡ length self.old + width }
    {
        self.value = (self.value << width) | value as u16;
        self.count += width;
    }

    /// Takes the first `width` bits as a number, the first bit as its highest.
    pub fn pop(&mut self, width: u16) -> u8
        requires some { width ≤ length self.old }
        requires narrow { width ≤ 8 }
        ensures bits { self.old ≡ bits_of width result ++ self.new }
        ensures len { length self.old ≡ width + length self.new }
        ensures fits { result < 2 ^ width }
    {
        let rest = self.count - width;
        let first = self.value >> rest;
        self.value &= (1 << rest) - 1;
        self.count = rest;
        first as u8
    }
}
