ghost use Rattle.std.specs.Prelude.{◌≡◌, ◌+◌, ◌*◌, ◌/◌, ◌≤◌, ◌++◌, [], length, take, drop, replicate, OnOk, OnErr};
ghost use Rattle.wm_pages.specs.Over.{over};
ghost use Rattle.wm_pages.specs.Ranges.{touched};

use crate::ranges::{RANGE, Ranges, paint, paste, shift};
use ic_base::NoMemory;
use std::alloc::Global;
use std::marker::Model;

/// The bytes of a page.
pub const PAGE: usize = 65_536;

/// Bytes in pages, at most 256 of them, which can be undone. A message begins with `begin`; from
/// then on the first write to each range of 4,096 bytes that was there saves it. `undo` gives the
/// bytes of the beginning back.
#[derive(Debug)]
pub struct Pages {
    bytes: Vec<u8>,
    ranges: Ranges,
}

// Not derived, so that it is proved here and not in each crate that drops one.
impl Drop for Pages {
    fn drop(self) {
        let Pages {
            bytes: _bytes,
            ranges: _ranges,
        } = self;
    }
}

impl Model for Pages {
    ghost use Rattle.std.specs.Prelude.{length};
    ghost use Rattle.wm_pages.specs.Paged.{Paged};

    ghost Value = { Paged };

    ghost use Rattle.wm_pages.specs.Ranges.{IsUndoable, bytes_before};

    ghost view = { λ p. record { bytes = p.bytes.items; before = bytes_before p.ranges p.bytes.items; saved = length p.ranges.kept.items } };

    ghost invariant = { λ p. IsUndoable p.bytes.items p.ranges };
}

impl Pages {
    /// No page. It takes no memory; the allocator serves the later calls.
    pub fn new(alloc: Global) -> Pages
        ensures bytes { result.bytes ≡ [] }
        ensures before { result.before ≡ [] }
        ensures saved { result.saved ≡ 0 }
    {
        Pages {
            bytes: Vec::new(alloc),
            ranges: Ranges::new(alloc),
        }
    }

    /// The bytes.
    pub fn as_slice(&self) -> &[u8]
        ensures { result.now ≡ self.now.bytes }
    {
        self.bytes.as_slice()
    }

    /// The number of pages.
    pub fn pages(&self) -> usize
        ensures pages { result ≡ length self.now.bytes / 65536 }
        ensures whole { 65536 * result ≡ length self.now.bytes }
        ensures few { result ≤ 256 }
    {
        self.bytes.len() / PAGE
    }

    /// How many ranges the message has saved.
    pub fn saved(&self) -> usize
        ensures saved { result ≡ self.now.saved }
        ensures few { result ≤ 4096 }
    {
        self.ranges.kept.len()
    }

    /// Writes the source over the bytes from a place on. Memory for the ranges that this saves is
    /// taken before it.
    #[tactic(auto, using(crate::proofs::Steps::none_begun))]
    pub fn write(&mut self, at: usize, source: &[u8]) -> Result<(), NoMemory>
        requires { at + length source.now ≤ length self.old.bytes }
        ensures bytes { OnOk result (self.new.bytes ≡ over at source.now self.old.bytes) }
        ensures refused { OnErr result (self.new.bytes ≡ self.old.bytes) }
        ensures before { self.new.before ≡ self.old.before }
        ensures saved { self.new.saved ≤ self.old.saved + touched at (length source.now) }
        ensures rises { self.old.saved ≤ self.new.saved }
        ensures idle { self.old.before ≡ [] → self.new.saved ≡ self.old.saved }
    {
        self.ranges.save(self.bytes.as_slice(), at, source.len())?;
        paste(self.bytes.as_mut_slice(), at, source);
        Ok(())
    }

    /// Copies that many bytes from one place to another, as if they were read first. Memory for the
    /// ranges that this saves is taken before it.
    #[tactic(auto, using(crate::proofs::Steps::none_begun))]
    pub fn copy_within(&mut self, to: usize, from: usize, size: usize) -> Result<(), NoMemory>
        requires source { from + size ≤ length self.old.bytes }
        requires target { to + size ≤ length self.old.bytes }
        ensures bytes { OnOk result (self.new.bytes ≡ over to (take size (drop from self.old.bytes)) self.old.bytes) }
        ensures refused { OnErr result (self.new.bytes ≡ self.old.bytes) }
        ensures before { self.new.before ≡ self.old.before }
        ensures saved { self.new.saved ≤ self.old.saved + touched to size }
        ensures rises { self.old.saved ≤ self.new.saved }
        ensures idle { self.old.before ≡ [] → self.new.saved ≡ self.old.saved }
    {
        self.ranges.save(self.bytes.as_slice(), to, size)?;
        shift(self.bytes.as_mut_slice(), to, from, size);
        Ok(())
    }

    /// Writes one byte to that many places. Memory for the ranges that this saves is taken before it.
    #[tactic(auto, using(crate::proofs::Steps::none_begun))]
    pub fn fill(&mut self, at: usize, byte: u8, size: usize) -> Result<(), NoMemory>
        requires { at + size ≤ length self.old.bytes }
        ensures bytes { OnOk result (self.new.bytes ≡ over at (replicate size byte) self.old.bytes) }
        ensures refused { OnErr result (self.new.bytes ≡ self.old.bytes) }
        ensures before { self.new.before ≡ self.old.before }
        ensures saved { self.new.saved ≤ self.old.saved + touched at size }
        ensures rises { self.old.saved ≤ self.new.saved }
        ensures idle { self.old.before ≡ [] → self.new.saved ≡ self.old.saved }
    {
        self.ranges.save(self.bytes.as_slice(), at, size)?;
        paint(self.bytes.as_mut_slice(), at, byte, size);
        Ok(())
    }

    /// Adds that many pages of zeros.
    pub fn grow(&mut self, more: usize) -> Result<(), NoMemory>
        requires { length self.old.bytes + 65536 * more ≤ 65536 * 256 }
        ensures bytes { OnOk result (self.new.bytes ≡ self.old.bytes ++ replicate (65536 * more) 0) }
        ensures refused { OnErr result (self.new.bytes ≡ self.old.bytes) }
        ensures before { self.new.before ≡ self.old.before }
        ensures saved { self.new.saved ≡ self.old.saved }
    {
        let len = self.bytes.len() + PAGE * more;
        self.ranges.make_room(len / RANGE)?;
        self.bytes.reserve_exact(PAGE * more)?;
        self.bytes.resize(len, 0)?;
        Ok(())
    }

    /// Begins a message: from here on the bytes can be undone. It takes no memory. Where a message has
    /// begun and saved nothing, it begins anew.
    pub fn begin(&mut self)
        requires { self.old.saved ≡ 0 }
        ensures bytes { self.new.bytes ≡ self.old.bytes }
        ensures before { self.new.before ≡ self.old.bytes }
        ensures saved { self.new.saved ≡ 0 }
    {
        self.ranges.start = self.bytes.len() / PAGE;
    }

    /// Keeps the bytes as they are, and drops what was saved.
    pub fn keep(&mut self)
        ensures bytes { self.new.bytes ≡ self.old.bytes }
        ensures before { self.new.before ≡ [] }
        ensures saved { self.new.saved ≡ 0 }
    {
        self.ranges.forget();
        self.ranges.start = 0;
    }

    /// Puts the bytes of the beginning back. It takes no memory. Where no message has begun there are
    /// none, so no byte is left.
    pub fn undo(&mut self)
        ensures bytes { self.new.bytes ≡ self.old.before }
        ensures before { self.new.before ≡ [] }
        ensures saved { self.new.saved ≡ 0 }
    {
        self.ranges.restore(self.bytes.as_mut_slice());
        self.bytes.truncate(PAGE * self.ranges.start);
        self.ranges.start = 0;
    }
}
