ghost use Rattle.std.specs.Prelude.{◌≡◌, ℕ, ◌+◌, ◌*◌, ◌/◌, ◌<◌, ◌≤◌, true, false, [], length, take, drop, replicate, IfOk, OnOk, slice_index_or};
ghost use Rattle.wm_pages.specs.Over.{over};

use ic_base::NoMemory;
use std::alloc::Global;

/// The bytes of a range.
pub const RANGE: usize = 4_096;

/// How many freed ranges are held for later messages.
const SPARE: usize = 128;

/// A range as it was at the beginning of the message. `range` is its number.
#[derive(Debug, Drop)]
pub struct Kept {
    pub range: usize,
    pub bytes: Vec<u8>,
}

/// The ranges that a message saved.
#[derive(Debug, Drop)]
pub struct Ranges {
    /// The one saved last is last.
    pub kept: Vec<Kept>,
    /// Whether a range is saved, one for each range.
    pub marks: Vec<bool>,
    /// How many pages there were at the beginning; 0 where no message has begun.
    pub start: usize,
    /// Lists of freed ranges, for later ones.
    pub spare: Vec<Vec<u8>>,
}

/// Writes the source over the bytes from a place on.
pub fn paste(bytes: &mut [u8], at: usize, source: &[u8])
    requires { at + length source.now ≤ length bytes.old }
    ensures { bytes.new ≡ over at source.now bytes.old }
{
    bytes[at..at + source.len()].copy_from_slice(source);
}

/// Copies that many bytes from one place to another, as if they were read first.
pub fn shift(bytes: &mut [u8], to: usize, from: usize, size: usize)
    requires source { from + size ≤ length bytes.old }
    requires target { to + size ≤ length bytes.old }
    ensures { bytes.new ≡ over to (take size (drop from bytes.old)) bytes.old }
{
    bytes.copy_within(from..from + size, to);
}

/// Writes one byte to that many places.
pub fn paint(bytes: &mut [u8], at: usize, byte: u8, size: usize)
    requires { at + size ≤ length bytes.old }
    ensures { bytes.new ≡ over at (replicate size byte) bytes.old }
{
    bytes[at..at + size].fill(byte);
}

/// Copies a range, where it can into a list that is held.
fn copied(alloc: Global, spare: &mut Vec<Vec<u8>>, range: &[u8]) -> Result<Vec<u8>, NoMemory>
    ensures { IfOk result (λ copy. copy.items ≡ range.now) }
{
    let mut copy = spare.pop().unwrap_or(Vec::new(alloc));
    copy.clear();
    copy.extend_from_slice(range)?;
    Ok(copy)
}

/// Holds the list of a range for a later one, where there is room for it. It takes no memory.
fn hold(spare: &mut Vec<Vec<u8>>, kept: Kept) {
    let Kept { range: _, bytes } = kept;
    if spare.len() < spare.capacity() {
        let _ = spare.push(bytes);
    }
}

impl Ranges {
    ghost use Rattle.wm_pages.specs.Ranges.{AreSaved, IsUndoable, covers, bytes_before, touched};

    /// No range, of no pages.
    pub fn new(alloc: Global) -> Ranges
        ensures sound { IsUndoable [] result }
        ensures kept { result.kept.items ≡ [] }
        ensures start { result.start ≡ 0 }
    {
        Ranges {
            kept: Vec::new(alloc),
            marks: Vec::new(alloc),
            start: 0,
            spare: Vec::new(alloc),
        }
    }

    /// Saves a range that was there at the beginning and is not saved.
    #[cold]
    fn keep_range(&mut self, bytes: &[u8], range: usize) -> Result<(), NoMemory>
        requires sound { IsUndoable bytes.now self.old }
        requires older { range < 16 * self.old.start }
        requires unmarked { slice_index_or self.old.marks.items range false ≡ false }
        ensures sound { IsUndoable bytes.now self.new }
        ensures start { self.new.start ≡ self.old.start }
        ensures before { bytes_before self.new bytes.now ≡ bytes_before self.old bytes.now }
        ensures few { length self.new.kept.items ≤ length self.old.kept.items + 1 }
        ensures rises { length self.old.kept.items ≤ length self.new.kept.items }
        ensures covered { OnOk result (covers self.new.kept.items range ≡ true) }
        ensures stays { (r : ℕ) → covers self.old.kept.items r ≡ true → covers self.new.kept.items r ≡ true }
    {
        let at = RANGE * range;
        let alloc = *self.kept.allocator();
        let copy = copied(alloc, &mut self.spare, &bytes[at..at + RANGE])?;
        self.kept.push(Kept { range, bytes: copy })?;
        self.marks[range] = true;
        Ok(())
    }

    /// Saves a range before it is written, where the message has not.
    fn save_range(&mut self, bytes: &[u8], range: usize) -> Result<(), NoMemory>
        requires sound { IsUndoable bytes.now self.old }
        ensures sound { IsUndoable bytes.now self.new }
        ensures start { self.new.start ≡ self.old.start }
        ensures before { bytes_before self.new bytes.now ≡ bytes_before self.old bytes.now }
        ensures few { length self.new.kept.items ≤ length self.old.kept.items + 1 }
        ensures rises { length self.old.kept.items ≤ length self.new.kept.items }
        ensures covered { OnOk result (range < 16 * self.old.start → covers self.new.kept.items range ≡ true) }
        ensures stays { (r : ℕ) → covers self.old.kept.items r ≡ true → covers self.new.kept.items r ≡ true }
        ensures idle { self.old.start ≡ 0 → self.new.kept.items ≡ self.old.kept.items }
    {
        if range >= 16 * self.start {
            return Ok(());
        }
        if self.marks[range] {
            return Ok(());
        }
        self.keep_range(bytes, range)
    }

    /// Saves each range that a write of that many bytes there touches.
    pub fn save(&mut self, bytes: &[u8], at: usize, size: usize) -> Result<(), NoMemory>
        requires sound { IsUndoable bytes.now self.old }
        requires inside { at + size ≤ length bytes.now }
        ensures sound { IsUndoable bytes.now self.new }
        ensures start { self.new.start ≡ self.old.start }
        ensures before { bytes_before self.new bytes.now ≡ bytes_before self.old bytes.now }
        ensures few { length self.new.kept.items ≤ length self.old.kept.items + touched at size }
        ensures rises { length self.old.kept.items ≤ length self.new.kept.items }
        ensures covered { OnOk result ((i : ℕ) → at ≤ i → i < at + size → i < 65536 * self.new.start → covers self.new.kept.items (i / 4096) ≡ true) }
        ensures idle { self.old.start ≡ 0 → self.new.kept.items ≡ self.old.kept.items }
    {
        if size == 0 {
            return Ok(());
        }
        for range in at / RANGE..(at + size - 1) / RANGE + 1 {
            self.save_range(bytes, range)?;
        }
        Ok(())
    }

    /// Makes marks for that many ranges.
    pub fn make_room(&mut self, ranges: usize) -> Result<(), NoMemory>
        requires saved { AreSaved self.old }
        requires few { ranges ≤ 4096 }
        ensures saved { AreSaved self.new }
        ensures start { self.new.start ≡ self.old.start }
        ensures kept { self.new.kept.items ≡ self.old.kept.items }
        ensures stays { length self.old.marks.items ≤ length self.new.marks.items }
        ensures room { OnOk result (ranges ≤ length self.new.marks.items) }
    {
        if self.spare.capacity() == 0 {
            self.spare.reserve_exact(SPARE)?;
        }
        if ranges > self.marks.len() {
            self.marks.resize(ranges, false)?;
        }
        Ok(())
    }

    /// Puts the ranges back, the one saved last first.
    pub fn restore(&mut self, bytes: &mut [u8])
        requires sound { IsUndoable bytes.old self.old }
        ensures sound { IsUndoable bytes.new self.new }
        ensures start { self.new.start ≡ self.old.start }
        ensures kept { self.new.kept.items ≡ [] }
        ensures before { bytes_before self.new bytes.new ≡ bytes_before self.old bytes.old }
    {
        while let Some(kept) = self.kept.pop() {
            paste(bytes, RANGE * kept.range, kept.bytes.as_slice());
            self.marks[kept.range] = false;
            hold(&mut self.spare, kept);
        }
    }

    /// Drops the ranges.
    pub fn forget(&mut self)
        requires { AreSaved self.old }
        ensures saved { AreSaved self.new }
        ensures start { self.new.start ≡ self.old.start }
        ensures kept { self.new.kept.items ≡ [] }
        ensures marks { length self.new.marks.items ≡ length self.old.marks.items }
    {
        while let Some(kept) = self.kept.pop() {
            self.marks[kept.range] = false;
            hold(&mut self.spare, kept);
        }
    }
}
