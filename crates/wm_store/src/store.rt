ghost use Rattle.std.specs.Prelude.{◌≡◌, ℕ, ◌+◌, ◌*◌, ◌^◌, ◌<◌, ◌≤◌, true, List, [], length, replicate, slice_set, MatchOption, false, IfOk, IfErr, All, IfSome, is_some};
ghost use Rattle.std.specs.Option.{option_map};
ghost use Rattle.std.specs.Int.{w64, from_le_bytes, bytes_low_first};
ghost use Rattle.wm_pages.specs.Ranges.{touched};
ghost use Rattle.wm_store.specs.Lists.{part, written, moved, filled, grown, pages_of, page_limit, or_stays, HoldsBytes};

use ic_base::NoMemory;
use std::alloc::Global;
use std::marker::Model;
use wm_pages::Pages;

/// The most pages of a memory, whatever maximum is declared.
const MOST_PAGES: u32 = 256;

/// The store of a module: memory, globals and table, and stable memory. A message begins, changes
/// it, and ends with `keep` or `undo`. The first write of a message to a range of 4,096 bytes that
/// was there saves it, and takes the memory for that before the write; so `undo` takes none.
#[derive(Debug)]
pub struct Store {
    memory: Pages,
    stable: Pages,
    globals: Vec<u64>,
    // The globals at the beginning of the message.
    first: Vec<u64>,
    table: Vec<Option<u32>>,
    maximum: Option<u32>,
    begun: bool,
}

// Not derived, so that it is proved here and not in each crate that drops one.
impl Drop for Store {
    fn drop(self) {
        let Store {
            memory: _memory,
            stable: _stable,
            globals: _globals,
            first: _first,
            table: _table,
            maximum: _,
            begun: _,
        } = self;
    }
}

impl Model for Store {
    ghost use Rattle.wm_store.specs.Held.{Held};

    ghost Value = { Held };

    ghost use Rattle.wm_store.specs.Inside.{held, IsSound};

    ghost view = { held };

    ghost invariant = { IsSound };
}

/// The place where that many elements stand, unless they pass the end.
fn place(len: usize, at: u64, size: u64) -> Option<usize>
    ensures { MatchOption result (len < at + size) (λ i. (i ≡ at) × (at + size ≤ len)) }
{
    let end = at.checked_add(size)?;
    if end <= len as u64 {
        Some(at as usize)
    } else {
        None
    }
}

/// The number whose bytes these are, the lowest first.
fn number(bytes: &[u8]) -> u64
    requires { length bytes.now ≤ 8 }
    ensures { result ≡ from_le_bytes w64 bytes.now }
{
    let mut word = [0u8; 8];
    word[..bytes.len()].copy_from_slice(bytes);
    u64::from_le_bytes(word)
}

/// Copies the elements from a place on, unless they pass the end.
fn read(bytes: &[u8], at: u64, target: &mut [u8]) -> Option<()>
    ensures fits { is_some result ≡ is_some (part at (length target.old) bytes.now) }
    ensures target { target.new ≡ or_stays (part at (length target.old) bytes.now) target.old }
{
    let at = place(bytes.len(), at, target.len() as u64)?;
    target.copy_from_slice(&bytes[at..at + target.len()]);
    Some(())
}

/// Writes the bytes from a place on, unless they pass the end.
fn write(pages: &mut Pages, at: u64, bytes: &[u8]) -> Result<Option<()>, NoMemory>
    ensures fits { IfOk result (λ done. is_some done ≡ is_some (written at bytes.now pages.old.bytes)) }
    ensures bytes { IfOk result (λ _. pages.new.bytes ≡ or_stays (written at bytes.now pages.old.bytes) pages.old.bytes) }
    ensures refused { IfErr result (λ _. pages.new.bytes ≡ pages.old.bytes) }
    ensures before { pages.new.before ≡ pages.old.before }
    ensures saved { pages.new.saved ≤ pages.old.saved + touched at (length bytes.now) }
    ensures rises { pages.old.saved ≤ pages.new.saved }
    ensures past { IfOk result (λ done. is_some done ≡ false → pages.new.saved ≡ pages.old.saved) }
    ensures idle { pages.old.before ≡ [] → pages.new.saved ≡ pages.old.saved }
{
    match place(pages.as_slice().len(), at, bytes.len() as u64) {
        Some(at) => {
            pages.write(at, bytes)?;
            Ok(Some(()))
        }
        None => Ok(None),
    }
}

/// Copies that many bytes from one place to another, unless either passes the end.
fn copy(pages: &mut Pages, to: u64, from: u64, size: u64) -> Result<Option<()>, NoMemory>
    ensures fits { IfOk result (λ done. is_some done ≡ is_some (moved to from size pages.old.bytes)) }
    ensures bytes { IfOk result (λ _. pages.new.bytes ≡ or_stays (moved to from size pages.old.bytes) pages.old.bytes) }
    ensures refused { IfErr result (λ _. pages.new.bytes ≡ pages.old.bytes) }
    ensures before { pages.new.before ≡ pages.old.before }
    ensures saved { pages.new.saved ≤ pages.old.saved + touched to size }
    ensures rises { pages.old.saved ≤ pages.new.saved }
    ensures past { IfOk result (λ done. is_some done ≡ false → pages.new.saved ≡ pages.old.saved) }
    ensures idle { pages.old.before ≡ [] → pages.new.saved ≡ pages.old.saved }
{
    match place(pages.as_slice().len(), to.max(from), size) {
        Some(_) => {
            pages.copy_within(to as usize, from as usize, size as usize)?;
            Ok(Some(()))
        }
        None => Ok(None),
    }
}

/// Writes one byte to that many places, unless they pass the end.
fn fill(pages: &mut Pages, at: u64, byte: u8, size: u64) -> Result<Option<()>, NoMemory>
    ensures fits { IfOk result (λ done. is_some done ≡ is_some (filled at byte size pages.old.bytes)) }
    ensures bytes { IfOk result (λ _. pages.new.bytes ≡ or_stays (filled at byte size pages.old.bytes) pages.old.bytes) }
    ensures refused { IfErr result (λ _. pages.new.bytes ≡ pages.old.bytes) }
    ensures before { pages.new.before ≡ pages.old.before }
    ensures saved { pages.new.saved ≤ pages.old.saved + touched at size }
    ensures rises { pages.old.saved ≤ pages.new.saved }
    ensures past { IfOk result (λ done. is_some done ≡ false → pages.new.saved ≡ pages.old.saved) }
    ensures idle { pages.old.before ≡ [] → pages.new.saved ≡ pages.old.saved }
{
    match place(pages.as_slice().len(), at, size) {
        Some(at) => {
            pages.fill(at, byte, size as usize)?;
            Ok(Some(()))
        }
        None => Ok(None),
    }
}

/// Adds pages of zeros, unless they pass the limit. Gives the old number of pages.
fn grow(pages: &mut Pages, limit: u32, more: u64) -> Result<Option<u32>, NoMemory>
    requires { limit ≤ 256 }
    ensures size { IfOk result (λ old. old ≡ option_map (λ _. pages_of pages.old.bytes) (grown limit more pages.old.bytes)) }
    ensures bytes { IfOk result (λ _. pages.new.bytes ≡ or_stays (grown limit more pages.old.bytes) pages.old.bytes) }
    ensures refused { IfErr result (λ _. pages.new.bytes ≡ pages.old.bytes) }
    ensures before { pages.new.before ≡ pages.old.before }
    ensures saved { pages.new.saved ≡ pages.old.saved }
{
    let old = pages.pages();
    match place(limit as usize, more, old as u64) {
        Some(more) => {
            pages.grow(more)?;
            Ok(Some(old as u32))
        }
        None => Ok(None),
    }
}

impl Store {
    /// The store with nothing in it. It takes no memory; the allocator serves the later calls.
    pub fn empty(alloc: Global) -> Store
        ensures lists { result.lists ≡ record { memory = []; maximum = None; globals = []; table = []; stable = [] } }
        ensures begun { result.begun ≡ None }
        ensures saved { result.saved ≡ 0 }
    {
        Store {
            memory: Pages::new(alloc),
            stable: Pages::new(alloc),
            globals: Vec::new(alloc),
            first: Vec::new(alloc),
            table: Vec::new(alloc),
            maximum: None,
            begun: false,
        }
    }

    /// A store with that many pages of zeros, of 65,536 bytes each. What element segments put into the
    /// table is in the table that is handed in.
    pub fn make(
        alloc: Global,
        pages: u32,
        maximum: Option<u32>,
        globals: Vec<u64>,
        table: Vec<Option<u32>>,
    ) -> Result<Store, NoMemory>
        requires { pages ≤ page_limit maximum }
        ensures lists { IfOk result (λ s. s.lists ≡ record { memory = replicate (65536 * pages) 0; maximum = maximum; globals = globals.items; table = table.items; stable = [] }) }
        ensures begun { IfOk result (λ s. s.begun ≡ None) }
        ensures saved { IfOk result (λ s. s.saved ≡ 0) }
    {
        are_indices(table.as_slice());
        let first = Vec::from_slice(alloc, globals.as_slice())?;
        let mut memory = Pages::new(alloc);
        memory.grow(pages as usize)?;
        Ok(Store {
            memory,
            stable: Pages::new(alloc),
            globals,
            first,
            table,
            maximum,
            begun: false,
        })
    }

    /// The number of pages of memory, of 65,536 bytes each.
    pub fn pages(&self) -> u32
        ensures pages { result ≡ pages_of self.now.lists.memory }
        ensures whole { 65536 * result ≡ length self.now.lists.memory }
        ensures few { result ≤ 256 }
    {
        self.memory.pages() as u32
    }

    /// The number of pages of stable memory.
    pub fn stable_pages(&self) -> u32
        ensures pages { result ≡ pages_of self.now.lists.stable }
        ensures whole { 65536 * result ≡ length self.now.lists.stable }
        ensures few { result ≤ 256 }
    {
        self.stable.pages() as u32
    }

    /// The bytes of memory.
    pub fn memory(&self) -> &[u8]
        ensures { result.now ≡ self.now.lists.memory }
    {
        self.memory.as_slice()
    }

    /// The bytes of stable memory.
    pub fn stable(&self) -> &[u8]
        ensures { result.now ≡ self.now.lists.stable }
    {
        self.stable.as_slice()
    }

    /// The most pages that memory may have: the declared maximum, and 256 at most.
    pub fn page_limit(&self) -> u32
        ensures limit { result ≡ page_limit self.now.lists.maximum }
        ensures few { result ≤ 256 }
    {
        match self.maximum {
            Some(most) => most.min(MOST_PAGES),
            None => MOST_PAGES,
        }
    }

    /// The globals.
    pub fn globals(&self) -> &[u64]
        ensures { result.now ≡ self.now.lists.globals }
    {
        self.globals.as_slice()
    }

    /// The table's entries: the index of a function, or none.
    pub fn table(&self) -> &[Option<u32>]
        ensures { result.now ≡ self.now.lists.table }
    {
        self.table.as_slice()
    }

    /// Changes a global.
    pub fn set_global(&mut self, index: u32, value: u64)
        requires { index < length self.old.lists.globals }
        ensures lists { self.new.lists ≡ record self.old.lists { globals = slice_set self.old.lists.globals index value } }
        ensures begun { self.new.begun ≡ self.old.begun }
        ensures saved { self.new.saved ≡ self.old.saved }
    {
        self.globals[index as usize] = value;
    }

    /// The number that `size` bytes of memory from `at` on spell, the lowest first. None where they pass
    /// its end.
    pub fn load(&self, at: u64, size: u32) -> Option<u64>
        requires { size ≤ 8 }
        ensures { result ≡ option_map (from_le_bytes w64) (part at size self.now.lists.memory) }
    {
        let bytes = self.memory.as_slice();
        let at = place(bytes.len(), at, u64::from(size))?;
        Some(number(&bytes[at..at + size as usize]))
    }

    /// Writes the `size` lowest bytes of the number to memory from `at` on, the lowest first. None where
    /// they pass its end; then nothing is written.
    pub fn save(&mut self, at: u64, size: u32, value: u64) -> Result<Option<()>, NoMemory>
        requires { size ≤ 8 }
        ensures fits { IfOk result (λ done. is_some done ≡ is_some (written at (bytes_low_first 0 size value) self.old.lists.memory)) }
        ensures lists { IfOk result (λ _. self.new.lists ≡ record self.old.lists { memory = or_stays (written at (bytes_low_first 0 size value) self.old.lists.memory) self.old.lists.memory }) }
        ensures refused { IfErr result (λ _. self.new.lists ≡ self.old.lists) }
        ensures begun { self.new.begun ≡ self.old.begun }
        ensures saved { self.new.saved ≤ self.old.saved + touched at size }
        ensures rises { self.old.saved ≤ self.new.saved }
        ensures past { IfOk result (λ done. is_some done ≡ false → self.new.saved ≡ self.old.saved) }
    {
        self.copy_into(at, &value.to_le_bytes()[..size as usize])
    }

    /// Copies bytes of memory from a place on. None where they pass its end; then nothing is copied.
    pub fn copy_out(&self, at: u64, target: &mut [u8]) -> Option<()>
        ensures fits { is_some result ≡ is_some (part at (length target.old) self.now.lists.memory) }
        ensures target { target.new ≡ or_stays (part at (length target.old) self.now.lists.memory) target.old }
    {
        read(self.memory.as_slice(), at, target)
    }

    /// Writes bytes to memory from a place on. None where they pass its end; then nothing is written.
    pub fn copy_into(&mut self, at: u64, bytes: &[u8]) -> Result<Option<()>, NoMemory>
        ensures fits { IfOk result (λ done. is_some done ≡ is_some (written at bytes.now self.old.lists.memory)) }
        ensures lists { IfOk result (λ _. self.new.lists ≡ record self.old.lists { memory = or_stays (written at bytes.now self.old.lists.memory) self.old.lists.memory }) }
        ensures refused { IfErr result (λ _. self.new.lists ≡ self.old.lists) }
        ensures begun { self.new.begun ≡ self.old.begun }
        ensures saved { self.new.saved ≤ self.old.saved + touched at (length bytes.now) }
        ensures rises { self.old.saved ≤ self.new.saved }
        ensures past { IfOk result (λ done. is_some done ≡ false → self.new.saved ≡ self.old.saved) }
    {
        write(&mut self.memory, at, bytes)
    }

    /// Copies that many bytes of memory from one place to another, as if they were read first. None where
    /// either range passes its end, even an empty one; then nothing is written.
    pub fn copy_within(&mut self, to: u64, from: u64, size: u64) -> Result<Option<()>, NoMemory>
        ensures fits { IfOk result (λ done. is_some done ≡ is_some (moved to from size self.old.lists.memory)) }
        ensures lists { IfOk result (λ _. self.new.lists ≡ record self.old.lists { memory = or_stays (moved to from size self.old.lists.memory) self.old.lists.memory }) }
        ensures refused { IfErr result (λ _. self.new.lists ≡ self.old.lists) }
        ensures begun { self.new.begun ≡ self.old.begun }
        ensures saved { self.new.saved ≤ self.old.saved + touched to size }
        ensures rises { self.old.saved ≤ self.new.saved }
        ensures past { IfOk result (λ done. is_some done ≡ false → self.new.saved ≡ self.old.saved) }
    {
        copy(&mut self.memory, to, from, size)
    }

    /// Writes one byte to that many places of memory. None where the range passes its end, even an empty
    /// one; then nothing is written.
    pub fn fill(&mut self, at: u64, byte: u8, size: u64) -> Result<Option<()>, NoMemory>
        ensures fits { IfOk result (λ done. is_some done ≡ is_some (filled at byte size self.old.lists.memory)) }
        ensures lists { IfOk result (λ _. self.new.lists ≡ record self.old.lists { memory = or_stays (filled at byte size self.old.lists.memory) self.old.lists.memory }) }
        ensures refused { IfErr result (λ _. self.new.lists ≡ self.old.lists) }
        ensures begun { self.new.begun ≡ self.old.begun }
        ensures saved { self.new.saved ≤ self.old.saved + touched at size }
        ensures rises { self.old.saved ≤ self.new.saved }
        ensures past { IfOk result (λ done. is_some done ≡ false → self.new.saved ≡ self.old.saved) }
    {
        fill(&mut self.memory, at, byte, size)
    }

    /// Copies bytes of stable memory, as `copy_out` does of memory.
    pub fn stable_read(&self, at: u64, target: &mut [u8]) -> Option<()>
        ensures fits { is_some result ≡ is_some (part at (length target.old) self.now.lists.stable) }
        ensures target { target.new ≡ or_stays (part at (length target.old) self.now.lists.stable) target.old }
    {
        read(self.stable.as_slice(), at, target)
    }

    /// Writes bytes to stable memory, as `copy_into` does to memory.
    pub fn stable_write(&mut self, at: u64, bytes: &[u8]) -> Result<Option<()>, NoMemory>
        ensures fits { IfOk result (λ done. is_some done ≡ is_some (written at bytes.now self.old.lists.stable)) }
        ensures lists { IfOk result (λ _. self.new.lists ≡ record self.old.lists { stable = or_stays (written at bytes.now self.old.lists.stable) self.old.lists.stable }) }
        ensures refused { IfErr result (λ _. self.new.lists ≡ self.old.lists) }
        ensures begun { self.new.begun ≡ self.old.begun }
        ensures saved { self.new.saved ≤ self.old.saved + touched at (length bytes.now) }
        ensures rises { self.old.saved ≤ self.new.saved }
        ensures past { IfOk result (λ done. is_some done ≡ false → self.new.saved ≡ self.old.saved) }
    {
        write(&mut self.stable, at, bytes)
    }

    /// Adds that many pages of zeros to memory and gives the old number of pages. None where this would
    /// pass the declared maximum or 256; then nothing is added.
    pub fn grow(&mut self, pages: u32) -> Result<Option<u32>, NoMemory>
        ensures size { IfOk result (λ old. old ≡ option_map (λ _. pages_of self.old.lists.memory) (grown (page_limit self.old.lists.maximum) pages self.old.lists.memory)) }
        ensures lists { IfOk result (λ _. self.new.lists ≡ record self.old.lists { memory = or_stays (grown (page_limit self.old.lists.maximum) pages self.old.lists.memory) self.old.lists.memory }) }
        ensures refused { IfErr result (λ _. self.new.lists ≡ self.old.lists) }
        ensures begun { self.new.begun ≡ self.old.begun }
        ensures saved { self.new.saved ≡ self.old.saved }
    {
        let limit = self.page_limit();
        grow(&mut self.memory, limit, u64::from(pages))
    }

    /// Adds that many pages of zeros to stable memory, as `grow` does to memory; 256 is its limit.
    pub fn stable_grow(&mut self, pages: u64) -> Result<Option<u32>, NoMemory>
        ensures size { IfOk result (λ old. old ≡ option_map (λ _. pages_of self.old.lists.stable) (grown 256 pages self.old.lists.stable)) }
        ensures lists { IfOk result (λ _. self.new.lists ≡ record self.old.lists { stable = or_stays (grown 256 pages self.old.lists.stable) self.old.lists.stable }) }
        ensures refused { IfErr result (λ _. self.new.lists ≡ self.old.lists) }
        ensures begun { self.new.begun ≡ self.old.begun }
        ensures saved { self.new.saved ≡ self.old.saved }
    {
        grow(&mut self.stable, MOST_PAGES, pages)
    }

    /// Begins a message, in constant time for the memories and linear time for the globals. It takes
    /// no memory.
    pub fn begin(&mut self)
        requires { self.old.begun ≡ None }
        ensures lists { self.new.lists ≡ self.old.lists }
        ensures begun { self.new.begun ≡ Some self.old.lists }
        ensures saved { self.new.saved ≡ 0 }
        // So `undo` leads back to a store that is the same to its callers.
        ensures idle { self.old.saved ≡ 0 }
    {
        self.first.copy_from_slice(self.globals.as_slice());
        self.memory.begin();
        self.stable.begin();
        self.begun = true;
    }

    /// Ends the message and keeps what it did.
    pub fn keep(&mut self)
        requires { is_some self.old.begun ≡ true }
        ensures lists { self.new.lists ≡ self.old.lists }
        ensures begun { self.new.begun ≡ None }
        ensures saved { self.new.saved ≡ 0 }
    {
        self.memory.keep();
        self.stable.keep();
        self.begun = false;
    }

    /// Ends the message and undoes what it did. It takes no memory.
    pub fn undo(&mut self)
        requires { is_some self.old.begun ≡ true }
        ensures lists { Some self.new.lists ≡ self.old.begun }
        ensures begun { self.new.begun ≡ None }
        ensures saved { self.new.saved ≡ 0 }
    {
        self.globals.copy_from_slice(self.first.as_slice());
        self.memory.undo();
        self.stable.undo();
        self.begun = false;
    }

    /// How many ranges of 4,096 bytes the message has saved, of memory and stable memory; 0 where
    /// none has begun.
    pub fn saved(&self) -> u32
        ensures saved { result ≡ self.now.saved }
        ensures none { self.now.begun ≡ None → result ≡ 0 }
    {
        (self.memory.saved() + self.stable.saved()) as u32
    }

    /// Nothing happens. Tells callers that what the lists hold is in its type's range.
    pub fn holds_bytes(&self)
        ensures { HoldsBytes self.now.lists }
    {
        are_bytes(self.memory.as_slice());
        are_bytes(self.stable.as_slice());
        are_words(self.globals.as_slice());
    }
}

// What a slice's type says of its elements.

fn are_bytes(_bytes: &[u8])
    ensures { All (λ b. b < 256) _bytes.now }
{}

fn are_words(_words: &[u64])
    ensures { All (λ v. v < 2 ^ 64) _words.now }
{}

fn are_indices(entries: &[Option<u32>])
    ensures { All (λ e. IfSome e (λ f. f < 2 ^ 32)) entries.now }
{
    for entry in entries {
        match entry {
            Some(function) => {
                let _function = *function;
            }
            None => {}
        }
    }
}
