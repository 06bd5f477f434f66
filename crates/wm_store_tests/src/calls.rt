// Calls of a store, without the clauses on its lists: at literals a proof would compute the lists.
ghost use Rattle.std.specs.Prelude.{◌≡◌, ◌≤◌, IfOk};
ghost use Rattle.wm_store.specs.Lists.{page_limit};

use ic_base::NoMemory;
use std::alloc::Global;
use std::process::Abort;
use std::test::*;
use wm_store::Store;

/// How many bytes a page has.
pub const PAGE: u64 = 65_536;

/// A store with that many pages of memory, two globals and two entries.
pub fn made(alloc: Global, pages: u32, maximum: Option<u32>) -> Result<Store, NoMemory>
    requires { pages ≤ page_limit maximum }
    ensures { IfOk result (λ s. s.begun ≡ None) }
{
    let globals = vec![in alloc; 5, 6]?;
    let table = vec![in alloc; None, Some(1)]?;
    Store::make(alloc, pages, maximum, globals, table)
}

/// Sets a global, if it is there.
pub fn set_global(store: &mut Store, index: u32, value: u64)
    ensures { store.new.begun ≡ store.old.begun }
{
    if (index as usize) < store.globals().len() {
        store.set_global(index, value);
    }
}

pub fn save(store: &mut Store, at: u64, size: u32, value: u64) -> Result<Option<()>, NoMemory>
    requires { size ≤ 8 }
    ensures { store.new.begun ≡ store.old.begun }
{
    store.save(at, size, value)
}

pub fn copy_into(store: &mut Store, at: u64, bytes: &[u8]) -> Result<Option<()>, NoMemory>
    ensures { store.new.begun ≡ store.old.begun }
{
    store.copy_into(at, bytes)
}

pub fn copy_within(store: &mut Store, to: u64, from: u64, size: u64) -> Result<Option<()>, NoMemory>
    ensures { store.new.begun ≡ store.old.begun }
{
    store.copy_within(to, from, size)
}

pub fn fill(store: &mut Store, at: u64, byte: u8, size: u64) -> Result<Option<()>, NoMemory>
    ensures { store.new.begun ≡ store.old.begun }
{
    store.fill(at, byte, size)
}

pub fn stable_write(store: &mut Store, at: u64, bytes: &[u8]) -> Result<Option<()>, NoMemory>
    ensures { store.new.begun ≡ store.old.begun }
{
    store.stable_write(at, bytes)
}

pub fn grow(store: &mut Store, pages: u32) -> Result<Option<u32>, NoMemory>
    ensures { store.new.begun ≡ store.old.begun }
{
    store.grow(pages)
}

pub fn stable_grow(store: &mut Store, pages: u64) -> Result<Option<u32>, NoMemory>
    ensures { store.new.begun ≡ store.old.begun }
{
    store.stable_grow(pages)
}

/// The byte of memory at a place.
pub fn byte(store: &Store, at: u64) -> Option<u64> {
    store.load(at, 1)
}

/// The byte of stable memory at a place.
pub fn stable_byte(store: &Store, at: u64) -> Option<u64> {
    let mut bytes = [0];
    store.stable_read(at, &mut bytes)?;
    Some(u64::from(bytes[0]))
}

/// Compares the numbers of pages, of stable pages and of saved ranges.
pub fn check_sizes(rt: &impl Abort, store: &Store, expected: [u32; 3]) {
    let sizes = [store.pages(), store.stable_pages(), store.saved()];
    assert_eq!(rt; sizes, expected);
}

pub fn check_lists(rt: &impl Abort, store: &Store, globals: &[u64], table: &[Option<u32>]) {
    assert_eq!(rt; store.globals(), globals);
    assert_eq!(rt; store.table(), table);
}

/// Compares what growths of memory answer, one after the other.
pub fn check_growths(
    rt: &impl Abort,
    store: &mut Store,
    pages: [u32; 3],
    answers: [Option<u32>; 3],
) -> Result<(), NoMemory> {
    let [first, second, third] = pages;
    let given = [store.grow(first)?, store.grow(second)?, store.grow(third)?];
    assert_eq!(rt; given, answers);
    Ok(())
}
