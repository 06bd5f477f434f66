ghost use Rattle.std.specs.Prelude.{◌≡◌, ◌+◌, ◌≤◌, ◌&&◌, true, Some, None, length, IsSome, IfOk, IfErr};
ghost use Rattle.wm_store.specs.Lists.{page_limit};
ghost use Rattle.wm_store.specs.Fits.{Fits, minimum_of, maximum_of};
ghost use Rattle.wm_semantics.specs.Instance.{constant_of, elements_fit, first_store, instance, laid, memory_size, segments_fit, table_size, with_segments};

use crate::constants::{
    constant_of, elements_fit, globals_of, maximum_of, minimum_of, segments_fit,
};
use crate::fault::InstanceFault;
use crate::tables::table_of;
use ic_base::NoMemory;
use std::alloc::Global;
use wm_store::Store;
use wm_tree::{Module, Segment};
use wm_valid::Valid;

/// How many bytes a page of memory has.
const PAGE: u64 = 65_536;

/// Writes the bytes of a data segment to memory.
fn write_segment(store: &mut Store, segment: &Segment) -> Result<(), NoMemory>
    requires { constant_of segment.now.offset + length segment.now.bytes ≤ length store.old.lists.memory }
    ensures lists { IfOk result (λ _. store.new.lists ≡ record store.old.lists { memory = laid (constant_of segment.now.offset) segment.now.bytes store.old.lists.memory }) }
    ensures begun { store.new.begun ≡ store.old.begun }
{
    let at = constant_of(&segment.offset.items);
    let written = store.copy_into(at, &segment.bytes.items)?;
    prove!(written.is_some());
    Ok(())
}

/// Writes the data segments to memory, one after the other.
fn write_segments(store: &mut Store, segments: &[Segment]) -> Result<(), NoMemory>
    requires { segments_fit (length store.old.lists.memory) segments.now ≡ true }
    ensures lists { IfOk result (λ _. store.new.lists ≡ record store.old.lists { memory = with_segments segments.now store.old.lists.memory }) }
    ensures begun { store.new.begun ≡ store.old.begun }
{
    for segment in segments {
        write_segment(store, segment)?;
    }
    Ok(())
}

/// Whether no segment passes the end of the table or of the memory.
fn segments_are_inside(module: &Module) -> bool
    ensures { result ≡ (elements_fit (table_size «module».now) «module».now.elements && segments_fit (memory_size «module».now) «module».now.segments) }
{
    let entries = minimum_of(&module.tables.items);
    let pages = minimum_of(&module.memories.items);
    elements_fit(u64::from(entries), &module.elements.items)
        && segments_fit(PAGE * u64::from(pages), &module.segments.items)
}

/// The store with all segments written. No message has begun on it, so nothing is saved.
fn first_store(alloc: Global, module: &Module) -> Result<Store, NoMemory>
    requires pages { minimum_of «module».now.memories ≤ page_limit (maximum_of «module».now.memories) }
    requires elements { elements_fit (table_size «module».now) «module».now.elements ≡ true }
    requires segments { segments_fit (memory_size «module».now) «module».now.segments ≡ true }
    ensures lists { IfOk result (λ s. s.lists ≡ first_store «module».now) }
    ensures begun { IfOk result (λ s. s.begun ≡ None) }
    ensures saved { IfOk result (λ s. s.saved ≡ 0) }
{
    let globals = globals_of(alloc, &module.globals.items)?;
    let entries = minimum_of(&module.tables.items);
    let table = table_of(alloc, entries, &module.elements.items)?;
    let pages = minimum_of(&module.memories.items);
    let maximum = maximum_of(&module.memories.items);
    let mut store = Store::make(alloc, pages, maximum, globals, table)?;
    write_segments(&mut store, &module.segments.items)?;
    prove_eq!(store.saved(), 0);
    Ok(store)
}

/// The store that a valid module begins with (WebAssembly Core 1.0, 4.5.4): each segment is written
/// over the ones before it, and stable memory is empty. Time and memory grow linearly with the
/// module and the store.
pub fn instantiate(alloc: Global, valid: &Valid) -> Result<Store, InstanceFault>
    ensures lists { IfOk result (λ s. instance valid.now.«module» ≡ Some s.lists) }
    ensures fits { IfOk result (λ s. Fits valid.now.«module» s.lists) }
    ensures begun { IfOk result (λ s. s.begun ≡ None) }
    ensures saved { IfOk result (λ s. s.saved ≡ 0) }
    ensures out { IfErr result (λ e. e ≡ InstanceFault.SegmentOut → instance valid.now.«module» ≡ None) }
    // Out of memory never hides that a segment is out.
    ensures inside { IfErr result (λ e. e ≡ InstanceFault.NoMemory → IsSome (instance valid.now.«module»)) }
{
    let module = valid.module();
    if !segments_are_inside(module) {
        return Err(InstanceFault::SegmentOut);
    }
    let store = first_store(alloc, module)?;
    Ok(store)
}
