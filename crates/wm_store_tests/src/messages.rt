ghost use Rattle.std.specs.Prelude.{◌≡◌, is_some, true};

use crate::calls::*;
use ic_base::NoMemory;
use std::process::Abort;
use std::test::*;
use wm_store::Store;

fn begin(store: &mut Store)
    requires { store.old.begun ≡ None }
    ensures { is_some store.new.begun ≡ true }
{
    store.begin();
}

fn undo(store: &mut Store)
    requires { is_some store.old.begun ≡ true }
    ensures { store.new.begun ≡ None }
{
    store.undo();
}

// A store is the same to its callers after a message that did nothing.
fn begin_and_undo(store: &mut Store)
    requires { store.old.begun ≡ None }
    ensures { store.new ≡ store.old }
{
    store.begin();
    store.undo();
}

// ---- undo and keep

/// Makes the last byte of one page of each memory differ from 0.
fn write_first(store: &mut Store) -> Result<(), NoMemory>
    ensures { store.new.begun ≡ store.old.begun }
{
    copy_into(store, PAGE - 1, &[1])?;
    stable_grow(store, 1)?;
    stable_write(store, PAGE - 1, &[2])?;
    Ok(())
}

/// Changes all that can change.
fn change(store: &mut Store) -> Result<(), NoMemory>
    ensures { store.new.begun ≡ store.old.begun }
{
    set_global(store, 1, 7);
    grow(store, 1)?;
    save(store, PAGE - 1, 2, 0x0403)?;
    stable_grow(store, 1)?;
    stable_write(store, PAGE - 1, &[5, 6])?;
    Ok(())
}

/// What is on both sides of the end of the first page of each memory.
fn ends(store: &Store) -> [Option<u64>; 4] {
    [
        byte(store, PAGE - 1),
        byte(store, PAGE),
        stable_byte(store, PAGE - 1),
        stable_byte(store, PAGE),
    ]
}

fn check_ends(rt: &impl Abort, store: &Store, expected: [Option<u64>; 4]) {
    assert_eq!(rt; ends(store), expected);
}

fn check_first(rt: &impl Abort, store: &Store) {
    check_sizes(rt, store, [1, 1, 0]);
    check_lists(rt, store, &[5, 6], &[None, Some(1)]);
    check_ends(rt, store, [Some(1), None, Some(2), None]);
}

fn check_changed(rt: &impl Abort, store: &Store, saved: u32) {
    check_sizes(rt, store, [2, 2, saved]);
    check_lists(rt, store, &[5, 7], &[None, Some(1)]);
    check_ends(rt, store, [Some(3), Some(4), Some(5), Some(6)]);
}

fn check_undone(rt: &impl Abort, store: &mut Store) -> Result<(), NoMemory>
    requires { store.old.begun ≡ None }
{
    write_first(store)?;
    check_first(rt, store);
    begin(store);
    change(store)?;
    check_changed(rt, store, 2);
    undo(store);
    check_first(rt, store);
    Ok(())
}

#[test]
fn undone(rt: HostRuntime) -> Result<(), NoMemory> {
    let mut store = made(rt.alloc(), 1, Some(3))?;
    check_undone(&rt, &mut store)
}

fn check_kept(rt: &impl Abort, store: &mut Store) -> Result<(), NoMemory>
    requires { store.old.begun ≡ None }
{
    write_first(store)?;
    begin(store);
    change(store)?;
    store.keep();
    check_changed(rt, store, 0);
    begin_and_undo(store);
    check_changed(rt, store, 0);
    Ok(())
}

// What was kept is what the next message undoes to.
#[test]
fn kept(rt: HostRuntime) -> Result<(), NoMemory> {
    let mut store = made(rt.alloc(), 1, Some(3))?;
    check_kept(&rt, &mut store)
}

// ---- saved ranges

/// The last byte of 255 pages.
const LAST: u64 = 255 * PAGE - 1;

fn write_old(store: &mut Store) -> Result<(), NoMemory>
    ensures { store.new.begun ≡ store.old.begun }
{
    copy_into(store, 0, &[1])?;
    copy_into(store, 4_095, &[1, 1])?;
    copy_into(store, LAST, &[1])?;
    stable_write(store, LAST, &[1])?;
    Ok(())
}

fn write_new(store: &mut Store) -> Result<(), NoMemory>
    ensures { store.new.begun ≡ store.old.begun }
{
    grow(store, 1)?;
    copy_into(store, LAST + 1, &[1])?;
    stable_grow(store, 1)?;
    stable_write(store, LAST + 1, &[1])?;
    Ok(())
}

/// The bytes that are written.
fn written(store: &Store) -> [Option<u64>; 7] {
    [
        byte(store, 0),
        byte(store, 4_095),
        byte(store, 4_096),
        byte(store, LAST),
        byte(store, LAST + 1),
        stable_byte(store, LAST),
        stable_byte(store, LAST + 1),
    ]
}

/// Compares the bytes that are written, in what was there and in what is new.
fn check_written(rt: &impl Abort, store: &Store, old: Option<u64>, new: Option<u64>) {
    assert_eq!(rt; written(store), [old, old, old, old, new, old, new]);
}

fn check_saved(rt: &impl Abort, store: &mut Store) -> Result<(), NoMemory>
    requires { store.old.begun ≡ None }
{
    stable_grow(store, 255)?;
    begin(store);
    check_sizes(rt, store, [255, 255, 0]);
    write_old(store)?;
    check_sizes(rt, store, [255, 255, 4]);
    write_new(store)?;
    check_sizes(rt, store, [256, 256, 4]);
    check_written(rt, store, Some(1), Some(1));
    undo(store);
    check_sizes(rt, store, [255, 255, 0]);
    check_written(rt, store, Some(0), None);
    Ok(())
}

#[test]
fn saved_ranges(rt: HostRuntime) -> Result<(), NoMemory> {
    let mut store = made(rt.alloc(), 255, None)?;
    check_saved(&rt, &mut store)
}

// ---- ranges that copies and fills save

/// Writes two ranges, then one that stands apart, and none.
fn write_ranges(store: &mut Store) -> Result<(), NoMemory>
    ensures { store.new.begun ≡ store.old.begun }
{
    fill(store, 4_095, 7, 2)?;
    copy_within(store, 16_384, 4_095, 2)?;
    copy_within(store, 32_768, 0, 0)?;
    fill(store, PAGE, 7, 0)?;
    Ok(())
}

/// The bytes around the ends of what is written.
fn around(store: &Store) -> [Option<u64>; 6] {
    [4_094, 4_095, 4_096, 16_384, 16_385, 16_386].map(|at| byte(store, at))
}

fn check_ranges(rt: &impl Abort, store: &mut Store) -> Result<(), NoMemory>
    requires { store.old.begun ≡ None }
{
    let (zero, seven) = (Some(0), Some(7));
    begin(store);
    write_ranges(store)?;
    check_sizes(rt, store, [1, 0, 3]);
    assert_eq!(rt; around(store), [zero, seven, seven, seven, seven, zero]);
    undo(store);
    check_sizes(rt, store, [1, 0, 0]);
    assert_eq!(rt; around(store), [zero; 6]);
    Ok(())
}

#[test]
fn ranges_saved(rt: HostRuntime) -> Result<(), NoMemory> {
    let mut store = made(rt.alloc(), 1, None)?;
    check_ranges(&rt, &mut store)
}

/// The first byte and the last of 256 pages.
fn outer(store: &Store) -> [Option<u64>; 2] {
    [byte(store, 0), byte(store, 256 * PAGE - 1)]
}

fn check_largest(rt: &impl Abort, store: &mut Store) -> Result<(), NoMemory>
    requires { store.old.begun ≡ None }
{
    begin(store);
    assert_eq!(rt; fill(store, 0, 7, 256 * PAGE)?, Some(()));
    check_sizes(rt, store, [256, 0, 4_096]);
    assert_eq!(rt; outer(store), [Some(7); 2]);
    undo(store);
    check_sizes(rt, store, [256, 0, 0]);
    assert_eq!(rt; outer(store), [Some(0); 2]);
    Ok(())
}

// All of the largest memory is written, and so is saved.
#[test]
fn largest_memory(rt: HostRuntime) -> Result<(), NoMemory> {
    let mut store = made(rt.alloc(), 256, None)?;
    check_largest(&rt, &mut store)
}
