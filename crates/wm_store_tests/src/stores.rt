ghost use Rattle.std.specs.Prelude.{◌≤◌};

use crate::calls::{PAGE, check_growths, copy_within, made, save};
use ic_base::NoMemory;
use std::process::Abort;
use std::test::*;
use wm_numeric::Failure;
use wm_store::Store;

// ---- growth, and growth by one page more than there is room for

#[test]
fn growth_to_the_maximum(rt: HostRuntime) -> Result<(), NoMemory> {
    let mut store = made(rt.alloc(), 1, Some(3))?;
    assert_eq!(rt; store.page_limit(), 3);
    check_growths(&rt, &mut store, [3, 2, 1], [None, Some(1), None])
}

fn stable_growths(store: &mut Store) -> Result<[Option<u32>; 3], NoMemory> {
    Ok([
        store.stable_grow(257)?,
        store.stable_grow(256)?,
        store.stable_grow(u64::MAX)?,
    ])
}

fn check_256_pages(rt: &impl Abort, store: &mut Store) -> Result<(), NoMemory> {
    assert_eq!(rt; store.page_limit(), 256);
    check_growths(rt, store, [2, 1, u32::MAX], [None, Some(255), None])?;
    assert_eq!(rt; stable_growths(store)?, [None, Some(0), None]);
    Ok(())
}

#[test]
fn growth_to_256_pages(rt: HostRuntime) -> Result<(), NoMemory> {
    let mut store = made(rt.alloc(), 255, Some(300))?;
    check_256_pages(&rt, &mut store)
}

// ---- ends

/// Whether that many bytes at a place can be read and written, in both memories, filled, and copied from
/// there and to there.
fn fits(store: &mut Store, at: u64, size: u32) -> Result<[bool; 9], NoMemory>
    requires { size ≤ 8 }
{
    let mut bytes = [0; 8];
    let part = &mut bytes[..size as usize];
    Ok([
        store.load(at, size).is_some(),
        store.copy_out(at, part).is_some(),
        store.stable_read(at, part).is_some(),
        store.save(at, size, 0)?.is_some(),
        store.copy_into(at, part)?.is_some(),
        store.stable_write(at, part)?.is_some(),
        store.fill(at, 0, u64::from(size))?.is_some(),
        store.copy_within(0, at, u64::from(size))?.is_some(),
        store.copy_within(at, 0, u64::from(size))?.is_some(),
    ])
}

/// Both sides of each end, and addresses whose end passes 2^64.
fn fits_around_ends(store: &mut Store) -> Result<[[bool; 9]; 6], NoMemory> {
    Ok([
        fits(store, PAGE - 4, 4)?,
        fits(store, PAGE, 0)?,
        fits(store, PAGE - 3, 4)?,
        fits(store, PAGE + 1, 0)?,
        fits(store, u64::MAX - 3, 4)?,
        fits(store, u64::MAX - 2, 4)?,
    ])
}

fn check_ends(rt: &impl Abort, store: &mut Store) -> Result<(), NoMemory> {
    store.stable_grow(1)?;
    let (yes, no) = ([true; 9], [false; 9]);
    assert_eq!(rt; fits_around_ends(store)?, [yes, yes, no, no, no, no]);
    Ok(())
}

#[test]
fn ends(rt: HostRuntime) -> Result<(), NoMemory> {
    let mut store = made(rt.alloc(), 1, None)?;
    check_ends(&rt, &mut store)
}

// ---- copies and fills

/// What the bytes 1 to 8 become where three of them are copied.
fn copied(store: &mut Store, to: u64, from: u64) -> Result<Option<[u8; 8]>, NoMemory> {
    save(store, 0, 8, 0x0807_0605_0403_0201)?;
    copy_within(store, to, from, 3)?;
    Ok(first_bytes(store))
}

fn first_bytes(store: &Store) -> Option<[u8; 8]> {
    let mut bytes = [0; 8];
    bytes.copy_from_slice(store.memory().get(..8)?);
    Some(bytes)
}

/// What they become where three of them are filled.
fn filled(store: &mut Store, value: u64) -> Result<Option<[u8; 8]>, Fail> {
    save(store, 0, 8, 0x0807_0605_0403_0201)?;
    store.memory_fill(2, value, 3)??;
    Ok(first_bytes(store))
}

fn check_ranges(rt: &impl Abort, store: &mut Store) -> Result<(), Fail> {
    assert_eq!(rt; copied(store, 1, 0)?, Some([1, 1, 2, 3, 5, 6, 7, 8]));
    assert_eq!(rt; copied(store, 0, 1)?, Some([2, 3, 4, 4, 5, 6, 7, 8]));
    assert_eq!(rt; copied(store, 5, 1)?, Some([1, 2, 3, 4, 5, 2, 3, 4]));
    assert_eq!(rt;
        filled(store, 0x1AB)?,
        Some([1, 2, 0xAB, 0xAB, 0xAB, 6, 7, 8])
    );
    Ok(())
}

// Ranges that overlap are read first, and a fill takes the value's lowest byte.
#[test]
fn ranges(rt: HostRuntime) -> Result<(), Fail> {
    let mut store = made(rt.alloc(), 1, None)?;
    check_ranges(&rt, &mut store)
}

// ---- numbers

/// The numbers at an address: of 1, 2, 4 and 8 bytes without a sign, of 1 and 2 with a sign in 32
/// bits, of 1, 2 and 4 with a sign in 64 bits.
fn numbers(store: &Store, address: u32, offset: u32) -> [Result<u64, Failure>; 9] {
    let address = u64::from(address);
    [
        store.load_u(address, offset, 1),
        store.load_u(address, offset, 2),
        store.load_u(address, offset, 4),
        store.load_u(address, offset, 8),
        store.load_8_s_32(address, offset),
        store.load_16_s_32(address, offset),
        store.load_8_s_64(address, offset),
        store.load_16_s_64(address, offset),
        store.load_32_s_64(address, offset),
    ]
}

/// From the first byte on, from the third on, and past the end.
fn all_numbers(store: &Store) -> [[Result<u64, Failure>; 9]; 3] {
    [
        numbers(store, 0, 0),
        numbers(store, 1, 1),
        numbers(store, u32::MAX, u32::MAX),
    ]
}

fn expected_numbers() -> [[Result<u64, Failure>; 9]; 3] {
    let first = [
        Ok(0x81),
        Ok(0x0281),
        Ok(0x8003_0281),
        Ok(0x7F06_0504_8003_0281),
        Ok(0xFFFF_FF81),
        Ok(0x0281),
        Ok(0xFFFF_FFFF_FFFF_FF81),
        Ok(0x0281),
        Ok(0xFFFF_FFFF_8003_0281),
    ];
    let third = [
        Ok(0x03),
        Ok(0x8003),
        Ok(0x0504_8003),
        Ok(0x7F06_0504_8003),
        Ok(0x03),
        Ok(0xFFFF_8003),
        Ok(0x03),
        Ok(0xFFFF_FFFF_FFFF_8003),
        Ok(0x0504_8003),
    ];
    [first, third, [Err(Failure::MemoryBounds); 9]]
}

fn check_numbers(rt: &impl Abort, store: &mut Store) -> Result<(), Fail> {
    store.store(0, 0, 8, 0x7F06_0504_8003_0281)??;
    assert_eq!(rt; all_numbers(store), expected_numbers());
    Ok(())
}

// The lowest byte is first, a sign is the highest bit, and addresses do not wrap.
#[test]
fn loads(rt: HostRuntime) -> Result<(), Fail> {
    let mut store = made(rt.alloc(), 1, None)?;
    check_numbers(&rt, &mut store)
}
