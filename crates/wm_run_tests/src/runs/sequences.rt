//! Words that a machine may do together, against the same words with others between them, and against
//! WebAssembly's definition.

use super::backtraces::{listed, trapped};
use super::hosts::Counting;
use super::modules::module;
use super::outcome::{Beginning, Outcome, run_module};
use super::sequence_rows::{Sequence, sequences as rows};
use ic_base::NoMemory;
use std::alloc::Global;
use std::process::Abort;
use std::test::*;

/// In a body of the table it comes before each word that is paid.
const MARK: u8 = 0xee;

/// The words before each body: the locals are 5, -3 and, of 64 bits, 11.
const LOCALS: &[u8] = b"\xee\x41\x05\xee\x21\x00\xee\x41\x7d\xee\x21\x01\xee\x42\x0b\xee\x21\x02";

/// Where something is between the words.
#[derive(Clone, Copy)]
enum Between {
    Each,
    /// Before the word of that number.
    Before(usize),
}

fn is_there(between: Between, word: usize) -> bool {
    match between {
        Between::Each => true,
        Between::Before(place) => place == word,
    }
}

/// The body's words, and these bytes between them.
fn written(
    alloc: Global,
    marked: &[u8],
    between: Between,
    bytes: &[u8],
) -> Result<Vec<u8>, NoMemory> {
    let mut body = Vec::new(alloc);
    let mut words = 0;
    for byte in marked {
        if *byte != MARK {
            body.push(*byte)?;
        } else {
            if is_there(between, words) {
                body.extend_from_slice(bytes)?;
            }
            words = words.wrapping_add(1);
        }
    }
    Ok(body)
}

fn with_locals(alloc: Global, words: &[u8]) -> Result<Vec<u8>, NoMemory> {
    let mut marked = Vec::from_slice(alloc, LOCALS)?;
    marked.extend_from_slice(words)?;
    Ok(marked)
}

fn run_written(
    alloc: Global,
    marked: &[u8],
    between: Between,
    bytes: &[u8],
    limit: u64,
) -> Result<Outcome, Fail> {
    let body = written(alloc, marked, between, bytes)?;
    let bytes = module(alloc, 3, &body)?;
    run_module(
        alloc,
        &bytes,
        Beginning::Method,
        limit,
        &mut Counting { calls: 0 },
    )
}

fn expect(rt: &impl Abort, name: &str, found: &Outcome, text: &str, used: u64, bytes: [u8; 8]) {
    let told = (found.text.as_str(), found.used, found.bytes);
    assert_eq!(rt; told, (text, used, bytes), "{name}");
}

/// At each limit as many words are done as where a `nop` is before each, which is paid as well.
fn compare_limits<R: Abort + AllocGlobal>(
    rt: &R,
    row: &Sequence,
    marked: &[u8],
) -> Result<(), Fail> {
    let (name, _, _, used, _) = *row;
    for limit in 0..=used {
        let apart = run_written(
            rt.alloc(),
            marked,
            Between::Each,
            b"\x01",
            limit.wrapping_mul(2),
        )?;
        let found = run_written(rt.alloc(), marked, Between::Each, b"", limit)?;
        expect(
            rt,
            name,
            &found,
            apart.text.as_str(),
            apart.used / 2,
            apart.bytes,
        );
    }
    Ok(())
}

/// A branch leads to each word: a block with `br` out of it is before the word.
fn compare_branches<R: Abort + AllocGlobal>(
    rt: &R,
    row: &Sequence,
    marked: &[u8],
) -> Result<(), Fail> {
    let (name, _, text, used, bytes) = *row;
    for word in 0..used {
        let found = run_written(
            rt.alloc(),
            marked,
            Between::Before(word as usize),
            b"\x02\x40\x0c\x00\x0b",
            100,
        )?;
        expect(rt, name, &found, text, used.wrapping_add(2), bytes);
    }
    Ok(())
}

/// The offset of the word at which the run of the method traps.
fn trap_place(
    alloc: Global,
    marked: &[u8],
    between: Between,
    bytes: &[u8],
) -> Result<Option<usize>, Fail> {
    let body = written(alloc, marked, between, bytes)?;
    let valid = listed(alloc, &module(alloc, 3, &body)?)?;
    let found = trapped(alloc, &valid, "run")?;
    match found.places.items.first() {
        Some(place) => Ok(place.offset),
        None => Ok(None),
    }
}

/// A trap tells the place of its own word: it is where `unreachable` before that word traps.
fn compare_places<R: Abort + AllocGlobal>(
    rt: &R,
    row: &Sequence,
    marked: &[u8],
) -> Result<(), Fail> {
    let (name, _, text, used, _) = *row;
    if text == "returned" {
        return Ok(());
    }
    let found = trap_place(rt.alloc(), marked, Between::Each, b"")?;
    let word = Between::Before(used.saturating_sub(1) as usize);
    let there = trap_place(rt.alloc(), marked, word, b"\x00")?;
    assert_eq!(rt; found, there, "{name}");
    assert_ne!(rt; found, None, "{name}");
    Ok(())
}

fn compare_sequence<R: Abort + AllocGlobal>(rt: &R, row: &Sequence) -> Result<(), Fail> {
    let (name, words, text, used, bytes) = *row;
    let marked = with_locals(rt.alloc(), words)?;
    let found = run_written(rt.alloc(), &marked, Between::Each, b"", 100)?;
    expect(rt, name, &found, text, used, bytes);
    compare_limits(rt, row, &marked)?;
    compare_branches(rt, row, &marked)?;
    compare_places(rt, row, &marked)
}

#[test]
fn sequences(rt: HostRuntime) -> Result<(), Fail> {
    for row in rows() {
        compare_sequence(&rt, row)?;
    }
    Ok(())
}
