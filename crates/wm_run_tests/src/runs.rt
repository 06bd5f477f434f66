mod backtraces;
mod bodies;
mod hosts;
mod modules;
mod outcome;
mod rows;
mod sequence_rows;
mod sequences;

use hosts::{Counting, Refusing};
use ic_base::NoMemory;
use ic_principal::Text;
use modules::module;
use outcome::{Outcome, run, run_module, run_with};
use rows::{Begun, Row};
use std::alloc::Global;
use std::process::Abort;
use std::test::*;

/// The run of these words ended so.
fn expect(rt: &impl Abort, body: &[u8], found: &Outcome, text: &str, used: u64) {
    assert_eq!(rt; (found.text.as_str(), found.used), (text, used), "{body:?}");
}

fn compare<R: Abort + AllocGlobal>(rt: &R, rows: &[Row]) -> Result<(), Fail> {
    for (body, limit, text, used) in rows {
        let found = run(rt.alloc(), body, *limit)?;
        expect(rt, body, &found, text, *used);
    }
    Ok(())
}

#[test]
fn charges(rt: HostRuntime) -> Result<(), Fail> {
    compare(&rt, rows::charges())
}

#[test]
fn growth(rt: HostRuntime) -> Result<(), Fail> {
    for (body, limit, text, used, pages) in rows::growths() {
        let found = run(rt.alloc(), body, *limit)?;
        expect(&rt, body, &found, text, *used);
        assert_eq!(rt; found.pages, *pages, "{body:?}");
    }
    Ok(())
}

// Sign extension, copies and fills.
#[test]
fn ranges(rt: HostRuntime) -> Result<(), Fail> {
    for (body, limit, text, used, bytes) in rows::ranges() {
        let found = run(rt.alloc(), body, *limit)?;
        expect(&rt, body, &found, text, *used);
        assert_eq!(rt; found.bytes, *bytes, "{body:?}");
    }
    Ok(())
}

/// That many words `nop`.
fn nops(alloc: Global, count: usize) -> Result<Vec<u8>, NoMemory> {
    let mut body = Vec::new(alloc);
    body.resize(count, 1)?;
    Ok(body)
}

// A large body is run: that takes no memory that is not there.
#[test]
fn large_body(rt: HostRuntime) -> Result<(), Fail> {
    let body = nops(rt.alloc(), 100_000)?;
    let found = run(rt.alloc(), &body, 1_000_000)?;
    expect(&rt, b"100,000 times nop", &found, "returned", 100_000);
    Ok(())
}

#[test]
fn traps(rt: HostRuntime) -> Result<(), Fail> {
    compare(&rt, rows::traps())
}

#[test]
fn depth(rt: HostRuntime) -> Result<(), Fail> {
    compare(&rt, rows::depths())
}

/// Each frame adds 1 to the global, which began with 7, and calls itself. The 512th calls a function
/// by the table before that.
fn calls_in_last_frame(alloc: Global, place: u8) -> Result<Vec<u8>, NoMemory> {
    let mut body = Vec::from_slice(
        alloc,
        b"\x23\x00\x42\x01\x7c\x24\x00\x23\x00\x42\x87\x04\x51\x04\x40\x41\x05\x41",
    )?;
    body.push(place)?;
    body.extend_from_slice(b"\x11\x01\x00\x0b\x10\x03")?;
    Ok(body)
}

// What a call by the table finds comes before the count of frames.
#[test]
fn last_frame(rt: HostRuntime) -> Result<(), Fail> {
    for (place, limit, text, used) in rows::last_frames() {
        let body = calls_in_last_frame(rt.alloc(), *place)?;
        let found = run(rt.alloc(), &body, *limit)?;
        expect(&rt, &body, &found, text, *used);
    }
    Ok(())
}

/// Runs the empty body's module from a function of it.
fn compare_beginning<R: Abort + AllocGlobal>(rt: &R, row: &Begun) -> Result<(), Fail> {
    let (function, beginning, limit, text, used, calls) = *row;
    let mut host = Counting { calls: 0 };
    let bytes = module(rt.alloc(), function, &[])?;
    let found = run_module(rt.alloc(), &bytes, beginning, limit, &mut host)?;
    let ended = (found.text.as_str(), found.used, host.calls);
    assert_eq!(rt;
        ended,
        (text, used, calls),
        "{function} {beginning:?} {limit}"
    );
    Ok(())
}

#[test]
fn beginnings(rt: HostRuntime) -> Result<(), Fail> {
    for row in rows::begun() {
        compare_beginning(&rt, row)?;
    }
    Ok(())
}

#[test]
fn refusals(rt: HostRuntime) -> Result<(), Fail> {
    for (body, limit, text, used) in rows::refused() {
        let mut host = Refusing { message: None };
        let found = run_with(rt.alloc(), body, *limit, &mut host)?;
        expect(&rt, body, &found, text, *used);
    }
    Ok(())
}

// Of two calls of an import the host refuses the first.
#[test]
fn message(rt: HostRuntime) -> Result<(), Fail> {
    let mut host = Refusing {
        message: Some(Text {
            items: String::from_str(rt.alloc(), "no cycles")?,
        }),
    };
    let body = b"\x10\x00\x10\x00";
    let found = run_with(rt.alloc(), body, 9, &mut host)?;
    expect(&rt, body, &found, "no cycles", 1);
    Ok(())
}

// Memory, locals, globals and control.
#[test]
fn other_instructions(rt: HostRuntime) -> Result<(), Fail> {
    for (name, body) in bodies::others() {
        let found = run(rt.alloc(), body, 1000)?;
        assert_eq!(rt; found.text.as_str(), "returned", "{name}");
    }
    Ok(())
}
