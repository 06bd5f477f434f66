//! Where runs trap, against `wasm-objdump -d`. The module is what clang makes of `tests/where.c`, up to its name section.
ghost use Rattle.std.specs.Prelude.{IfOk};
ghost use Rattle.wm_store.specs.Fits.{Fits};
ghost use Rattle.wm_semantics.specs.Begin.{IsTarget};

use super::hosts::Refusing;
use super::outcome::{instance_of, valid_of};
use ic_base::NoMemory;
use std::alloc::Global;
use std::process::Abort;
use std::test::*;
use wm_backtrace::{Located, locate};
use wm_decode::listing_of;
use wm_run::{Meter, Target, entry_target, invoke_traced};
use wm_store::Store;
use wm_valid::{EntryName, Valid};

/// The bytes before the name section.
const UNNAMED: usize = 426;

const WHERE: &[u8] = b"\
      \x00\x61\x73\x6d\x01\x00\x00\x00\x01\x12\x04\x60\x01\x7f\x00\x60\x00\x00\x60\x02\x7f\x7f\x00\x60\
      \x01\x7f\x01\x7f\x02\x1c\x02\x03\x69\x63\x30\x04\x74\x72\x61\x70\x00\x02\x03\x69\x63\x30\x09\x6d\
      \x73\x67\x5f\x72\x65\x70\x6c\x79\x00\x01\x03\x0a\x09\x01\x00\x03\x01\x01\x01\x01\x03\x00\x04\x05\
      \x01\x70\x01\x03\x03\x05\x03\x01\x00\x02\x06\x08\x01\x7f\x01\x41\xa0\x88\x04\x0b\x07\x7e\x06\x06\
      \x6d\x65\x6d\x6f\x72\x79\x02\x00\x14\x63\x61\x6e\x69\x73\x74\x65\x72\x5f\x75\x70\x64\x61\x74\x65\
      \x20\x6c\x6f\x61\x64\x00\x02\x14\x63\x61\x6e\x69\x73\x74\x65\x72\x5f\x75\x70\x64\x61\x74\x65\x20\
      \x73\x74\x6f\x70\x00\x05\x15\x63\x61\x6e\x69\x73\x74\x65\x72\x5f\x75\x70\x64\x61\x74\x65\x20\x72\
      \x65\x70\x6c\x79\x00\x06\x14\x63\x61\x6e\x69\x73\x74\x65\x72\x5f\x75\x70\x64\x61\x74\x65\x20\x6e\
      \x6f\x6e\x65\x00\x07\x14\x63\x61\x6e\x69\x73\x74\x65\x72\x5f\x75\x70\x64\x61\x74\x65\x20\x64\x65\
      \x65\x70\x00\x08\x09\x08\x01\x00\x41\x01\x0b\x02\x0a\x01\x0a\x9a\x01\x09\x11\x00\x41\x00\x28\x02\
      \x88\x88\x80\x80\x00\x10\x83\x80\x80\x80\x00\x0b\x0b\x00\x20\x00\x10\x84\x80\x80\x80\x00\x1a\x0b\
      \x07\x00\x20\x00\x28\x02\x00\x0b\x14\x00\x41\x01\x41\x00\x28\x02\x8c\x88\x80\x80\x00\x11\x80\x80\
      \x80\x80\x00\x00\x0b\x12\x00\x41\x00\x28\x02\x90\x88\x80\x80\x00\x11\x81\x80\x80\x80\x00\x00\x0b\
      \x04\x00\x00\x00\x0b\x12\x00\x41\x00\x28\x02\x94\x88\x80\x80\x00\x10\x89\x80\x80\x80\x00\x1a\x0b\
      \x21\x00\x02\x40\x20\x00\x0d\x00\x41\x00\x0f\x0b\x20\x00\x41\x7f\x6a\x10\x89\x80\x80\x80\x00\x41\
      \x00\x28\x02\x94\x88\x80\x80\x00\x6a\x0b\x10\x00\x41\x80\x88\x80\x80\x00\x41\x07\x10\x80\x80\x80\
      \x80\x00\x0b\x0b\x25\x02\x00\x41\x80\x08\x0b\x08\x73\x74\x6f\x70\x70\x65\x64\x00\x00\x41\x88\x08\
      \x0b\x10\xf0\xff\xff\xff\x01\x00\x00\x00\x02\x00\x00\x00\x58\x02\x00\x00\x00\x9f\x01\x04\x6e\x61\
      \x6d\x65\x01\x71\x0b\x00\x07\x69\x63\x5f\x74\x72\x61\x70\x01\x09\x6d\x73\x67\x5f\x72\x65\x70\x6c\
      \x79\x02\x0b\x75\x70\x64\x61\x74\x65\x5f\x6c\x6f\x61\x64\x03\x06\x6d\x69\x64\x64\x6c\x65\x04\x04\
      \x6c\x6f\x61\x64\x05\x0b\x75\x70\x64\x61\x74\x65\x5f\x73\x74\x6f\x70\x06\x0c\x75\x70\x64\x61\x74\
      \x65\x5f\x72\x65\x70\x6c\x79\x07\x0b\x75\x70\x64\x61\x74\x65\x5f\x6e\x6f\x6e\x65\x08\x0b\x75\x70\
      \x64\x61\x74\x65\x5f\x64\x65\x65\x70\x09\x04\x64\x6f\x77\x6e\x0a\x04\x73\x74\x6f\x70\x07\x12\x01\
      \x00\x0f\x5f\x5f\x73\x74\x61\x63\x6b\x5f\x70\x6f\x69\x6e\x74\x65\x72\x09\x11\x02\x00\x07\x2e\x72\
      \x6f\x64\x61\x74\x61\x01\x05\x2e\x64\x61\x74\x61\
";

/// A method; the call of the System API that traps; the functions under way with their offsets, and how many more.
type Row = (
    &'static str,
    &'static str,
    &'static [(&'static str, usize)],
    usize,
);

const ROWS: &[Row] = &[
    (
        "load",
        "",
        &[("load", 0x10c), ("middle", 0x100), ("update_load", 0xf5)],
        0,
    ),
    (
        "stop",
        "trap",
        &[("stop", 0x17c), ("update_stop", 0x11d)],
        0,
    ),
    ("reply", "msg_reply", &[("update_reply", 0x130)], 0),
    ("none", "", &[("update_none", 0x13a)], 0),
];

const UNNAMED_ROW: Row = (
    "load",
    "",
    &[
        ("func[4]", 0x10c),
        ("func[3]", 0x100),
        ("canister_update load", 0xf5),
    ],
    0,
);

fn target_of(valid: &Valid, method: &str) -> Result<Target, Fail>
    ensures { IfOk result (IsTarget valid.now.«module») }
{
    match entry_target(valid, EntryName::Update, method) {
        Some(target) => Ok(target),
        None => Err(Fail::new("no method")),
    }
}

/// Where a method traps; the System API refuses each call.
pub fn trapped(alloc: Global, valid: &Valid, method: &str) -> Result<Located, Fail> {
    let target = target_of(valid, method)?;
    let mut store = instance_of(alloc, valid)?;
    let mut host = Refusing { message: None };
    let mut meter = Meter::new(1_000_000);
    let traced = invoke_traced(alloc, valid, &mut store, target, &mut host, &mut meter)?;
    Ok(locate(alloc, valid, &traced.backtrace)?)
}

/// The module that these bytes are, with how they are written.
pub fn listed(alloc: Global, bytes: &[u8]) -> Result<Valid, Fail> {
    match valid_of(alloc, bytes) {
        Some(valid) => Ok(valid.listed(listing_of(alloc, bytes)?)),
        None => Err(Fail::new("no valid module")),
    }
}

fn call_name(found: &Located) -> &str {
    match &found.call {
        Some(call) => call.name(),
        None => "",
    }
}

fn expect(rt: &impl Abort, found: &Located, row: &Row) {
    let (method, call, places, more) = *row;
    let told = (call_name(found), found.places.items.len(), found.more);
    assert_eq!(rt; told, (call, places.len(), more), "{method}");
    for (place, (function, offset)) in found.places.items.iter().zip(places) {
        let told = (place.function.items.as_str(), place.offset);
        assert_eq!(rt; told, (*function, Some(*offset)), "{method}");
    }
}

#[test]
fn places(rt: HostRuntime) -> Result<(), Fail> {
    let valid = listed(rt.alloc(), WHERE)?;
    for row in ROWS {
        expect(&rt, &trapped(rt.alloc(), &valid, row.0)?, row);
    }
    Ok(())
}

// Without a name section functions have the names of their exports, or their numbers.
#[test]
fn unnamed(rt: HostRuntime) -> Result<(), Fail> {
    let valid = listed(rt.alloc(), &WHERE[..UNNAMED])?;
    expect(&rt, &trapped(rt.alloc(), &valid, "load")?, &UNNAMED_ROW);
    Ok(())
}

// The entry point waits outermost, and is one of 480 that are left out.
#[test]
fn deep(rt: HostRuntime) -> Result<(), Fail> {
    let valid = listed(rt.alloc(), WHERE)?;
    let found = trapped(rt.alloc(), &valid, "deep")?;
    assert_eq!(rt; (found.places.items.len(), found.more), (32, 480));
    for place in &found.places.items {
        let told = (place.function.items.as_str(), place.offset);
        assert_eq!(rt; told, ("down", Some(0x161)));
    }
    Ok(())
}

// A valid module of which nothing was kept tells functions without offsets.
#[test]
fn unlisted(rt: HostRuntime) -> Result<(), Fail> {
    let Some(valid) = valid_of(rt.alloc(), WHERE) else {
        return Err(Fail::new("no valid module"));
    };
    let found = trapped(rt.alloc(), &valid, "none")?;
    assert_eq!(rt; found.places.items.len(), 1);
    for place in &found.places.items {
        let told = (place.function.items.as_str(), place.offset);
        assert_eq!(rt; told, ("canister_update none", None));
    }
    Ok(())
}
