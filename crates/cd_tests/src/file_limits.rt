use crate::faults::fault_of;
use cd_did::DidFault;
use ic_base::NoMemory;
use std::alloc::Global;
use std::test::*;

/// Pieces of a text one after the other, each that many times, and the text's fault.
type Row = (&'static [(&'static [u8], usize)], Option<DidFault>);

const NOT_INTERFACE: Option<DidFault> = Some(DidFault::NotInterface);

const TOO_MANY: Option<DidFault> = Some(DidFault::TooMany);

static ROWS: [Row; 16] = [
    // Levels: a definition's type is the first.
    (&[(b"type A = ", 1), (b"opt ", 127), (b"nat", 1)], None),
    (
        &[(b"type A = ", 1), (b"opt ", 128), (b"nat", 1)],
        NOT_INTERFACE,
    ),
    // Null that is not written is no level.
    (
        &[(b"type A = ", 1), (b"vec ", 127), (b"variant { a }", 1)],
        None,
    ),
    (
        &[
            (b"type A = ", 1),
            (b"vec ", 127),
            (b"variant { a : null }", 1),
        ],
        NOT_INTERFACE,
    ),
    // A method's function is a level, and so is a service that stands as a type; the file's own is none.
    (
        &[
            (b"service : { f : (", 1),
            (b"opt ", 126),
            (b"nat) -> () }", 1),
        ],
        None,
    ),
    (
        &[
            (b"service : { f : (", 1),
            (b"opt ", 127),
            (b"nat) -> () }", 1),
        ],
        NOT_INTERFACE,
    ),
    (
        &[
            (b"type A = ", 1),
            (b"opt ", 125),
            (b"service { f : (nat) -> () }", 1),
        ],
        None,
    ),
    (
        &[
            (b"type A = ", 1),
            (b"opt ", 126),
            (b"service { f : (nat) -> () }", 1),
        ],
        NOT_INTERFACE,
    ),
    (
        &[
            (b"type A = ", 1),
            (b"opt ", 127),
            (b"service { f : () -> () }", 1),
        ],
        NOT_INTERFACE,
    ),
    // The types that a service is installed with begin at the first level.
    (
        &[(b"service : (", 1), (b"opt ", 127), (b"nat) -> {}", 1)],
        None,
    ),
    // Types: the record and the service are two, and a method's function is one.
    (
        &[
            (b"type A = record { ", 1),
            (b"blob; ", 9998),
            (b"}; service : {}", 1),
        ],
        None,
    ),
    (
        &[
            (b"type A = record { ", 1),
            (b"blob; ", 9999),
            (b"}; service : {}", 1),
        ],
        TOO_MANY,
    ),
    (
        &[
            (b"type A = record { ", 1),
            (b"blob; ", 9997),
            (b"}; service : { f : () -> () }", 1),
        ],
        None,
    ),
    (
        &[
            (b"type A = record { ", 1),
            (b"blob; ", 9998),
            (b"}; service : { f : () -> () }", 1),
        ],
        TOO_MANY,
    ),
    // Primitive types and cases alone are none.
    (
        &[
            (b"type A = variant { a; b }; type B = record { ", 1),
            (b"nat; ", 10000),
            (b"}", 1),
        ],
        None,
    ),
    (
        &[
            (b"type A = record { ", 1),
            (b"blob; ", 10000),
            (b"0 : nat }", 1),
        ],
        Some(DidFault::Shape),
    ),
];

fn rows() -> &'static [Row] {
    &ROWS
}

fn repeated(alloc: Global, pieces: &[(&[u8], usize)]) -> Result<Vec<u8>, NoMemory> {
    let mut text = Vec::new(alloc);
    for (piece, count) in pieces {
        for _ in 0..*count {
            text.extend_from_slice(piece)?;
        }
    }
    Ok(text)
}

fn has_fault(alloc: Global, row: &Row) -> bool {
    match repeated(alloc, row.0) {
        Ok(text) => fault_of(alloc, &text) == row.1,
        Err(_) => false,
    }
}

#[test]
fn limits(rt: HostRuntime) {
    for row in rows() {
        assert!(rt; has_fault(rt.alloc(), row), "{:?}", row.0);
    }
}
