use crate::faults::interface_of;
use cd_did::names_of;
use ic_base::ReadError;
use std::alloc::Global;
use std::test::*;

/// A text, an id, and the id's name if it has one.
type Row = (&'static [u8], u32, Option<&'static str>);

static ROWS: [Row; 24] = [
    (b"type A = record { a : nat }", 97, Some("a")),
    (b"type A = variant { a }", 97, Some("a")),
    // Only ids of records and variants have names.
    (b"type A = record { a : nat }", 65, None),
    (
        b"type A = opt nat; service : { a : (b : nat) -> () }",
        97,
        None,
    ),
    (
        b"type A = opt nat; service : { a : (b : nat) -> () }",
        98,
        None,
    ),
    (b"", 0, None),
    // Within other types.
    (
        b"type A = record { a : opt variant { b : vec record { c : nat } } }",
        98,
        Some("b"),
    ),
    (
        b"type A = record { a : opt variant { b : vec record { c : nat } } }",
        99,
        Some("c"),
    ),
    (
        b"service : (record { a : nat }) -> { f : (variant { b }) -> (record { c : nat }) }",
        97,
        Some("a"),
    ),
    (
        b"service : (record { a : nat }) -> { f : (variant { b }) -> (record { c : nat }) }",
        99,
        Some("c"),
    ),
    // Strings say what they say; a word of the grammar is a word.
    (b"type A = record { \"a b\" : nat }", 4_830_947, Some("a b")),
    (
        b"type A = record { \"\\u{e9}\" : nat }",
        43_654,
        Some("\u{e9}"),
    ),
    (b"type A = record { \"\\61\" : nat }", 97, Some("a")),
    (b"type A = record { \"\" : nat }", 0, Some("")),
    (
        b"type A = record { text : nat }",
        1_291_439_277,
        Some("text"),
    ),
    // A number has the name of a word or a string elsewhere in the file, if there is one, outside of
    // comments; so has a place.
    (b"type A = record { 5 : nat }", 5, None),
    (b"type A = record { nat; nat }", 1, None),
    (b"type A = record { nat; \"\\01\" : nat }", 1, Some("\u{1}")),
    (b"type A = record { 97 : nat; b : nat }", 97, None),
    (
        b"type A = record { 97 : nat }; type B = record { a : nat }",
        97,
        Some("a"),
    ),
    (
        b"service : { f : (a : record { 97 : nat }) -> () }",
        97,
        Some("a"),
    ),
    (b"/* a */ type A = record { 97 : nat } // a", 97, None),
    // The first of two of one id.
    (
        b"type A = record { gabofaka : nat }; type B = variant { dimasebo }",
        555_181_432,
        Some("gabofaka"),
    ),
    (
        b"type A = record { b : variant { dimasebo } }; type gabofaka = nat",
        555_181_432,
        Some("dimasebo"),
    ),
];

fn rows() -> &'static [Row] {
    &ROWS
}

// Whether the id has just this name.
fn is_named(alloc: Global, row: &Row) -> bool {
    match interface_of(alloc, row.0) {
        Err(_) => false,
        Ok(interface) => match names_of(alloc, &interface.table, row.0) {
            Err(_) => false,
            Ok(names) => names.name(row.1) == row.2,
        },
    }
}

#[test]
fn names(rt: HostRuntime) {
    for row in rows() {
        assert!(rt; is_named(rt.alloc(), row), "{:?}", row.0);
    }
}

// A text that has no tokens has no names, and is refused.
fn is_refused(alloc: Global) -> bool {
    match interface_of(alloc, b"type A = nat") {
        Err(_) => false,
        Ok(interface) => matches!(
            names_of(alloc, &interface.table, b"type \""),
            Err(ReadError::Refused)
        ),
    }
}

#[test]
fn no_tokens(rt: HostRuntime) {
    assert!(rt; is_refused(rt.alloc()));
}
