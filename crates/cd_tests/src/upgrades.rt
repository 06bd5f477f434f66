use crate::faults::interface_of;
use cd_did::{Interface, upgradable};
use std::alloc::Global;
use std::test::*;

/// An interface, another, and whether one may be upgraded to the other; both have a service.
type Row = (&'static [u8], &'static [u8], bool);

static ROWS: [Row; 23] = [
    // Methods.
    (b"service : {}", b"service : {}", true),
    (
        b"service : { get : () -> (nat) query }",
        b"service : { get : () -> (nat) query; set : (nat) -> () }",
        true,
    ),
    (
        b"service : { get : () -> (nat) query; set : (nat) -> () }",
        b"service : { get : () -> (nat) query }",
        false,
    ),
    (
        b"service : { b : () -> (); a : () -> () }",
        b"service : { a : () -> (); b : () -> () }",
        true,
    ),
    (
        b"type F = func (nat) -> (); service : { f : F }",
        b"service : { f : (nat) -> () }",
        true,
    ),
    (
        b"type S = service { f : () -> () }; service : S",
        b"service : { f : () -> () }",
        true,
    ),
    // Annotations, in the order in which they are written.
    (
        b"service : { f : () -> () query }",
        b"service : { f : () -> () }",
        false,
    ),
    (
        b"service : { f : () -> () oneway query }",
        b"service : { f : () -> () query oneway }",
        false,
    ),
    (
        b"service : { f : () -> () oneway query }",
        b"service : { f : () -> () oneway query }",
        true,
    ),
    (
        b"service : { f : () -> () composite_query }",
        b"service : { f : () -> () composite_query }",
        true,
    ),
    // Arguments may be taken more widely, and results given more narrowly.
    (
        b"service : { f : (nat) -> (int) }",
        b"service : { f : (int) -> (nat) }",
        true,
    ),
    (
        b"service : { f : (int) -> (nat) }",
        b"service : { f : (nat) -> (int) }",
        false,
    ),
    (
        b"service : { f : (nat) -> () }",
        b"service : { f : (nat, opt text) -> (nat) }",
        true,
    ),
    (
        b"service : { f : (nat) -> () }",
        b"service : { f : (nat, text) -> () }",
        false,
    ),
    (
        b"service : { f : (record { a : nat; b : nat }) -> () }",
        b"service : { f : (record { b : nat }) -> () }",
        true,
    ),
    (
        b"service : { f : () -> (variant { a; b }) }",
        b"service : { f : () -> (variant { b; a; c }) }",
        false,
    ),
    (
        b"service : { f : (variant { a; b }) -> () }",
        b"service : { f : (variant { b; a : null; c }) -> () }",
        true,
    ),
    // Names of arguments, and the service's name and tuple, have no meaning.
    (
        b"service text : (nat) -> { f : (n : nat, \"a b\" : text) -> () }",
        b"service : { f : (nat : nat, text) -> () }",
        true,
    ),
    // Labels are their ids.
    (
        b"service : { f : (record { a : nat; nat }) -> () }",
        b"service : { f : (record { 97 : nat; 98 : nat }) -> () }",
        true,
    ),
    (
        b"service : { f : () -> (blob) }",
        b"service : { f : () -> (vec nat8) }",
        true,
    ),
    // Types that name themselves.
    (
        b"type L = opt record { nat; L }; service : { f : (L) -> () }",
        b"type L = opt record { nat; opt record { nat; L } }; service : { f : (L) -> () }",
        true,
    ),
    (
        b"type L = record { nat; L }; service : { f : (L) -> (L) }",
        b"type L = record { nat; M }; type M = L; service : { f : (M) -> (L) }",
        true,
    ),
    (
        b"type S = service { f : (S) -> () }; service : S",
        b"type S = service { f : (S) -> (); g : () -> () }; service : S",
        false,
    ),
];

fn rows() -> &'static [Row] {
    &ROWS
}

fn is_answered(alloc: Global, old: &Interface, new: &Interface, wanted: bool) -> bool {
    if !old.has_service() || !new.has_service() {
        return false;
    }
    match upgradable(alloc, old, new) {
        Ok(answer) => answer == wanted,
        Err(_) => false,
    }
}

fn holds(alloc: Global, row: &Row) -> bool {
    match (interface_of(alloc, row.0), interface_of(alloc, row.1)) {
        (Ok(old), Ok(new)) => is_answered(alloc, &old, &new, row.2),
        _ => false,
    }
}

#[test]
fn upgrades(rt: HostRuntime) {
    for row in rows() {
        assert!(rt; holds(rt.alloc(), row), "{:?} {:?}", row.0, row.1);
    }
}
