use cd_did::{DidFault, Interface, read_interface};
use std::alloc::Global;
use std::test::*;

/// A text, and its fault if it has one.
type Row = (&'static [u8], Option<DidFault>);

const NOT_INTERFACE: Option<DidFault> = Some(DidFault::NotInterface);

const FLOAT: Option<DidFault> = Some(DidFault::Float);

const UNBOUND: Option<DidFault> = Some(DidFault::Unbound);

const SHAPE: Option<DidFault> = Some(DidFault::Shape);

const SECOND_REPEATED: Option<DidFault> = Some(DidFault::Repeated { definition: 1 });

const THIRD_REPEATED: Option<DidFault> = Some(DidFault::Repeated { definition: 2 });

const FIRST_VACUOUS: Option<DidFault> = Some(DidFault::Vacuous { definition: 0 });

const SECOND_VACUOUS: Option<DidFault> = Some(DidFault::Vacuous { definition: 1 });

static ROWS: [Row; 47] = [
    // Floats, used and unused.
    (b"type A = float32", FLOAT),
    (b"type A = record { float64 : nat }", None),
    (b"service : (float64) -> {}", FLOAT),
    (b"type A = opt float64; type A = B", FLOAT),
    (b"service : { f : () -> (vec float32) }", FLOAT),
    (b"service : { f : (float64) -> () }", FLOAT),
    // Definitions that are repeated; of the second one the fault is found late.
    (b"type A = nat; type A = int", SECOND_REPEATED),
    (
        b"type A = nat; type B = nat; type B = nat; type A = nat",
        THIRD_REPEATED,
    ),
    (b"type A = nat; type a = nat", None),
    (b"type A = B; type A = nat", SECOND_REPEATED),
    // Names that no definition has.
    (b"type A = B", UNBOUND),
    (b"type A = record { B }; service : {}", UNBOUND),
    (b"service : (B) -> {}", UNBOUND),
    (b"service : { f : (opt B) -> () }", UNBOUND),
    (b"service : S", UNBOUND),
    (b"type A = A; type B = C", UNBOUND),
    // Definitions that lead back to themselves.
    (b"type A = A", FIRST_VACUOUS),
    (b"type X = A; type A = B; type B = A", SECOND_VACUOUS),
    (
        b"type X = nat; type A = B; type B = C; type C = A",
        SECOND_VACUOUS,
    ),
    (b"type A = B; type B = A; service : {}", FIRST_VACUOUS),
    (b"type A = B; type B = nat", None),
    (b"type A = opt A", None),
    (b"type A = record { A }", None),
    (b"type A = record { opt A }", None),
    (b"type A = B; type B = vec A", None),
    (b"type A = A; service : { f : A; f : A }", FIRST_VACUOUS),
    // Types without the shape of one.
    (b"type A = record { a : nat; a : int }", SHAPE),
    (b"type A = record { a : nat; 97 : int }", SHAPE),
    (b"type A = record { 1 : nat; 0 : nat; nat }", SHAPE),
    (b"type A = record { 1 : nat; 0 : nat }", None),
    (b"type A = variant { b; a; b }", SHAPE),
    (b"service : { a : () -> (); \"a\" : () -> () }", SHAPE),
    (b"type F = func () -> (); service : { f : F; g : F }", None),
    (b"type F = nat; service : { f : F }", SHAPE),
    (b"type F = service {}; service : { f : F }", SHAPE),
    (b"type F = opt F; service : { f : F }", SHAPE),
    (
        b"type F = G; type G = func () -> (); service : { f : F }",
        None,
    ),
    (
        b"type F = nat; service : { f : (service { g : F }) -> () }",
        SHAPE,
    ),
    (b"type S = nat; service : S", SHAPE),
    (
        b"type S = T; type T = service { f : S }; service : S",
        SHAPE,
    ),
    (b"type F = func () -> (); service : F", SHAPE),
    (b"type S = T; type T = service {}; service : S", None),
    // Of two reasons the first in the order of the faults.
    (b"type A = float32; service", NOT_INTERFACE),
    (b"type A = nat; type A = float32", FLOAT),
    (b"type A = nat; type A = B", SECOND_REPEATED),
    (b"type A = A; type A = A", SECOND_REPEATED),
    (
        b"type A = A; type B = record { a : nat; a : nat }",
        FIRST_VACUOUS,
    ),
];

fn rows() -> &'static [Row] {
    &ROWS
}

/// The interface of a text that is no longer than 4 GiB.
pub(crate) fn interface_of(alloc: Global, text: &[u8]) -> Result<Interface, DidFault> {
    if text.len() < 1 << 32 {
        read_interface(alloc, text)
    } else {
        Err(DidFault::NoMemory)
    }
}

/// The fault of a text.
pub(crate) fn fault_of(alloc: Global, text: &[u8]) -> Option<DidFault> {
    match interface_of(alloc, text) {
        Ok(_) => None,
        Err(fault) => Some(fault),
    }
}

#[test]
fn faults_in_order(rt: HostRuntime) {
    for row in rows() {
        assert!(rt; fault_of(rt.alloc(), row.0) == row.1, "{:?}", row.0);
    }
}
