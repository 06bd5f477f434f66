use crate::faults::interface_of;
use cd_did::Method;
use cd_types::{Prim, TyRef};
use std::alloc::Global;
use std::test::*;

/// Arguments, results and annotations.
type Function = (&'static [TyRef], &'static [TyRef], &'static [u8]);

/// A text, a name, and the function of the service's method of that name.
type Row = (&'static [u8], &'static str, Option<Function>);

const NAT: TyRef = TyRef::Prim(Prim::Nat);

const TEXT: TyRef = TyRef::Prim(Prim::Text);

const NONE: Option<Function> = Some((&[], &[], &[]));

static ROWS: [Row; 17] = [
    (
        b"service : { get : (nat) -> (text, nat) query }",
        "get",
        Some((&[NAT], &[TEXT, NAT], &[1])),
    ),
    (
        b"service : { get : (nat) -> (text, nat) query }",
        "ge",
        None,
    ),
    (
        b"service : { get : (nat) -> (text, nat) query }",
        "gett",
        None,
    ),
    (
        b"service : { get : (nat) -> (text, nat) query }",
        "Get",
        None,
    ),
    (b"service : { get : (nat) -> (text, nat) query }", "", None),
    // No method, no service.
    (b"service : {}", "get", None),
    (b"", "get", None),
    (b"type S = service { get : () -> () }", "get", None),
    (
        b"type S = service { get : () -> () }; service : { set : () -> () }",
        "get",
        None,
    ),
    // In any order, by other names, with all annotations in theirs.
    (b"service : { b : () -> (); a : (nat) -> () }", "b", NONE),
    (
        b"service : { b : () -> (); a : (nat) -> () }",
        "a",
        Some((&[NAT], &[], &[])),
    ),
    (
        b"type F = G; type G = func (text) -> () oneway; service : { f : F }",
        "f",
        Some((&[TEXT], &[], &[2])),
    ),
    (b"type S = service { f : () -> () }; service : S", "f", NONE),
    (
        b"service : { f : () -> () composite_query query }",
        "f",
        Some((&[], &[], &[3, 1])),
    ),
    // Names that are no words.
    (b"service : { \"a b\" : () -> () }", "a b", NONE),
    (b"service : { \"\" : () -> () }", "", NONE),
    // Types are places in the table, in the order in which they end.
    (
        b"type R = record { opt nat }; service : { f : (nat, R) -> () }",
        "f",
        Some((&[NAT, TyRef::Index(1)], &[], &[])),
    ),
];

fn rows() -> &'static [Row] {
    &ROWS
}

fn is_function(method: Option<Method<'_>>, function: &Option<Function>) -> bool {
    match method {
        None => function.is_none(),
        Some(method) => match function {
            None => false,
            Some(function) => {
                method.args == function.0
                    && method.results == function.1
                    && method.notes == function.2
            }
        },
    }
}

fn has_function(alloc: Global, row: &Row) -> bool {
    match interface_of(alloc, row.0) {
        Err(_) => false,
        Ok(interface) => is_function(interface.method(row.1), &row.2),
    }
}

#[test]
fn methods(rt: HostRuntime) {
    for row in rows() {
        assert!(rt; has_function(rt.alloc(), row), "{:?} {:?}", row.0, row.1);
    }
}

/// A text, and the types that its service is installed with.
type Installed = (&'static [u8], &'static [TyRef]);

static INSTALLED: [Installed; 7] = [
    (b"service : (nat, n : text,) -> {}", &[NAT, TEXT]),
    (b"service : () -> {}", &[]),
    (b"service : {}", &[]),
    (b"type A = nat", &[]),
    (b"service s : (nat) -> { f : (text) -> () }", &[NAT]),
    (
        b"type T = record {}; service : (T, n : T) -> {}",
        &[TyRef::Index(0), TyRef::Index(0)],
    ),
    (
        b"type A = B; type B = vec A; service : (A, opt B) -> {}",
        &[TyRef::Index(0), TyRef::Index(1)],
    ),
];

fn installed() -> &'static [Installed] {
    &INSTALLED
}

fn is_installed_with(alloc: Global, row: &Installed) -> bool {
    match interface_of(alloc, row.0) {
        Err(_) => false,
        Ok(interface) => interface.init() == row.1,
    }
}

#[test]
fn types_installed_with(rt: HostRuntime) {
    for row in installed() {
        assert!(rt; is_installed_with(rt.alloc(), row), "{:?}", row.0);
    }
}
