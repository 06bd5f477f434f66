use crate::sketch::{Sketch, fields, table_of};
use cd_sub::{Subtyping, is_top, may_miss, subtype};
use cd_types::{Entry, Prim, TyRef, TypeTable};
use ic_base::NoMemory;
use std::alloc::Global;
use std::test::*;

const NULL: TyRef = TyRef::Prim(Prim::Null);

const NAT: TyRef = TyRef::Prim(Prim::Nat);

const INT: TyRef = TyRef::Prim(Prim::Int);

const TEXT: TyRef = TyRef::Prim(Prim::Text);

const RESERVED: TyRef = TyRef::Prim(Prim::Reserved);

const EMPTY: TyRef = TyRef::Prim(Prim::Empty);

const PRINCIPAL: TyRef = TyRef::Prim(Prim::Principal);

/// Two types of one table, and whether the first is a subtype of the second.
type Row = (TyRef, TyRef, bool);

/// The entries of a table, and rows over it.
type Family = (&'static [Sketch], &'static [Row]);

// vec, opt, records and variants
const DATA_TYPES: &[Sketch] = &[
    Sketch::Vec(NAT),
    Sketch::Vec(INT),
    Sketch::Opt(NAT),
    Sketch::Opt(TEXT),
    Sketch::Record(&[]),
    Sketch::Record(&[(0, NAT)]),
    Sketch::Record(&[(0, NULL)]),
    Sketch::Record(&[(0, INT), (7, TyRef::Index(3))]),
    Sketch::Record(&[(0, NAT), (3, TEXT), (9, RESERVED)]),
    Sketch::Variant(&[(1, NAT)]),
    Sketch::Variant(&[(0, TEXT), (1, INT)]),
];

const DATA: &[Row] = &[
    (NAT, NAT, true),
    (NAT, INT, true),
    (INT, NAT, false),
    (NULL, TEXT, false),
    (TEXT, RESERVED, true),
    (RESERVED, TEXT, false),
    (EMPTY, TEXT, true),
    (TEXT, EMPTY, false),
    (TyRef::Index(0), RESERVED, true),
    (EMPTY, TyRef::Index(4), true),
    (NULL, TyRef::Index(2), true),
    (TyRef::Index(0), TyRef::Index(2), true),
    (TyRef::Index(3), TyRef::Index(2), true),
    (TyRef::Index(2), NAT, false),
    (TyRef::Index(0), TyRef::Index(1), true),
    (TyRef::Index(1), TyRef::Index(0), false),
    (TyRef::Index(5), TyRef::Index(4), true),
    (TyRef::Index(4), TyRef::Index(6), true),
    (TyRef::Index(5), TyRef::Index(6), false),
    (TyRef::Index(4), TyRef::Index(5), false),
    (TyRef::Index(8), TyRef::Index(7), true),
    (TyRef::Index(7), TyRef::Index(8), false),
    (TyRef::Index(9), TyRef::Index(10), true),
    (TyRef::Index(10), TyRef::Index(9), false),
    (TyRef::Index(4), TyRef::Index(9), false),
];

const REFERENCE_TYPES: &[Sketch] = &[
    Sketch::Opt(NAT),
    Sketch::Func(&[], &[], &[]),
    Sketch::Func(&[NAT], &[INT], &[]),
    Sketch::Func(&[INT], &[NAT], &[]),
    Sketch::Func(&[TyRef::Index(0)], &[], &[]),
    Sketch::Func(&[], &[RESERVED, NULL], &[]),
    Sketch::Func(&[], &[], &[1, 2]),
    Sketch::Func(&[], &[], &[2, 1]),
    Sketch::Service(&[]),
    Sketch::Service(&[("a", 2), ("c", 1)]),
    Sketch::Service(&[("a", 3), ("b", 1), ("c", 1)]),
];

const REFERENCES: &[Row] = &[
    (TyRef::Index(1), TyRef::Index(1), true),
    (TyRef::Index(3), TyRef::Index(2), true),
    (TyRef::Index(2), TyRef::Index(3), false),
    (TyRef::Index(1), TyRef::Index(3), false),
    (TyRef::Index(4), TyRef::Index(1), true),
    (TyRef::Index(1), TyRef::Index(4), true),
    (TyRef::Index(2), TyRef::Index(1), false),
    (TyRef::Index(1), TyRef::Index(5), true),
    (TyRef::Index(5), TyRef::Index(1), true),
    (TyRef::Index(6), TyRef::Index(6), true),
    (TyRef::Index(6), TyRef::Index(7), false),
    (TyRef::Index(6), TyRef::Index(1), false),
    (TyRef::Index(9), TyRef::Index(8), true),
    (TyRef::Index(8), TyRef::Index(9), false),
    (TyRef::Index(10), TyRef::Index(9), true),
    (TyRef::Index(9), TyRef::Index(10), false),
    (TyRef::Index(8), TyRef::Index(1), false),
    (TyRef::Index(8), PRINCIPAL, false),
    (PRINCIPAL, TyRef::Index(8), false),
];

// Lists over nat, and lists over int whose first two cells are written out. A list is a variant
// of the end and of a record of an item and a list.
const LIST_TYPES: &[Sketch] = &[
    Sketch::Variant(&[(0, NULL), (1, TyRef::Index(1))]),
    Sketch::Record(&[(0, NAT), (1, TyRef::Index(0))]),
    Sketch::Variant(&[(0, NULL), (1, TyRef::Index(3))]),
    Sketch::Record(&[(0, INT), (1, TyRef::Index(4))]),
    Sketch::Variant(&[(0, NULL), (1, TyRef::Index(5))]),
    Sketch::Record(&[(0, INT), (1, TyRef::Index(6))]),
    Sketch::Variant(&[(0, NULL), (1, TyRef::Index(7))]),
    Sketch::Record(&[(0, INT), (1, TyRef::Index(6))]),
];

const LISTS: &[Row] = &[
    (TyRef::Index(0), TyRef::Index(0), true),
    (TyRef::Index(2), TyRef::Index(4), true),
    (TyRef::Index(4), TyRef::Index(2), true),
    (TyRef::Index(6), TyRef::Index(2), true),
    (TyRef::Index(0), TyRef::Index(2), true),
    (TyRef::Index(2), TyRef::Index(0), false),
    (TyRef::Index(6), TyRef::Index(0), false),
];

static FAMILIES: [Family; 3] = [
    (DATA_TYPES, DATA),
    (REFERENCE_TYPES, REFERENCES),
    (LIST_TYPES, LISTS),
];

fn families() -> &'static [Family] {
    &FAMILIES
}

// Whether the one type is a subtype of the other, if both are inside their tables.
fn below(alloc: Global, t1: &TypeTable, x: TyRef, t2: &TypeTable, y: TyRef) -> Option<bool> {
    if t1.contains(x) && t2.contains(y) {
        subtype(alloc, t1, x, t2, y).ok()
    } else {
        None
    }
}

fn are_answered(alloc: Global, table: &TypeTable, rows: &[Row]) -> bool {
    for (x, y, is_below) in rows {
        if below(alloc, table, *x, table, *y) != Some(*is_below) {
            return false;
        }
    }
    true
}

fn is_family(alloc: Global, family: &Family) -> bool {
    match table_of(alloc, family.0) {
        Some(table) => are_answered(alloc, &table, family.1),
        None => false,
    }
}

#[test]
fn rules(rt: HostRuntime) {
    for (place, family) in families().iter().enumerate() {
        assert!(rt; is_family(rt.alloc(), family), "{place}");
    }
}

/// Records in a ring: how many, a type, and another. Each record contains the next one, and a field
/// of the first type, which at the last record is of the other.
type Ring = (u32, TyRef, TyRef);

fn extend_ring(alloc: Global, ring: Ring, entries: &mut Vec<Entry>) -> Result<(), NoMemory> {
    let (count, ty, last) = ring;
    for place in 1..count {
        let record = Entry::Rec(fields(alloc, &[(0, TyRef::Index(place)), (1, ty)])?);
        entries.push(record)?;
    }
    let record = Entry::Rec(fields(alloc, &[(0, TyRef::Index(0)), (1, last)])?);
    entries.push(record)?;
    Ok(())
}

fn ring_table(alloc: Global, ring: Ring) -> Option<TypeTable> {
    let mut entries = Vec::new(alloc);
    match extend_ring(alloc, ring, &mut entries) {
        Ok(()) => TypeTable::new(entries).ok(),
        Err(_) => None,
    }
}

// Whether the first type of one table is a subtype of the first of another, asked twice.
fn below_twice(alloc: Global, t1: &TypeTable, t2: &TypeTable) -> Option<(bool, bool)> {
    let first = TyRef::Index(0);
    if !t1.contains(first) || !t2.contains(first) {
        return None;
    }
    let mut subtyping = Subtyping::new(alloc, t1, t2);
    let once = subtyping.is_subtype(first, first);
    let again = subtyping.is_subtype(first, first);
    match (once, again) {
        (Ok(once), Ok(again)) => Some((once, again)),
        _ => None,
    }
}

fn asked_twice(alloc: Global, t1: &TypeTable, ring: Ring) -> Option<(bool, bool)> {
    match ring_table(alloc, ring) {
        Some(t2) => below_twice(alloc, t1, &t2),
        None => None,
    }
}

fn rings_twice(alloc: Global, first: Ring, second: Ring) -> Option<(bool, bool)> {
    match ring_table(alloc, first) {
        Some(t1) => asked_twice(alloc, &t1, second),
        None => None,
    }
}

/// Two rings, and whether the first type of the one is a subtype of the first of the other.
type RingRow = (Ring, Ring, bool);

// Rings that differ late, and not at all; the last have the greatest size of a table.
static RINGS: [RingRow; 5] = [
    ((61, NAT, TEXT), (67, RESERVED, INT), false),
    ((61, NAT, TEXT), (67, RESERVED, RESERVED), true),
    ((499, NAT, TEXT), (500, RESERVED, INT), false),
    ((499, NAT, TEXT), (499, NAT, TEXT), true),
    ((10_000, NAT, NAT), (10_000, NAT, NAT), true),
];

fn ring_rows() -> &'static [RingRow] {
    &RINGS
}

#[test]
fn rings_asked_twice(rt: HostRuntime) {
    for (first, second, below) in ring_rows() {
        let answers = rings_twice(rt.alloc(), *first, *second);
        assert_eq!(rt; answers, Some((*below, *below)));
    }
}

/// Whether a value of the type may be missing, and whether the type is above every type.
fn special(table: &TypeTable, ty: TyRef) -> (bool, bool) {
    (may_miss(table, ty), is_top(table, ty))
}

fn are_special(table: &TypeTable) -> bool {
    special(table, NULL) == (true, false)
        && special(table, RESERVED) == (true, true)
        && special(table, TyRef::Index(0)) == (true, true)
        && special(table, NAT) == (false, false)
}

fn is_special(alloc: Global) -> bool {
    match table_of(alloc, &[Sketch::Opt(NAT)]) {
        Some(table) => are_special(&table),
        None => false,
    }
}

#[test]
fn special_types(rt: HostRuntime) {
    assert!(rt; is_special(rt.alloc()));
}
