use crate::sketch::{Sketch, entries, table_of};
use cd_types::*;
use ic_base::NoMemory;
use std::alloc::Global;
use std::test::*;

/// Entries, how often they are there, and the fault.
type Row = (&'static [Sketch], usize, Option<TableFault>);

const NAT: TyRef = TyRef::Prim(Prim::Nat);

const ORDER: Option<TableFault> = Some(TableFault::Order { entry: 0 });

static ROWS: [Row; 11] = [
    (
        &[Sketch::Vec(TyRef::Index(1))],
        1,
        Some(TableFault::BadIndex { entry: 0 }),
    ),
    (&[Sketch::Record(&[(1, NAT), (0, NAT)])], 1, ORDER),
    (
        &[Sketch::Service(&[("a", 1)]), Sketch::Opt(NAT)],
        1,
        Some(TableFault::NotFunc { entry: 0 }),
    ),
    (&[Sketch::Record(&[(0, NAT), (0, NAT)])], 1, ORDER),
    (
        &[Sketch::Record(&[(0, NAT), (4_294_967_295, NAT)])],
        1,
        None,
    ),
    (
        &[
            Sketch::Func(&[], &[], &[1, 2, 3]),
            Sketch::Func(&[], &[], &[4]),
        ],
        1,
        Some(TableFault::Order { entry: 1 }),
    ),
    (&[Sketch::Func(&[], &[], &[0])], 1, ORDER),
    (
        &[
            Sketch::Service(&[("b", 1), ("a", 1)]),
            Sketch::Func(&[], &[], &[]),
        ],
        1,
        ORDER,
    ),
    (
        &[
            Sketch::Service(&[("", 1), ("a", 1), ("aa", 1), ("b", 1)]),
            Sketch::Func(&[], &[], &[]),
        ],
        1,
        None,
    ),
    (&[Sketch::Opt(NAT)], 10_000, None),
    (&[Sketch::Opt(NAT)], 10_001, Some(TableFault::TooMany)),
];

fn rows() -> &'static [Row] {
    &ROWS
}

fn fault(alloc: Global, row: &Row) -> Result<Option<TableFault>, NoMemory> {
    match entries(alloc, row.0, row.1) {
        Ok(entries) => Ok(TypeTable::new(entries).err()),
        Err(error) => Err(error),
    }
}

#[test]
fn faults_of_tables(rt: HostRuntime) {
    for row in rows() {
        assert_eq!(rt; fault(rt.alloc(), row), Ok(row.2));
    }
}

// The number of entries, and whether places 0 and 1 are inside and have an entry.
fn places(table: &TypeTable) -> (u32, [bool; 4]) {
    let places = [
        table.contains(TyRef::Index(0)),
        table.entry(0).is_some(),
        table.contains(TyRef::Index(1)),
        table.entry(1).is_some(),
    ];
    (table.len(), places)
}

fn places_of_one(alloc: Global) -> Option<(u32, [bool; 4])> {
    match table_of(alloc, &[Sketch::Vec(TyRef::Index(0))]) {
        Some(table) => Some(places(&table)),
        None => None,
    }
}

#[test]
fn entries_by_place(rt: HostRuntime) {
    assert_eq!(rt;
        places_of_one(rt.alloc()),
        Some((1, [true, true, false, false]))
    );
}

#[test]
fn ids_of_names(rt: HostRuntime) {
    // The ids of the Candid specification's hash, as the management canister's interface has them.
    for (name, id) in [("id", 23515), ("", 0), ("canister_id", 1_313_628_723)] {
        assert_eq!(rt; field_id(name), id);
    }
    // 254 * 223 + 255, of bytes that are no UTF-8.
    assert_eq!(rt; field_id_of_bytes(b"\xfe\xff"), 56_897);
}
