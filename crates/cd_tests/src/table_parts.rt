use crate::rows::expected_of;
use cd_codec::encode;
use cd_coerce::{Expected, decode};
use cd_part::part_of;
use ic_principal::Bytes;
use std::alloc::Global;
use std::test::*;

/// A message, and the same values over the part of its table that their types need.
type Row = (&'static [u8], &'static [u8]);

// The types of the arguments follow the table.
static ROWS: [Row; 8] = [
    // No entry is needed, or one of two, also for two arguments.
    (b"DIDL\x01\x6e\x7d\x01\x7d\x05", b"DIDL\x00\x01\x7d\x05"),
    (
        b"DIDL\x02\x6e\x7d\x6d\x71\x01\x01\x01\x01a",
        b"DIDL\x01\x6d\x71\x01\x00\x01\x01a",
    ),
    (
        b"DIDL\x02\x6e\x7d\x6d\x7d\x02\x01\x01\x00\x00",
        b"DIDL\x01\x6d\x7d\x02\x00\x00\x00\x00",
    ),
    // Of five entries `record { 0 : 4; 1 : 2 }`, at 3, needs itself, 4 and 2, in this order.
    (
        b"DIDL\x05\x6e\x00\x6d\x00\x6e\x71\x6c\x02\x00\x04\x01\x02\x6d\x02\x03\x03\x7d\x02\x01\x00\x00\x05\x00",
        b"DIDL\x03\x6c\x02\x00\x01\x01\x02\x6d\x02\x6e\x71\x03\x00\x7d\x02\x01\x00\x00\x05\x00",
    ),
    // A variant: its first case needs two entries before the second is met.
    (
        b"DIDL\x04\x6e\x7d\x6d\x02\x6e\x71\x6b\x02\x03\x01\x04\x00\x01\x03\x01\x00",
        b"DIDL\x04\x6b\x02\x03\x01\x04\x03\x6d\x02\x6e\x71\x6e\x7d\x01\x00\x01\x00",
    ),
    // A list, whose entries name each other.
    (
        b"DIDL\x03\x6d\x7d\x6c\x02\x00\x7d\x01\x02\x6e\x01\x01\x02\x01\x07\x00",
        b"DIDL\x02\x6e\x01\x6c\x02\x00\x7d\x01\x00\x01\x00\x01\x07\x00",
    ),
    // A function: its arguments, then its results; its annotation stays.
    (
        b"DIDL\x03\x6e\x71\x6a\x01\x02\x01\x00\x01\x01\x6d\x7d\x01\x01\x01\x01\x00\x01m",
        b"DIDL\x03\x6a\x01\x01\x01\x02\x01\x01\x6d\x7d\x6e\x71\x01\x00\x01\x01\x00\x01m",
    ),
    // A service with the methods a and b.
    (
        b"DIDL\x04\x6a\x00\x01\x02\x00\x6a\x00\x00\x00\x6e\x7d\x69\x02\x01a\x01\x01b\x00\x01\x03\x01\x00",
        b"DIDL\x04\x69\x02\x01a\x01\x01b\x02\x6a\x00\x00\x00\x6a\x00\x01\x03\x00\x6e\x7d\x01\x00\x01\x00",
    ),
];

fn rows() -> &'static [Row] {
    &ROWS
}

/// The values that a message has at the part of a table that its types need, written over this part.
fn written(alloc: Global, expected: &Expected, message: &[u8]) -> Option<Bytes> {
    let part = part_of(alloc, expected.table(), expected.types()).ok()?;
    let values = decode(alloc, &part, message).ok()?;
    encode(alloc, part.table(), part.types(), &values.items).ok()
}

fn is_written(alloc: Global, expected: &Expected, message: &[u8], wanted: &[u8]) -> bool {
    match written(alloc, expected, message) {
        Some(bytes) => bytes.items.as_slice() == wanted,
        None => false,
    }
}

// What is written is written again as it is.
fn is_row(alloc: Global, row: &Row) -> bool {
    match expected_of(alloc, row.0) {
        Some(expected) => {
            is_written(alloc, &expected, row.0, row.1) && is_written(alloc, &expected, row.1, row.1)
        }
        None => false,
    }
}

#[test]
fn messages_over_parts(rt: HostRuntime) {
    for row in rows() {
        assert!(rt; is_row(rt.alloc(), row), "{:?}", row.1);
    }
}
