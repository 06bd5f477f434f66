use crate::rows::expected_of;
use cd_codec::Expected;
use cd_did::names_of;
use cd_text::{TextFault, print_named, read};
use ic_base::ReadError;
use ic_principal::Bytes;
use std::alloc::Global;
use std::test::*;

/// A header with the expected types, a text that has names, a text of values, and the text that is
/// printed for them with these names.
type Row = (&'static [u8], &'static [u8], &'static [u8], &'static [u8]);

const RECORD: &[u8] = b"DIDL\x01\x6c\x01\xdb\xb7\x01\x7d\x01\x00";

const KEYWORD: &[u8] = b"DIDL\x01\x6c\x01\xb3\xb8\xd2\x02\x7d\x01\x00";

const VARIANT: &[u8] = b"DIDL\x01\x6b\x02\x00\x7f\x01\x7d\x01\x00";

const RESERVED: &[u8] = b"DIDL\x01\x6b\x01\x00\x70\x01\x00";

const NESTED: &[u8] = b"DIDL\x02\x6b\x01\x01\x7f\x6c\x01\xdb\xb7\x01\x00\x01\x01";

static ROWS: [Row; 9] = [
    // 23515 is the id of `id`, and 0 of the empty name.
    (
        RECORD,
        b"id",
        b"(record { 23515 = 1_000 })",
        b"(record { id = 1000 })",
    ),
    (
        RECORD,
        b"ids",
        b"(record { id = 1 })",
        b"(record { 23515 = 1 })",
    ),
    (
        KEYWORD,
        b"opt",
        b"(record { opt = 1 })",
        b"(record { opt = 1 })",
    ),
    (VARIANT, b"\"\"", b"(variant { 0 })", b"(variant { \"\" })"),
    (
        VARIANT,
        b"\"\\01\"",
        b"(variant { 1 = 5 })",
        b"(variant { \"\\01\" = 5 })",
    ),
    (VARIANT, b"\"\\01\"", b"(variant { 0 })", b"(variant { 0 })"),
    (
        RESERVED,
        b"\"\"",
        b"(variant { 0 = null })",
        b"(variant { \"\" = null })",
    ),
    (
        NESTED,
        b"id",
        b"(record { id = variant { 1 } })",
        b"(record { id = variant { 1 } })",
    ),
    (
        NESTED,
        b"type T = variant { \"\\01\" }",
        b"(record { id = variant { 1 } })",
        b"(record { 23515 = variant { \"\\01\" } })",
    ),
];

fn rows() -> &'static [Row] {
    &ROWS
}

// The text that is printed with the names of one text for the values that another says.
fn printed(
    alloc: Global,
    expected: &Expected,
    named: &[u8],
    said: &[u8],
) -> Result<Bytes, TextFault> {
    let values = read(alloc, expected, said)?;
    let names = match names_of(alloc, expected.table(), named) {
        Ok(names) => names,
        Err(ReadError::Refused) => return Err(TextFault::NotText),
        Err(ReadError::NoMemory) => return Err(TextFault::NoMemory),
    };
    match print_named(
        alloc,
        expected.table(),
        expected.types(),
        &values.items,
        &names,
    ) {
        Ok(bytes) => Ok(bytes),
        Err(_) => Err(TextFault::NoMemory),
    }
}

fn is_printed(alloc: Global, expected: &Expected, row: &Row, said: &[u8]) -> bool {
    match printed(alloc, expected, row.1, said) {
        Ok(bytes) => bytes.items.as_slice() == row.3,
        Err(_) => false,
    }
}

// What is printed is read again.
fn holds(alloc: Global, row: &Row) -> bool {
    match expected_of(alloc, row.0) {
        Some(expected) => {
            is_printed(alloc, &expected, row, row.2) && is_printed(alloc, &expected, row, row.3)
        }
        None => false,
    }
}

#[test]
fn printed_with_names(rt: HostRuntime) {
    for row in rows() {
        assert!(rt; holds(rt.alloc(), row), "{:?}", row.3);
    }
}
