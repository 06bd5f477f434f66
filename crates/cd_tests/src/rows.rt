use cd_codec::{Expected, read_header};
use cd_text::{TextFault, print, read};
use ic_principal::Bytes;
use std::alloc::Global;
use std::process::Abort;
use std::test::*;

/// A header with the expected types, a text, and the text that is printed for the values it says, or
/// `None` where it says none.
pub(crate) type Row = (&'static [u8], &'static [u8], Option<&'static [u8]>);

/// The expected types that a header names.
pub(crate) fn expected_of(alloc: Global, header: &[u8]) -> Option<Expected> {
    match read_header(alloc, header) {
        Ok(header) => Some(Expected::of(header.table, header.types.items)),
        Err(_) => None,
    }
}

// The text that is printed for the values that a text says.
fn printed(alloc: Global, expected: &Expected, text: &[u8]) -> Result<Bytes, TextFault> {
    let values = read(alloc, expected, text)?;
    match print(alloc, expected.table(), expected.types(), &values.items) {
        Ok(bytes) => Ok(bytes),
        Err(_) => Err(TextFault::NoMemory),
    }
}

fn is_printed(alloc: Global, expected: &Expected, text: &[u8], wanted: &[u8]) -> bool {
    match printed(alloc, expected, text) {
        Ok(bytes) => bytes.items.as_slice() == wanted,
        Err(_) => false,
    }
}

/// Whether the text says values, or none, as it is wanted.
pub(crate) fn is_said(alloc: Global, expected: &Expected, text: &[u8], wanted: bool) -> bool {
    match read(alloc, expected, text) {
        Ok(_) => wanted,
        Err(fault) => !wanted && fault == TextFault::NotText,
    }
}

// What is printed is read again.
fn holds_at(alloc: Global, expected: &Expected, text: &[u8], wanted: Option<&[u8]>) -> bool {
    match wanted {
        Some(wanted) => {
            is_printed(alloc, expected, text, wanted) && is_printed(alloc, expected, wanted, wanted)
        }
        None => is_said(alloc, expected, text, false),
    }
}

fn holds(alloc: Global, row: &Row) -> bool {
    match expected_of(alloc, row.0) {
        Some(expected) => holds_at(alloc, &expected, row.1, row.2),
        None => false,
    }
}

pub(crate) fn hold<R: Abort>(rt: &R, alloc: Global, rows: &[Row]) {
    for row in rows {
        assert!(rt; holds(alloc, row), "{:?}", row.1);
    }
}
