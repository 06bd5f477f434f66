use crate::pieces::{Piece, message_of};
use crate::rows::expected_of;
use ic_base::NoMemory;
use std::alloc::Global;
use std::test::*;

/// A header with the expected types, the pieces of a text before the token where it is wrong, and the
/// rest of it.
type Row = (&'static [u8], &'static [Piece<'static>], &'static [u8]);

/// The pieces of an interface file before the token where it is wrong, and the rest of it.
type FileRow = (&'static [Piece<'static>], &'static [u8]);

const NAT: &[u8] = b"DIDL\x00\x01\x7d";

const TWO: &[u8] = b"DIDL\x00\x02\x7d\x7e";

const OPT_NAT: &[u8] = b"DIDL\x01\x6e\x7d\x01\x00";

const BLOB: &[u8] = b"DIDL\x01\x6d\x7b\x01\x00";

const NULLS: &[u8] = b"DIDL\x01\x6d\x7f\x01\x00";

// A record { 0 : opt nat; id : nat }.
const RECORD: &[u8] = b"DIDL\x02\x6e\x7d\x6c\x02\x00\x00\xdb\xb7\x01\x7d\x01\x01";

// A variant { 0; 1 : nat }.
const VARIANT: &[u8] = b"DIDL\x01\x6b\x02\x00\x7f\x01\x7d\x01\x00";

const FUNC: &[u8] = b"DIDL\x01\x6a\x00\x00\x00\x01\x00";

static ROWS: [Row; 31] = [
    // The parentheses, and what follows them.
    (NAT, &[], b"42"),
    (NAT, &[(b"(42", 1)], b""),
    (NAT, &[(b"(42) ", 1)], b", 5"),
    (NAT, &[(b"(42, ", 1)], b"42)"),
    (TWO, &[(b"(42", 1)], b")"),
    // What is no token, and what is no UTF-8.
    (NAT, &[(b"(", 1)], b"\"42)"),
    (NAT, &[(b"(42 ", 1)], b"/* c */)"),
    (BLOB, &[(b"(blob ", 1)], b"\"\xff\")"),
    // Values of another type, and annotations.
    (NAT, &[(b"(", 1)], b"-42)"),
    (NAT, &[(b"(42 : ", 1)], b"int)"),
    (OPT_NAT, &[(b"(opt 5 ", 1)], b": nat)"),
    (OPT_NAT, &[(b"(opt ", 1)], b"null)"),
    (BLOB, &[(b"(vec { 0; (", 1)], b"256) })"),
    (BLOB, &[(b"(vec { 0 ", 1)], b"1 })"),
    (FUNC, &[(b"(func ", 1)], b"\"aaaaa\".a)"),
    (FUNC, &[(b"(func \"aaaaa-aa\" ", 1)], b")"),
    (FUNC, &[(b"(func \"aaaaa-aa\".", 1)], b"5)"),
    // Fields: a label that is unknown or said twice, a value without a field, a field that is missing.
    (RECORD, &[(b"(record { ", 1)], b"is = 5 })"),
    (RECORD, &[(b"(record { id = 5; ", 1)], b"id = 6 })"),
    (RECORD, &[(b"(record { null; ", 1)], b"5 })"),
    (RECORD, &[(b"(record { null; id = 5 ", 1)], b"null })"),
    (RECORD, &[(b"(record { null ", 1)], b"})"),
    (RECORD, &[(b"(record { ", 1)], b"id : nat })"),
    // Cases.
    (VARIANT, &[(b"(variant { ", 1)], b"2 })"),
    (VARIANT, &[(b"(variant { 1 ", 1)], b"})"),
    (VARIANT, &[(b"(variant { 0; ", 1)], b"1 = 5 })"),
    (VARIANT, &[(b"(variant ", 1)], b"0)"),
    // Nested too deep, and one too many.
    (NAT, &[(b"(", 129)], b"5)"),
    (OPT_NAT, &[(b"(", 128), (b"opt ", 1)], b"5)"),
    (BLOB, &[(b"(vec {", 1), (b"(", 128)], b"5)"),
    (NULLS, &[(b"(vec {", 1), (b"null;", 999_999)], b"null})"),
];

static FILES: [FileRow; 24] = [
    // No file.
    (&[(b"type A = nat; ", 1)], b"tipe B = nat"),
    (&[(b"type A = opt", 1)], b""),
    (&[(b"type A = opt ", 1)], b"query"),
    (&[(b"type ", 1)], b"nat = nat"),
    (&[(b"type A = record { a : nat ", 1)], b", b : nat }"),
    (&[(b"type A = variant { ", 1)], b"01 }"),
    (&[(b"service : { f : () ", 1)], b"}"),
    (&[(b"service : {}; ", 1)], b"type A = nat"),
    (&[(b"type A = nat; ", 1)], b"/* c"),
    (&[(b"type A = nat; // c", 1)], b"\xff\n"),
    (&[(b"type A = ", 1), (b"opt ", 128)], b"nat"),
    // A float: the first, and where a type stands.
    (&[(b"type A = opt ", 1)], b"float32; type B = float64"),
    (
        &[(b"type A = record { float32 : nat; x : ", 1)],
        b"float64 }",
    ),
    // Definitions: repeated, and one that leads back to itself.
    (&[(b"type A = nat; type ", 1)], b"A = int"),
    (&[(b"type X = A; type ", 1)], b"A = B; type B = A"),
    // A name without a definition.
    (&[(b"type A = record { B : nat; a : ", 1)], b"B }"),
    // Labels and names that are there twice, an id above all others, and other kinds of types.
    (&[(b"type A = record { a : nat; ", 1)], b"97 : int }"),
    (&[(b"type A = variant { a; b; ", 1)], b"a : nat }"),
    (&[(b"type A = record { 4294967295 : nat; ", 1)], b"nat }"),
    (&[(b"service : { a : () -> (); ", 1)], b"\"a\" : () -> () }"),
    (&[(b"type F = nat; service : { f : ", 1)], b"F }"),
    (&[(b"type F = func () -> (); service : ", 1)], b"F"),
    // The type that is one too many.
    (&[(b"type A = record { ", 1), (b"blob; ", 9999)], b"blob }"),
    (
        &[
            (b"type A = record { ", 1),
            (b"blob; ", 9999),
            (b"}; service : ", 1),
        ],
        b"{}",
    ),
];

fn rows() -> &'static [Row] {
    &ROWS
}

fn file_rows() -> &'static [FileRow] {
    &FILES
}

/// Where a text is wrong.
fn place_in_text(alloc: Global, header: &[u8], text: &[u8]) -> Option<usize> {
    let expected = expected_of(alloc, header)?;
    cd_text::fault_place(alloc, &expected, text).ok()?
}

/// Where an interface file is wrong.
fn place_in_file(alloc: Global, text: &[u8]) -> Option<usize> {
    if text.len() < 1 << 32 {
        cd_did::fault_place(alloc, text).ok()?
    } else {
        None
    }
}

fn is_at(alloc: Global, row: &Row) -> Result<bool, NoMemory> {
    let mut text = message_of(alloc, row.1)?;
    let place = text.len();
    text.extend_from_slice(row.2)?;
    Ok(place_in_text(alloc, row.0, &text) == Some(place))
}

fn is_in_file_at(alloc: Global, row: &FileRow) -> Result<bool, NoMemory> {
    let mut text = message_of(alloc, row.0)?;
    let place = text.len();
    text.extend_from_slice(row.1)?;
    Ok(place_in_file(alloc, &text) == Some(place))
}

#[test]
fn places_in_texts(rt: HostRuntime) {
    for row in rows() {
        assert!(rt; is_at(rt.alloc(), row).unwrap_or(false), "{:?}", row.2);
    }
}

#[test]
fn places_in_files(rt: HostRuntime) {
    for row in file_rows() {
        assert!(rt;
            is_in_file_at(rt.alloc(), row).unwrap_or(false),
            "{:?}",
            row.1
        );
    }
}
