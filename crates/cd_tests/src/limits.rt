use crate::rows::{expected_of, is_said};
use ic_base::NoMemory;
use std::alloc::Global;
use std::test::*;

/// Bytes, and how often they are there.
type Piece = (&'static [u8], usize);

/// A header with the expected types, the pieces of a text, and whether it says values.
type Limit = (&'static [u8], &'static [Piece], bool);

const NAT: &[u8] = b"DIDL\x00\x01\x7d";

const BLOB: &[u8] = b"DIDL\x01\x6d\x7b\x01\x00";

const EMPTY: &[u8] = b"DIDL\x01\x6c\x00\x01\x00";

const ONE_OPT: &[u8] = b"DIDL\x02\x6e\x7d\x6c\x01\x00\x00\x01\x01";

const UNIT_CASE: &[u8] = b"DIDL\x01\x6b\x01\x00\x7f\x01\x00";

const OPTS: &[u8] = b"DIDL\x01\x6e\x00\x01\x00";

const NULLS: &[u8] = b"DIDL\x01\x6d\x7f\x01\x00";

// A vec of records { 0 : opt nat; 1 : opt nat; .. ; 8 : opt nat }.
const NINE_OPTS: &[u8] =
    b"DIDL\x03\x6d\x01\x6c\x09\x00\x02\x01\x02\x02\x02\x03\x02\x04\x02\x05\x02\x06\x02\x07\x02\x08\x02\x6e\x7d\x01\x00";

static LIMITS: [Limit; 17] = [
    // Parentheses are levels, with those of the arguments none.
    (NAT, &[(b"(", 128), (b"42", 1), (b")", 128)], true),
    (NAT, &[(b"(", 129), (b"42", 1), (b")", 129)], false),
    (NAT, &[(b"(", 1_048_576)], false),
    // The opts of a value, and null.
    (OPTS, &[(b"(", 1), (b"opt ", 127), (b"null)", 1)], true),
    (OPTS, &[(b"(", 1), (b"opt ", 128), (b"null)", 1)], false),
    // Numbers of a vec nat8 are no level; their parentheses are.
    (
        BLOB,
        &[
            (b"(vec {", 1),
            (b"(", 127),
            (b"0", 1),
            (b")", 127),
            (b"})", 1),
        ],
        true,
    ),
    (
        BLOB,
        &[
            (b"(vec {", 1),
            (b"(", 128),
            (b"0", 1),
            (b")", 128),
            (b"})", 1),
        ],
        false,
    ),
    (BLOB, &[(b"(", 128), (b"vec {0}", 1), (b")", 128)], true),
    // A field that is left out, and a null that is not written, are one level below.
    (EMPTY, &[(b"(", 128), (b"record {}", 1), (b")", 128)], true),
    (
        ONE_OPT,
        &[(b"(", 127), (b"record {}", 1), (b")", 127)],
        true,
    ),
    (
        ONE_OPT,
        &[(b"(", 128), (b"record {}", 1), (b")", 128)],
        false,
    ),
    (
        UNIT_CASE,
        &[(b"(", 127), (b"variant {0}", 1), (b")", 127)],
        true,
    ),
    (
        UNIT_CASE,
        &[(b"(", 128), (b"variant {0}", 1), (b")", 128)],
        false,
    ),
    // A million values with the vec, and with fields that are left out.
    (
        NULLS,
        &[(b"(vec {", 1), (b"null;", 999_999), (b"})", 1)],
        true,
    ),
    (
        NULLS,
        &[(b"(vec {", 1), (b"null;", 1_000_000), (b"})", 1)],
        false,
    ),
    (
        NINE_OPTS,
        &[(b"(vec {", 1), (b"record {};", 99_999), (b"})", 1)],
        true,
    ),
    (
        NINE_OPTS,
        &[(b"(vec {", 1), (b"record {};", 100_000), (b"})", 1)],
        false,
    ),
];

fn limits() -> &'static [Limit] {
    &LIMITS
}

fn repeat(bytes: &[u8], times: usize, text: &mut Vec<u8>) -> Result<(), NoMemory> {
    for _ in 0..times {
        text.extend_from_slice(bytes)?;
    }
    Ok(())
}

// The pieces, one after the other.
fn text_of(alloc: Global, pieces: &[Piece]) -> Result<Vec<u8>, NoMemory> {
    let mut text = Vec::new(alloc);
    for (bytes, times) in pieces {
        repeat(bytes, *times, &mut text)?;
    }
    Ok(text)
}

fn holds_at(alloc: Global, text: &[u8], limit: &Limit) -> bool {
    match expected_of(alloc, limit.0) {
        Some(expected) => is_said(alloc, &expected, text, limit.2),
        None => false,
    }
}

fn holds(alloc: Global, limit: &Limit) -> bool {
    match text_of(alloc, limit.1) {
        Ok(text) => holds_at(alloc, &text, limit),
        Err(_) => false,
    }
}

#[test]
fn limits_of_texts(rt: HostRuntime) {
    for limit in limits() {
        assert!(rt; holds(rt.alloc(), limit), "{:?}", limit.1);
    }
}
