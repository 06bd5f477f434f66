use crate::types::*;
use cd_codec::Expected;
use cd_tokens::{PlacedTokens, Token, placed_tokens_of};
use ct_values::{Admitted, PatternFault, pattern_of};
use std::alloc::{AllocError, Global};
use std::test::*;

const VALUES: Admitted = Admitted {
    patterns: false,
    names: false,
};

const PATTERNS: Admitted = Admitted {
    patterns: true,
    names: false,
};

const NAMES: Admitted = Admitted {
    patterns: true,
    names: true,
};

/// Types, a text between parentheses, what is admitted, and where the text is wrong, if it is.
type Row = (&'static [u8], &'static [u8], Admitted, Option<usize>);

static ROWS: [Row; 77] = [
    (NATS, b"7", VALUES, None),
    (NATS, b"", VALUES, Some(0)),
    (NATS, b"-5", VALUES, Some(0)),
    (NATS, b"5 : nat", VALUES, Some(4)),
    (NATS, b"5 : nat64,", VALUES, None),
    (NATS, b"5, 6", VALUES, Some(3)),
    (NATS, b"5 6", VALUES, Some(2)),
    (NATS, b"18_446_744_073_709_551_616", VALUES, Some(0)),
    (NATS, b"principal \"aaaaa-aa\"", VALUES, Some(0)),
    (NATS, b"_", VALUES, Some(0)),
    (NATS, b"_", PATTERNS, None),
    (NATS, b"(_)", PATTERNS, None),
    (NATS, b"(_) : nat64", PATTERNS, Some(4)),
    (NATS, b"_ : nat64", PATTERNS, Some(2)),
    (NATS, b"let n", PATTERNS, None),
    (NATS, b"let n", VALUES, Some(0)),
    (NATS, b"let 5", PATTERNS, Some(4)),
    (NATS, b"let ", PATTERNS, Some(4)),
    (NATS, b"n", NAMES, None),
    (NATS, b"n", PATTERNS, Some(0)),
    (NATS, b"n : nat64", NAMES, None),
    (NATS, b"n, 5", NAMES, Some(3)),
    (NATS, b"n = 5", NAMES, Some(0)),
    (NATS, b"n = 5", VALUES, Some(0)),
    (NATS, b"(5 = 5)", VALUES, Some(1)),
    (NATS, b"5 : nat64 = 5", VALUES, Some(10)),
    (NATS, b"let n = 5", PATTERNS, Some(6)),
    (NATS, b"= 5", VALUES, Some(0)),
    (NONE, b"", VALUES, None),
    (NONE, b"5", VALUES, Some(0)),
    (NONE, b",", VALUES, Some(0)),
    (PAIR, b"1, \"x\",", VALUES, None),
    (PAIR, b"1,", VALUES, Some(2)),
    (PAIR, b"let n, let t", PATTERNS, None),
    (PAIR, b"1 \"x\"", PATTERNS, Some(2)),
    (
        ENTRY,
        b"record { id = 1; note = \"\"; 7 = true; \"of whom\" = record { subaccount = null } }",
        VALUES,
        Some(77),
    ),
    (
        ENTRY,
        b"record { id = 1; nota = \"\"; 7 = true }",
        VALUES,
        Some(17),
    ),
    (ENTRY, b"record { id = 1; id = 1 }", VALUES, Some(17)),
    (ENTRY, b"record { id = 1; .. }", VALUES, Some(17)),
    (ENTRY, b"record { id = 1; .. }", PATTERNS, None),
    (ENTRY, b"record { ..; }", PATTERNS, None),
    (ENTRY, b"record { ..; id = 1 }", PATTERNS, Some(13)),
    (ENTRY, b"record { id = 1; . ; }", PATTERNS, Some(19)),
    (
        ENTRY,
        b"record { id = 1; \"of whom\" = record { owner = _ }; note = let n; 7 = (_) }",
        PATTERNS,
        None,
    ),
    (ENTRY, b"record { id = 1 .. }", PATTERNS, Some(16)),
    (ENTRY, b"record { 5 = 1 }", VALUES, Some(9)),
    (ENTRY, b"record { id = let = 1 }", PATTERNS, Some(14)),
    (ENTRY, b"record { id = 1 = 2 }", VALUES, Some(14)),
    (ENTRY, b"record { id = n = 1 }", NAMES, Some(14)),
    (
        ENTRY,
        b"record { 7 = true; id = 1; note = \"\"; \"of whom\" = record { owner = principal \"x\" } }",
        VALUES,
        Some(77),
    ),
    (OUTCOME, b"variant { ok = 5 }", VALUES, None),
    (OUTCOME, b"variant { okay = 5 }", VALUES, Some(10)),
    (OUTCOME, b"variant { ok }", VALUES, Some(13)),
    (OUTCOME, b"variant { ok = 5; .. }", PATTERNS, Some(18)),
    (
        OUTCOME,
        b"variant { err = variant { too_old } }",
        VALUES,
        None,
    ),
    (
        OUTCOME,
        b"variant { err = variant { unfunded = record { .. } }; }",
        PATTERNS,
        None,
    ),
    (OUTCOME, b"variant { ok = _ }", PATTERNS, None),
    (BLOB, b"blob \"\\ff\"", VALUES, None),
    (BLOB, b"vec { 1; 256 }", VALUES, Some(9)),
    (BLOB, b"vec { 1; _; let b; (2 : nat8) }", PATTERNS, None),
    (BLOB, b"vec { _ : nat8 }", PATTERNS, Some(8)),
    (BLOB, b"blob _", PATTERNS, Some(5)),
    (BLOB, b"blob n", NAMES, None),
    (LIST, b"vec { null; opt 1; opt _ }", PATTERNS, None),
    (LIST, b"vec { opt null }", VALUES, Some(10)),
    (LIST, b"vec = 1", VALUES, Some(0)),
    (LIST, b"vec { opt n = 1 }", NAMES, Some(10)),
    (LIST, b"vec { null null }", VALUES, Some(11)),
    (PRINCIPAL, b"principal \"2vxsx-fae\"", VALUES, None),
    (
        PRINCIPAL,
        b"principal principal \"2vxsx-fae\"",
        VALUES,
        Some(10),
    ),
    (PRINCIPAL, b"\"aaaaa-aa\"", VALUES, Some(0)),
    (
        PRINCIPAL,
        b"(principal \"aaaaa-aa\" : principal) : principal",
        VALUES,
        None,
    ),
    (
        REFERENCES,
        b"service \"aaaaa-aa\", func \"aaaaa-aa\".m",
        VALUES,
        None,
    ),
    (REFERENCES, b"service s, func s.m", NAMES, None),
    (REFERENCES, b"service s, func s.m = 5", NAMES, Some(20)),
    (REFERENCES, b"service s = 5", NAMES, Some(10)),
    (
        REFERENCES,
        b"service \"aaaaa-aa\", func \"aaaaa-aa\" ,",
        VALUES,
        Some(36),
    ),
];

fn rows() -> &'static [Row] {
    &ROWS
}

/// The tokens of a text.
pub(crate) fn tokens_in<'a>(
    alloc: Global,
    placed: &PlacedTokens<'a>,
) -> Result<Vec<Token<'a>>, AllocError> {
    let mut tokens = Vec::new(alloc);
    for one in &placed.items {
        tokens.push(one.token.copy())?;
    }
    Ok(tokens)
}

// Where the text is wrong; `None`: it says a pattern.
fn fault_of(
    alloc: Global,
    expected: &Expected,
    admitted: Admitted,
    text: &[u8],
) -> Result<Option<usize>, AllocError> {
    let placed = placed_tokens_of(alloc, true, text)?;
    let tokens = tokens_in(alloc, &placed)?;
    match pattern_of(alloc, expected.table(), expected.types(), admitted, &tokens) {
        Ok(_) => Ok(None),
        Err(PatternFault::NoMemory) => Err(AllocError),
        Err(PatternFault::Unexpected { index }) => match placed.items.get(index) {
            Some(token) => Ok(Some(token.place)),
            None => Ok(Some(text.len())),
        },
    }
}

#[test]
fn where_texts_are_wrong(rt: HostRuntime) -> Result<(), Fail> {
    for (types, text, admitted, place) in rows() {
        match expected_of(rt.alloc(), types) {
            Some(expected) => {
                let fault = fault_of(rt.alloc(), &expected, *admitted, text)?;
                assert!(rt; fault == *place, "{text:?} {fault:?}");
            }
            None => assert!(rt; false, "no types"),
        }
    }
    Ok(())
}
