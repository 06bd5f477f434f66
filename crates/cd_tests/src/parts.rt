use crate::rows::{Row, hold};
use std::test::*;

const RECORD: &[u8] = b"DIDL\x01\x6c\x01\xdb\xb7\x01\x7d\x01\x00";

const WITH_OPT: &[u8] = b"DIDL\x02\x6e\x7d\x6c\x02\x00\x7d\x01\x00\x01\x01";

const LAST: &[u8] = b"DIDL\x01\x6c\x02\xfe\xff\xff\xff\x0f\x7d\xff\xff\xff\xff\x0f\x7d\x01\x00";

const KEYWORD: &[u8] = b"DIDL\x01\x6c\x01\xb3\xb8\xd2\x02\x7d\x01\x00";

const VARIANT: &[u8] = b"DIDL\x01\x6b\x02\x00\x7f\x01\x7d\x01\x00";

const OPT_NAT: &[u8] = b"DIDL\x01\x6e\x7d\x01\x00";

const OPT_OPT: &[u8] = b"DIDL\x02\x6e\x01\x6e\x7d\x01\x00";

const BLOB: &[u8] = b"DIDL\x01\x6d\x7b\x01\x00";

const NULLS: &[u8] = b"DIDL\x01\x6d\x7f\x01\x00";

static ROWS: [Row; 63] = [
    // A record with a field `id`, whose number is 23515.
    (
        RECORD,
        b"(record { id = 1_000 })",
        Some(b"(record { 23515 = 1000 })"),
    ),
    (
        RECORD,
        b"(record { 23515 = 1000 })",
        Some(b"(record { 23515 = 1000 })"),
    ),
    (
        RECORD,
        b"(record{\"id\"=1000:nat;})",
        Some(b"(record { 23515 = 1000 })"),
    ),
    (RECORD, b"(record { 5 })", None),
    (RECORD, b"(record { id = 1; id = 1 })", None),
    (RECORD, b"(record {})", None),
    (RECORD, b"(record { id = 1; other = 2 })", None),
    (RECORD, b"(record { id = 1; 23515 = 1 })", None),
    (RECORD, b"(record { 023515 = 1 })", None),
    (RECORD, b"(record { 2_3515 = 1 })", None),
    (RECORD, b"(record { id = 1;; })", None),
    (RECORD, b"(record { id : 1 })", None),
    (
        RECORD,
        b"(record { \"\\69d\" = 1 })",
        Some(b"(record { 23515 = 1 })"),
    ),
    (RECORD, b"(record { Id = 1 })", None),
    (RECORD, b"(record { id 1 })", None),
    (RECORD, b"(record { ( = 1 })", None),
    (RECORD, b"(record {", None),
    (RECORD, b"(5)", None),
    // A label that is a word of the grammar, and the greatest labels.
    (
        KEYWORD,
        b"(record { opt = 1 })",
        Some(b"(record { 5545011 = 1 })"),
    ),
    (
        LAST,
        b"(record { 4294967294 = 1; 2 })",
        Some(b"(record { 4294967294 = 1; 4294967295 = 2 })"),
    ),
    (LAST, b"(record { 4294967294 = 1; 2; 3 })", None),
    (LAST, b"(record { 4294967294 = 1; 4294967296 = 2 })", None),
    (LAST, b"(record { 4294967295 = 1; 2 })", None),
    // A record { 0 : nat; 1 : opt nat }: fields in any order, the opt left out, fields without labels.
    (
        WITH_OPT,
        b"(record { 1 = opt 2; 0 = 1 })",
        Some(b"(record { 0 = 1; 1 = opt 2 })"),
    ),
    (
        WITH_OPT,
        b"(record { 0 = 1 })",
        Some(b"(record { 0 = 1; 1 = null })"),
    ),
    (
        WITH_OPT,
        b"(record { 1; opt 2 })",
        Some(b"(record { 0 = 1; 1 = opt 2 })"),
    ),
    (WITH_OPT, b"(record { 1 = null })", None),
    (WITH_OPT, b"(record { 1; opt 2; null })", None),
    (
        WITH_OPT,
        b"(record { 0 = 1; opt 2 })",
        Some(b"(record { 0 = 1; 1 = opt 2 })"),
    ),
    (WITH_OPT, b"(record { 1 = opt 2; 1 })", None),
    (WITH_OPT, b"(record { 0 = 1; 0 = 1 })", None),
    (WITH_OPT, b"(record { 0 = 1, 1 = opt 2 })", None),
    // A variant { 0 : null; 1 : nat }.
    (VARIANT, b"(variant { 0 })", Some(b"(variant { 0 = null })")),
    (
        VARIANT,
        b"(variant { 1 = 5; })",
        Some(b"(variant { 1 = 5 })"),
    ),
    (VARIANT, b"(variant { 1 })", None),
    (VARIANT, b"(variant { 2 = 5 })", None),
    (VARIANT, b"(variant { 0; 1 = 5 })", None),
    (VARIANT, b"(variant {})", None),
    (VARIANT, b"(variant {", None),
    (VARIANT, b"(5)", None),
    (
        VARIANT,
        b"(variant { 0 = null; })",
        Some(b"(variant { 0 = null })"),
    ),
    (VARIANT, b"(variant { 0 : null })", None),
    (
        VARIANT,
        b"(variant { 1 = 5 : nat })",
        Some(b"(variant { 1 = 5 })"),
    ),
    (VARIANT, b"(variant { 1 = 5 : int })", None),
    (VARIANT, b"(variant { 0;; })", None),
    // An opt, and an opt of opts, which has a level more.
    (OPT_NAT, b"(opt 5)", Some(b"(opt 5)")),
    (OPT_NAT, b"(opt (5 : nat))", Some(b"(opt 5)")),
    (OPT_NAT, b"(null)", Some(b"(null)")),
    (OPT_NAT, b"(5)", None),
    (OPT_NAT, b"(opt opt 5)", None),
    (OPT_NAT, b"(opt null)", None),
    (OPT_OPT, b"(opt null)", Some(b"(opt null)")),
    (OPT_OPT, b"(null)", Some(b"(null)")),
    (OPT_OPT, b"(opt opt 5)", Some(b"(opt opt 5)")),
    (OPT_OPT, b"(opt 5)", None),
    // A vec of nat8.
    (BLOB, b"(vec { 0; 97 })", Some(b"(blob \"\\00\\61\")")),
    (
        BLOB,
        b"(vec { 0; (97 : nat8); })",
        Some(b"(blob \"\\00\\61\")"),
    ),
    (BLOB, b"(vec { 256 })", None),
    (BLOB, b"(vec {})", Some(b"(blob \"\")")),
    (BLOB, b"(vec { 0;; 97 })", None),
    // A vec of null.
    (
        NULLS,
        b"(vec { null; null })",
        Some(b"(vec { null; null })"),
    ),
    (NULLS, b"(vec { null null })", None),
    (NULLS, b"(5)", None),
];

fn rows() -> &'static [Row] {
    &ROWS
}

#[test]
fn parts_as_text(rt: HostRuntime) {
    hold(&rt, rt.alloc(), rows());
}
