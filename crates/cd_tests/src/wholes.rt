use crate::rows::{Row, hold};
use std::test::*;

const NAT: &[u8] = b"DIDL\x00\x01\x7d";

const NAT_TEXT: &[u8] = b"DIDL\x00\x02\x7d\x71";

const NOTHING: &[u8] = b"DIDL\x00\x00";

const PLAIN: &[u8] = b"DIDL\x00\x03\x77\x7e\x70";

const OPT_NAT: &[u8] = b"DIDL\x01\x6e\x7d\x01\x00";

const BLOB: &[u8] = b"DIDL\x01\x6d\x7b\x01\x00";

static ROWS: [Row; 52] = [
    // Parentheses, commas and blanks.
    (NAT, b"( 42 , )", Some(b"(42)")),
    (NAT, b"((42))", Some(b"(42)")),
    (NAT, b"(42) ", Some(b"(42)")),
    (NAT, b" (42)", Some(b"(42)")),
    (NAT, b"42", None),
    (NAT, b"(42", None),
    (NAT, b"((42", None),
    (NAT, b"(\"a\")", None),
    (NAT, b"()", None),
    (NAT, b"(42))", None),
    (NAT, b"(42, 42)", None),
    (NAT, b"(42,,)", None),
    (NAT, b"(,42)", None),
    (NAT, b"(\t42\r\n)", Some(b"(42)")),
    (NAT, b"(\x0b42)", None),
    (NAT, b"(42 /* c */)", None),
    (NAT, b"(42) // c", None),
    (NOTHING, b"()", Some(b"()")),
    (NOTHING, b" ( ) ", Some(b"()")),
    (NOTHING, b"(,)", None),
    (NOTHING, b"", None),
    (PLAIN, b"(1, true)", None),
    (PLAIN, b"(1, true, 5)", None),
    // Annotations.
    (NAT_TEXT, b"(42 : nat, \"hi\",)", Some(b"(42, \"hi\")")),
    (NAT_TEXT, b"(42 : nat, \"hi\" : nat)", None),
    (NAT, b"(42 : nat)", Some(b"(42)")),
    (NAT, b"(42:nat)", Some(b"(42)")),
    (NAT, b"(((42) : nat))", Some(b"(42)")),
    (NAT, b"(42 : int)", None),
    (NAT, b"(42 : nat : nat)", None),
    (NAT, b"(42 : nat8)", None),
    (NAT, b"(42 : blob)", None),
    (
        PLAIN,
        b"(1 : int8, true : bool, null : reserved)",
        Some(b"(1, true, null)"),
    ),
    (PLAIN, b"(1, true, null : null)", None),
    (OPT_NAT, b"(opt 5 : nat)", None),
    (BLOB, b"(vec { 0 : nat8 })", Some(b"(blob \"\\00\")")),
    (BLOB, b"(vec { 0 : nat })", None),
    (BLOB, b"(blob \"a\" : blob)", None),
    (
        BLOB,
        b"(vec { (0 : nat8) : nat8 })",
        Some(b"(blob \"\\00\")"),
    ),
    // Words end where no letter, digit or _ follows.
    (OPT_NAT, b"(opt5)", None),
    (OPT_NAT, b"(opt(5))", Some(b"(opt 5)")),
    (BLOB, b"(vec{0;97})", Some(b"(blob \"\\00\\61\")")),
    (BLOB, b"(vec { 0 97 })", None),
    (BLOB, b"(blob\"a\")", Some(b"(blob \"\\61\")")),
    (BLOB, b"(blobs \"a\")", None),
    (PLAIN, b"(1,true,null)", Some(b"(1, true, null)")),
    (PLAIN, b"(1, true_, null)", None),
    (PLAIN, b"(1, truefalse, null)", None),
    (PLAIN, b"(1, True, null)", None),
    (PLAIN, b"(-128, true, null)", Some(b"(-128, true, null)")),
    (PLAIN, b"(128, true, null)", None),
    (PLAIN, b"(1, yes, null)", None),
];

fn rows() -> &'static [Row] {
    &ROWS
}

#[test]
fn wholes_as_text(rt: HostRuntime) {
    hold(&rt, rt.alloc(), rows());
}
