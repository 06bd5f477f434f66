use crate::rows::{Row, hold};
use std::test::*;

const TEXT: &[u8] = b"DIDL\x00\x01\x71";

const BLOB: &[u8] = b"DIDL\x01\x6d\x7b\x01\x00";

const REFERENCES: &[u8] = b"DIDL\x02\x6a\x00\x00\x00\x69\x00\x03\x68\x01\x00";

const PRINCIPAL: &[u8] = b"DIDL\x00\x01\x68";

const FUNC: &[u8] = b"DIDL\x01\x6a\x00\x00\x00\x01\x00";

static ROWS: [Row; 48] = [
    // A text.
    (TEXT, b"(\"hi\")", Some(b"(\"hi\")")),
    (
        TEXT,
        b"(\"\\n\\t\\\\\\\"\")",
        Some(b"(\"\\0a\\09\\\\\\\"\")"),
    ),
    (TEXT, b"(\"\\r\\'\")", Some(b"(\"\\0d'\")")),
    (TEXT, b"(\"\\u{1F600}\")", Some(b"(\"\xf0\x9f\x98\x80\")")),
    (
        TEXT,
        b"(\"\\u{000041}\\u{10ffff}\")",
        Some(b"(\"A\xf4\x8f\xbf\xbf\")"),
    ),
    (TEXT, b"(\"\x7f\")", Some(b"(\"\\7f\")")),
    (TEXT, b"(\"\\\"\\\\\")", Some(b"(\"\\\"\\\\\")")),
    (TEXT, b"(hi)", None),
    (TEXT, b"(", None),
    // Escapes at their ends, and what is no scalar value.
    (TEXT, b"(\"\\u{0000041}\")", None),
    (TEXT, b"(\"\\u{110000}\")", None),
    (TEXT, b"(\"\\u{}\")", None),
    (TEXT, b"(\"\\5\")", None),
    (TEXT, b"(\"\\x41\")", None),
    (TEXT, b"(\"a\\\")", None),
    (TEXT, b"(\"\\u{d800}\")", None),
    (TEXT, b"(\"\\u{dfff}\")", None),
    (TEXT, b"(\"\\u{41\")", None),
    (TEXT, b"(\"\\u{4_1}\")", None),
    (TEXT, b"(\"\\u41\")", None),
    (
        TEXT,
        b"(\"\\u{d7ff}\\u{e000}\")",
        Some(b"(\"\xed\x9f\xbf\xee\x80\x80\")"),
    ),
    (TEXT, b"(\"\n\")", None),
    (TEXT, b"(\"\t\")", None),
    // A text is UTF-8, a blob need not be.
    (
        TEXT,
        b"(\"\\c3\\a9\\u{e9}\")",
        Some(b"(\"\xc3\xa9\xc3\xa9\")"),
    ),
    (TEXT, b"(\"\\ff\")", None),
    (TEXT, b"(\"\xff\")", None),
    (TEXT, b"(\"\\c3\")", None),
    (BLOB, b"(blob \"\\c3\")", Some(b"(blob \"\\c3\")")),
    (BLOB, b"(blob \"\xff\")", None),
    (BLOB, b"(blob 5)", None),
    (BLOB, b"(blob", None),
    (BLOB, b"(blob \"\\u{d800}\")", None),
    (BLOB, b"(blob \"\\5\")", None),
    (BLOB, b"(blob \"\\00a\")", Some(b"(blob \"\\00\\61\")")),
    (BLOB, b"(blob \"\\ff\")", Some(b"(blob \"\\ff\")")),
    (BLOB, b"(blob \"\\u{e9}\")", Some(b"(blob \"\\c3\\a9\")")),
    // The text of a principal, and the names of methods.
    (
        REFERENCES,
        b"(principal \"aaaaa-aa\", service \"2vxsx-fae\", func \"aaaaa-aa\".method)",
        Some(b"(principal \"aaaaa-aa\", service \"2vxsx-fae\", func \"aaaaa-aa\".\"method\")"),
    ),
    (
        REFERENCES,
        b"(principal \"aaaaa-aa\", service \"2vxsx-fa\", func \"aaaaa-aa\".method)",
        None,
    ),
    (
        REFERENCES,
        b"(principal \"aaaaa-aa\", service \"aaaaa-aa\", func \"aaaaa-aa\" . \"a b\")",
        Some(b"(principal \"aaaaa-aa\", service \"aaaaa-aa\", func \"aaaaa-aa\".\"a b\")"),
    ),
    (
        REFERENCES,
        b"(principal \"aaaaa-aa\", service \"aaaaa-aa\", func \"aaaaa-aa\".5)",
        None,
    ),
    (
        REFERENCES,
        b"(principal \"aaaaa-aa\", service \"aaaaa-aa\", func \"aaaaa-aa\" m)",
        None,
    ),
    (
        REFERENCES,
        b"(principal \"AAAAA-AA\", service \"aaaaa-aa\", func \"aaaaa-aa\".m)",
        None,
    ),
    (
        REFERENCES,
        b"(principal aaaaa-aa, service \"aaaaa-aa\", func \"aaaaa-aa\".m)",
        None,
    ),
    (PRINCIPAL, b"(5)", None),
    (PRINCIPAL, b"(principal", None),
    (FUNC, b"(5)", None),
    (FUNC, b"(func \"aaaaa-aa\".", None),
    (FUNC, b"(func \"aaaaa-aa\".()", None),
];

fn rows() -> &'static [Row] {
    &ROWS
}

#[test]
fn strings_as_text(rt: HostRuntime) {
    hold(&rt, rt.alloc(), rows());
}
