use crate::pieces::{Piece, message_of};
use cd_codec::{encode, read_header};
use cd_coerce::*;
use ic_principal::Bytes;
use std::alloc::Global;
use std::test::*;

/// A header with the expected types, a message, and what is read: the bytes of the values at these
/// types, or the fault.
type Row = (
    &'static [u8],
    &'static [u8],
    Result<&'static [u8], DidlFault>,
);

const NAT: &[u8] = b"DIDL\x00\x01\x7d";

const INT: &[u8] = b"DIDL\x00\x01\x7c";

const RESERVED: &[u8] = b"DIDL\x00\x01\x70";

const OPT_NAT: &[u8] = b"DIDL\x01\x6e\x7d\x01\x00";

const VEC_NAT8: &[u8] = b"DIDL\x01\x6d\x7b\x01\x00";

const LIST: &[u8] = b"DIDL\x02\x6e\x01\x6c\x02\x00\x7d\x01\x00\x01\x00";

/// The type of `LIST` with two cells written out.
const TWO_CELLS: &[u8] =
    b"DIDL\x04\x6e\x01\x6c\x02\x00\x7d\x01\x02\x6e\x03\x6c\x02\x00\x7d\x01\x00\x01\x00";

/// A principal, a service and a function of it.
const REFERENCES: &[u8] = b"DIDL\x02\x6a\x00\x00\x00\x69\x00\x03\x68\x01\x00";

const BAD_VALUE: Result<&[u8], DidlFault> = Err(DidlFault::BadValue);

static ROWS: [Row; 41] = [
    (NAT, b"DIDL\x00\x01\x7d\x2a", Ok(b"\x2a")),
    (
        b"DIDL\x00\x01\x71",
        b"DIDL\x00\x01\x7d\x2a",
        Err(DidlFault::NotSubtype { argument: 0 }),
    ),
    // A byte after the values.
    (NAT, b"DIDL\x00\x01\x7d\x2a\x00", BAD_VALUE),
    // 2^128
    (
        NAT,
        b"DIDL\x00\x01\x7d\x80\x80\x80\x80\x80\x80\x80\x80\x80\x80\x80\x80\x80\x80\x80\x80\x80\x80\x04",
        BAD_VALUE,
    ),
    // Ids that do not rise; a float; a float in a header that is cut short.
    (
        NAT,
        b"DIDL\x01\x6c\x02\x01\x7d\x00\x7d\x01\x00\x01\x02",
        Err(DidlFault::NotHeader),
    ),
    (
        NAT,
        b"DIDL\x00\x01\x72\x00\x00\x00\x00\x00\x00\x00\x00",
        Err(DidlFault::Float),
    ),
    (NAT, b"DIDL\x01\x6e\x73", Err(DidlFault::NotHeader)),
    // A vec of 2^60 nulls, and a record that holds itself.
    (
        RESERVED,
        b"DIDL\x01\x6d\x7f\x01\x00\x80\x80\x80\x80\x80\x80\x80\x80\x10",
        BAD_VALUE,
    ),
    (RESERVED, b"DIDL\x01\x6c\x01\x00\x00\x01\x00", BAD_VALUE),
    // Types are compared before any value is looked at, also that of a missing argument.
    (
        b"DIDL\x00\x01\x71",
        b"DIDL\x00\x01\x7d",
        Err(DidlFault::NotSubtype { argument: 0 }),
    ),
    (
        b"DIDL\x00\x02\x7d\x7d",
        b"DIDL\x00\x01\x7d\x2a",
        Err(DidlFault::NotSubtype { argument: 1 }),
    ),
    (
        b"DIDL\x00\x03\x7d\x71\x71",
        b"DIDL\x00\x03\x7d\x7d\x7d\x01\x02\x03",
        Err(DidlFault::NotSubtype { argument: 1 }),
    ),
    // Arguments that are not expected are skipped, if they are well spelled.
    (b"DIDL\x00\x00", b"DIDL\x00\x01\x7d\x2a", Ok(b"")),
    (b"DIDL\x00\x00", b"DIDL\x00\x01\x7e\x02", BAD_VALUE),
    // 2^127 - 1 and 2^127 at int.
    (
        INT,
        b"DIDL\x00\x01\x7d\xff\xff\xff\xff\xff\xff\xff\xff\xff\xff\xff\xff\xff\xff\xff\xff\xff\xff\x01",
        Ok(b"\xff\xff\xff\xff\xff\xff\xff\xff\xff\xff\xff\xff\xff\xff\xff\xff\xff\xff\x01"),
    ),
    (
        INT,
        b"DIDL\x00\x01\x7d\x80\x80\x80\x80\x80\x80\x80\x80\x80\x80\x80\x80\x80\x80\x80\x80\x80\x80\x02",
        BAD_VALUE,
    ),
    // 2^127 at opt int is not read as none.
    (
        b"DIDL\x01\x6e\x7c\x01\x00",
        b"DIDL\x00\x01\x7d\x80\x80\x80\x80\x80\x80\x80\x80\x80\x80\x80\x80\x80\x80\x80\x80\x80\x80\x02",
        BAD_VALUE,
    ),
    (NAT, b"DIDL\x00\x01\x7d\xff\x00", Ok(b"\x7f")),
    // 2^128 - 1
    (
        NAT,
        b"DIDL\x00\x01\x7d\xff\xff\xff\xff\xff\xff\xff\xff\xff\xff\xff\xff\xff\xff\xff\xff\xff\xff\x03",
        Ok(b"\xff\xff\xff\xff\xff\xff\xff\xff\xff\xff\xff\xff\xff\xff\xff\xff\xff\xff\x03"),
    ),
    // 64 takes a second byte as an int.
    (INT, b"DIDL\x00\x01\x7d\x40", Ok(b"\xc0\x00")),
    (RESERVED, b"DIDL\x00\x01\x7d\x2a", Ok(b"")),
    // A nat; a text, which is no subtype; null; none; reserved; a missing argument; some.
    (OPT_NAT, b"DIDL\x00\x01\x7d\x2a", Ok(b"\x01\x2a")),
    (OPT_NAT, b"DIDL\x00\x01\x71\x01a", Ok(b"\x00")),
    (OPT_NAT, b"DIDL\x00\x01\x7f", Ok(b"\x00")),
    (OPT_NAT, b"DIDL\x01\x6e\x7d\x01\x00\x00", Ok(b"\x00")),
    (OPT_NAT, b"DIDL\x00\x01\x70", Ok(b"\x00")),
    (OPT_NAT, b"DIDL\x00\x00", Ok(b"\x00")),
    (
        OPT_NAT,
        b"DIDL\x01\x6e\x7d\x01\x00\x01\x07",
        Ok(b"\x01\x07"),
    ),
    // Some of a text.
    (OPT_NAT, b"DIDL\x01\x6e\x71\x01\x00\x01\x01a", Ok(b"\x00")),
    // A nat at opt opt nat.
    (
        b"DIDL\x02\x6e\x01\x6e\x7d\x01\x00",
        b"DIDL\x00\x01\x7d\x2a",
        Ok(b"\x00"),
    ),
    // record {0 : nat} at opt record {0 : null}: subtyping is not transitive.
    (
        b"DIDL\x02\x6e\x01\x6c\x01\x00\x7f\x01\x00",
        b"DIDL\x01\x6c\x01\x00\x7d\x01\x00\x05",
        Ok(b"\x00"),
    ),
    // Fields that are not expected, before and after.
    (
        b"DIDL\x01\x6c\x01\x05\x7d\x01\x00",
        b"DIDL\x01\x6c\x03\x00\x71\x05\x7d\x06\x71\x01\x00\x01a\x07\x01b",
        Ok(b"\x07"),
    ),
    // Fields that are missing: null, reserved, opt nat.
    (
        b"DIDL\x02\x6c\x04\x01\x7f\x05\x7d\x06\x70\x07\x01\x6e\x7d\x01\x00",
        b"DIDL\x01\x6c\x01\x05\x7d\x01\x00\x07",
        Ok(b"\x07\x00"),
    ),
    // Lists, unrolled once and twice.
    (
        TWO_CELLS,
        b"DIDL\x02\x6e\x01\x6c\x02\x00\x7d\x01\x00\x01\x00\x01\x05\x00",
        Ok(b"\x01\x05\x00"),
    ),
    (
        LIST,
        b"DIDL\x04\x6e\x01\x6c\x02\x00\x7d\x01\x02\x6e\x03\x6c\x02\x00\x7d\x01\x00\x01\x00\x01\x05\x01\x06\x00",
        Ok(b"\x01\x05\x01\x06\x00"),
    ),
    // The second of two cases is the third of three that are expected.
    (
        b"DIDL\x01\x6b\x03\x01\x7f\x02\x7f\x03\x7c\x01\x00",
        b"DIDL\x01\x6b\x02\x01\x7f\x03\x7d\x01\x00\x01\x09",
        Ok(b"\x02\x09"),
    ),
    // Bytes, as they are and as opts; an empty vec of empty as bytes.
    (
        VEC_NAT8,
        b"DIDL\x01\x6d\x7b\x01\x00\x02\x05\x06",
        Ok(b"\x02\x05\x06"),
    ),
    (
        b"DIDL\x02\x6d\x01\x6e\x7b\x01\x00",
        b"DIDL\x01\x6d\x7b\x01\x00\x02\x05\x06",
        Ok(b"\x02\x01\x05\x01\x06"),
    ),
    (VEC_NAT8, b"DIDL\x01\x6d\x6f\x01\x00\x00", Ok(b"\x00")),
    // A vec of nats as ints.
    (
        b"DIDL\x01\x6d\x7c\x01\x00",
        b"DIDL\x01\x6d\x7d\x01\x00\x02\x05\x40",
        Ok(b"\x02\x05\xc0\x00"),
    ),
    // A principal, a service and a function of it, below their own types.
    (
        REFERENCES,
        b"DIDL\x02\x6a\x00\x00\x00\x69\x00\x03\x68\x01\x00\x01\x01\x04\x01\x01\x05\x01\x01\x01\x06\x01m",
        Ok(b"\x01\x01\x04\x01\x01\x05\x01\x01\x01\x06\x01m"),
    ),
];

fn rows() -> &'static [Row] {
    &ROWS
}

/// The expected types that a header names.
pub(crate) fn expected_of(alloc: Global, header: &[u8]) -> Option<Expected> {
    match read_header(alloc, header) {
        Ok(header) => Some(Expected::of(header.table, header.types.items)),
        Err(_) => None,
    }
}

/// The values, written at the expected types.
fn written(alloc: Global, expected: &Expected, message: &[u8]) -> Result<Bytes, DidlFault> {
    match decode(alloc, expected, message) {
        Ok(values) => match encode(alloc, expected.table(), expected.types(), &values.items) {
            Ok(bytes) => Ok(bytes),
            Err(_) => Err(DidlFault::NoMemory),
        },
        Err(fault) => Err(fault),
    }
}

fn is_read_at(alloc: Global, expected: &Expected, row: &Row) -> bool {
    let (header, message, wanted) = *row;
    match written(alloc, expected, message) {
        Ok(bytes) => bytes.items.strip_prefix(header).map(Ok) == Some(wanted),
        Err(fault) => wanted == Err(fault),
    }
}

fn is_read(alloc: Global, row: &Row) -> bool {
    match expected_of(alloc, row.0) {
        Some(expected) => is_read_at(alloc, &expected, row),
        None => false,
    }
}

#[test]
fn messages_at_types(rt: HostRuntime) {
    for row in rows() {
        assert!(rt; is_read(rt.alloc(), row), "{:?}", row.1);
    }
}

/// A header with the expected types, a message, the most values that may be made, and how many
/// arguments are read, or the fault.
type Limit = (
    &'static [u8],
    &'static [Piece<'static>],
    u32,
    Result<usize, DidlFault>,
);

const VEC_NULL: &[u8] = b"DIDL\x01\x6d\x7f\x01\x00";

const OPTS: &[u8] = b"DIDL\x01\x6e\x00\x01\x00";

const RECORDS: &[u8] = b"DIDL\x02\x6d\x01\x6c\x02\x00\x7d\x01\x71\x01\x00";

static LIMITS: [Limit; 6] = [
    // A vec of 99 nulls is 100 values, and one of 100 is 101.
    (VEC_NULL, &[(VEC_NULL, 1), (b"\x63", 1)], 100, Ok(1)),
    (
        VEC_NULL,
        &[(VEC_NULL, 1), (b"\x64", 1)],
        100,
        Err(DidlFault::NoMemory),
    ),
    (VEC_NULL, &[(VEC_NULL, 1), (b"\x64", 1)], 101, Ok(1)),
    // Opts that nest 128 and 129 deep.
    (
        OPTS,
        &[(OPTS, 1), (b"\x01", 127), (b"\x00", 1)],
        16_777_216,
        Ok(1),
    ),
    (
        OPTS,
        &[(OPTS, 1), (b"\x01", 128), (b"\x00", 1)],
        16_777_216,
        Err(DidlFault::BadValue),
    ),
    // A message of 2 MiB: 74,896 records of 28 bytes, each a nat and a text of 26 letters.
    (
        RECORDS,
        &[
            (RECORDS, 1),
            (b"\x90\xc9\x04", 1),
            (b"\x07\x1aabcdefghijklmnopqrstuvwxyz", 74_896),
        ],
        16_777_216,
        Ok(1),
    ),
];

fn limits() -> &'static [Limit] {
    &LIMITS
}

fn is_limited(alloc: Global, expected: &Expected, message: &[u8], limit: &Limit) -> bool {
    match decode_within(alloc, expected, message, limit.2) {
        Ok(values) => limit.3 == Ok(values.items.len()),
        Err(fault) => limit.3 == Err(fault),
    }
}

fn is_limited_at(alloc: Global, message: &[u8], limit: &Limit) -> bool {
    match expected_of(alloc, limit.0) {
        Some(expected) => is_limited(alloc, &expected, message, limit),
        None => false,
    }
}

fn holds(alloc: Global, limit: &Limit) -> bool {
    match message_of(alloc, limit.1) {
        Ok(message) => is_limited_at(alloc, &message, limit),
        Err(_) => false,
    }
}

#[test]
fn limits_of_decoding(rt: HostRuntime) {
    for (place, limit) in limits().iter().enumerate() {
        assert!(rt; holds(rt.alloc(), limit), "{place}");
    }
}
