use crate::pieces::{Piece, message_of};
use cd_codec::*;
use ic_principal::Bytes;
use std::alloc::Global;
use std::test::*;

/// What reading a message gives.
enum Wanted {
    Header(HeaderFault),
    Values(ValueFault),
    /// That many values.
    Read(usize),
    /// A record with that many fields of the kinds that belong to their ids.
    Kinds(usize),
    /// Values that are written so.
    Written(&'static [u8]),
    /// Values that are written as they were.
    Same,
    /// Values that are read again as they were: that many types, and as many values.
    Again(usize),
}

const NOT_HEADER: Wanted = Wanted::Header(HeaderFault::NotHeader);

const FLOAT: Wanted = Wanted::Header(HeaderFault::Float);

const BAD_VALUE: Wanted = Wanted::Values(ValueFault::BadValue);

// bool, int -1, nat8, int16 -2, opt, blob, variant, principal, func and service, in one record.
const EVERY_KIND: &[u8] =
    b"DIDL\x06\x6e\x7d\x6d\x7b\x6b\x02\x00\x7f\x01\x7d\x6a\x00\x00\x01\x01\x69\x00\x6c\x0a\
\x00\x7e\x01\x7c\x02\x7b\x03\x76\x04\x00\x05\x01\x06\x02\x07\x68\x08\x03\x09\x04\x01\x05\
\x01\x7f\x07\xfe\xff\x01\x05\x02ab\x01\x09\x01\x01\x04\x01\x01\x00\x01m\x01\x00";

// A table in a test would be long to prove, so a function gives each.
static MESSAGES: [(&[u8], Wanted); 44] = [
    (b"DIDL\x00\x00", Wanted::Read(0)),
    (b"DIDL\x00\x01\x7d\x2a", Wanted::Read(1)),
    // A padded number, of 2 and of 24 bytes, and one of 25.
    (b"DIDL\x00\x01\x7d\xff\x00", Wanted::Read(1)),
    (
        b"DIDL\x00\x01\x7d\x80\x80\x80\x80\x80\x80\x80\x80\x80\x80\x80\x80\x80\x80\x80\x80\x80\x80\x80\x80\x80\x80\x80\x00",
        Wanted::Read(1),
    ),
    (
        b"DIDL\x00\x01\x7d\x80\x80\x80\x80\x80\x80\x80\x80\x80\x80\x80\x80\x80\x80\x80\x80\x80\x80\x80\x80\x80\x80\x80\x80\x00",
        BAD_VALUE,
    ),
    // 2^128
    (
        b"DIDL\x00\x01\x7d\x80\x80\x80\x80\x80\x80\x80\x80\x80\x80\x80\x80\x80\x80\x80\x80\x80\x80\x04",
        BAD_VALUE,
    ),
    // 2^128 - 1, and as signed numbers -2^127 and 2^127.
    (
        b"DIDL\x00\x01\x7d\xff\xff\xff\xff\xff\xff\xff\xff\xff\xff\xff\xff\xff\xff\xff\xff\xff\xff\x03",
        Wanted::Read(1),
    ),
    (
        b"DIDL\x00\x01\x7c\x80\x80\x80\x80\x80\x80\x80\x80\x80\x80\x80\x80\x80\x80\x80\x80\x80\x80\x7e",
        Wanted::Read(1),
    ),
    (
        b"DIDL\x00\x01\x7c\x80\x80\x80\x80\x80\x80\x80\x80\x80\x80\x80\x80\x80\x80\x80\x80\x80\x80\x02",
        BAD_VALUE,
    ),
    // A byte after the values.
    (b"DIDL\x00\x01\x7d\x2a\x00", BAD_VALUE),
    // Floats, named by an argument, by an entry that is not used, and cut short.
    (b"DIDL\x00\x01\x72\x00\x00\x00\x00\x00\x00\x00\x00", FLOAT),
    (b"DIDL\x01\x6e\x73\x00", FLOAT),
    (b"DIDL\x01\x6e\x73", NOT_HEADER),
    // Ids that rise, and that do not.
    (
        b"DIDL\x01\x6c\x02\x00\x7d\x01\x7d\x01\x00\x01\x02",
        Wanted::Read(1),
    ),
    (
        b"DIDL\x01\x6c\x02\x01\x7d\x00\x7d\x01\x00\x01\x02",
        NOT_HEADER,
    ),
    // The greatest id, and one more.
    (
        b"DIDL\x01\x6c\x01\xff\xff\xff\xff\x0f\x7f\x00",
        Wanted::Read(0),
    ),
    (b"DIDL\x01\x6c\x01\x80\x80\x80\x80\x10\x7f\x00", NOT_HEADER),
    // The greatest annotation, and one more.
    (b"DIDL\x01\x6a\x00\x00\x01\x03\x00", Wanted::Read(0)),
    (b"DIDL\x01\x6a\x00\x00\x01\x04\x00", NOT_HEADER),
    // A bool of 2, an opt of 2, the case after the last, and a reference that is opaque.
    (b"DIDL\x00\x01\x7e\x02", BAD_VALUE),
    (b"DIDL\x01\x6e\x7f\x01\x00\x02", BAD_VALUE),
    (b"DIDL\x01\x6b\x01\x00\x7f\x01\x00\x01", BAD_VALUE),
    (b"DIDL\x00\x01\x68\x00\x00", BAD_VALUE),
    // A vec of 2^60 nulls, and a record that holds itself.
    (
        b"DIDL\x01\x6d\x7f\x01\x00\x80\x80\x80\x80\x80\x80\x80\x80\x10",
        BAD_VALUE,
    ),
    (b"DIDL\x01\x6c\x01\x00\x00\x01\x00", BAD_VALUE),
    // Texts: UTF-8, an overlong form, a surrogate, a length past the end.
    (b"DIDL\x00\x01\x71\x02hi", Wanted::Read(1)),
    (b"DIDL\x00\x01\x71\x02\xc0\x80", BAD_VALUE),
    (b"DIDL\x00\x01\x71\x03\xed\xa0\x80", BAD_VALUE),
    (b"DIDL\x00\x01\x71\x03hi", BAD_VALUE),
    // A method name that is no UTF-8, and a method that is no function.
    (
        b"DIDL\x02\x69\x01\x01\xff\x01\x6a\x00\x00\x00\x00",
        NOT_HEADER,
    ),
    (b"DIDL\x02\x69\x01\x01m\x01\x6e\x7d\x00", NOT_HEADER),
    // A type of the arguments outside the table, and a type that has no value.
    (b"DIDL\x00\x01\x00", NOT_HEADER),
    (b"DIDL\x00\x01\x6f", BAD_VALUE),
    (b"DIDM\x00\x00", NOT_HEADER),
    (b"DIDL\x00\x00", Wanted::Written(b"DIDL\x00\x00")),
    // Each number padded.
    (
        b"DIDL\x80\x00\x81\x00\xfd\x7f\xaa\x00",
        Wanted::Written(b"DIDL\x00\x01\x7d\x2a"),
    ),
    // -2^127 after a padded count, and a text.
    (
        b"DIDL\x00\x82\x00\x7c\x71\x80\x80\x80\x80\x80\x80\x80\x80\x80\x80\x80\x80\x80\x80\x80\x80\x80\x80\x7e\x02hi",
        Wanted::Written(
            b"DIDL\x00\x02\x7c\x71\x80\x80\x80\x80\x80\x80\x80\x80\x80\x80\x80\x80\x80\x80\x80\x80\x80\x80\x7e\x02hi",
        ),
    ),
    // Messages that are written as they are.
    // A record with a nat and the rest of a list.
    (
        b"DIDL\x04\x6e\x01\x6c\x02\x00\x7d\x01\x02\x6e\x03\x6c\x02\x00\x7d\x01\x00\x01\x00\x01\x05\x00",
        Wanted::Same,
    ),
    // A service with a query method of type (nat) -> (service).
    (
        b"DIDL\x02\x69\x01\x01m\x01\x6a\x01\x7d\x01\x00\x01\x01\x01\x00\x01\x01\x04",
        Wanted::Same,
    ),
    // Numbers of fixed width, null and reserved.
    (
        b"DIDL\x00\x09\x7f\x70\x7b\x7a\x79\x78\x77\x75\x74\x01\x02\x03\x04\x05\x06\x07\x08\x09\x0a\x0b\x0c\x0d\x0e\x0f\xf0\xf1\xf2\xf3\xf4\xf5\xf6\xf7\xf8\xf9\xfa\xfb\xfc",
        Wanted::Same,
    ),
    (EVERY_KIND, Wanted::Same),
    (EVERY_KIND, Wanted::Kinds(10)),
    (EVERY_KIND, Wanted::Again(1)),
    (b"DIDL\x00\x02\x7d\x71\xff\x00\x02hi", Wanted::Again(2)),
];

fn messages() -> &'static [(&'static [u8], Wanted)] {
    &MESSAGES
}

fn is_kind(id: u32, part: &Value) -> bool {
    match id {
        0 => matches!(part, Value::Bool(true)),
        1 => matches!(part, Value::Int(-1)),
        2 => matches!(part, Value::Nat8(7)),
        3 => matches!(part, Value::Int16(-2)),
        4 => matches!(part, Value::Opt(Some(_))),
        5 => matches!(part, Value::Blob(blob) if blob.items.as_slice() == b"ab".as_slice()),
        6 => matches!(part, Value::Var { position: 1, .. }),
        7 => matches!(part, Value::Principal(id) if id.bytes() == [4].as_slice()),
        8 => matches!(part, Value::Func { method, .. } if method.items.as_str() == "m"),
        _ => matches!(part, Value::Service(id) if id.bytes().is_empty()),
    }
}

// How many fields of the one argument, a record, are of the kinds that belong to their ids.
fn right_kinds(values: &Values) -> usize {
    match values.items.first() {
        Some(Value::Rec(parts)) => parts
            .items
            .iter()
            .filter(|part| is_kind(part.0, &part.1))
            .count(),
        _ => 0,
    }
}

fn are_so(values: &Values, wanted: &Wanted) -> bool {
    match wanted {
        Wanted::Read(count) => values.items.len() == *count,
        Wanted::Kinds(count) => right_kinds(values) == *count,
        _ => false,
    }
}

fn is_so(alloc: Global, header: &Header, message: &[u8], wanted: &Wanted) -> bool {
    if header.length > message.len() {
        return false;
    }
    match read_values(alloc, header, message, header.length) {
        Ok(values) => are_so(&values, wanted),
        Err(fault) => matches!(wanted, Wanted::Values(wanted) if *wanted == fault),
    }
}

fn is_read(alloc: Global, message: &[u8], wanted: &Wanted) -> bool {
    match read_header(alloc, message) {
        Ok(header) => is_so(alloc, &header, message, wanted),
        Err(fault) => matches!(wanted, Wanted::Header(wanted) if *wanted == fault),
    }
}

// What is written for the values of a message.
fn written(alloc: Global, message: &[u8]) -> Option<Bytes> {
    match read_header(alloc, message) {
        Ok(header) if header.length <= message.len() => {
            match read_values(alloc, &header, message, header.length) {
                Ok(values) => encode(alloc, &header.table, &header.types.items, &values.items).ok(),
                Err(_) => None,
            }
        }
        _ => None,
    }
}

fn is_written(alloc: Global, message: &[u8], expected: &[u8]) -> bool {
    match written(alloc, message) {
        Some(bytes) => bytes.items.as_slice() == expected,
        None => false,
    }
}

// How many arguments and values a message has that is read, written and read again.
fn read_again(alloc: Global, message: &[u8]) -> Option<(usize, usize)> {
    match read_header(alloc, message) {
        Ok(header) if header.length <= message.len() => {
            match read_values(alloc, &header, message, header.length) {
                Ok(values) => {
                    let types = &header.types.items;
                    match laws::read_back(alloc, &header.table, types, &values.items) {
                        Ok((header, values)) => Some((
                            header.types.items.len(),
                            values.items.len(),
                        )),
                        Err(_) => None,
                    }
                }
                Err(_) => None,
            }
        }
        _ => None,
    }
}

fn is_answered(alloc: Global, message: &[u8], wanted: &Wanted) -> bool {
    match wanted {
        Wanted::Written(bytes) => is_written(alloc, message, bytes),
        Wanted::Same => is_written(alloc, message, message),
        Wanted::Again(count) => read_again(alloc, message) == Some((*count, *count)),
        _ => is_read(alloc, message, wanted),
    }
}

#[test]
fn messages_and_faults(rt: HostRuntime) {
    for (message, wanted) in messages() {
        assert!(rt; is_answered(rt.alloc(), message, wanted), "{message:?}");
    }
}

static LIMITS: [(&[Piece], Wanted); 14] = [
    // 10,000 and 10,001 entries.
    (
        &[(b"DIDL\x90\x4e", 1), (b"\x6e\x7f", 10_000), (b"\x00", 1)],
        Wanted::Read(0),
    ),
    (
        &[(b"DIDL\x91\x4e", 1), (b"\x6e\x7f", 10_001), (b"\x00", 1)],
        NOT_HEADER,
    ),
    // 10,000 and 10,001 arguments.
    (
        &[(b"DIDL\x00\x90\x4e", 1), (b"\x7f", 10_000)],
        Wanted::Read(10_000),
    ),
    (&[(b"DIDL\x00\x91\x4e", 1), (b"\x7f", 10_001)], NOT_HEADER),
    // The number of a type in 24 and in 25 bytes.
    (
        &[(b"DIDL\x00\x01\xfd", 1), (b"\xff", 22), (b"\x7f\x2a", 1)],
        Wanted::Read(1),
    ),
    (
        &[(b"DIDL\x00\x01\xfd", 1), (b"\xff", 23), (b"\x7f\x2a", 1)],
        NOT_HEADER,
    ),
    // Opts that nest 128 and 129 deep.
    (
        &[
            (b"DIDL\x01\x6e\x00\x01\x00", 1),
            (b"\x01", 127),
            (b"\x00", 1),
        ],
        Wanted::Read(1),
    ),
    (
        &[
            (b"DIDL\x01\x6e\x00\x01\x00", 1),
            (b"\x01", 128),
            (b"\x00", 1),
        ],
        BAD_VALUE,
    ),
    // A vec of 999,999 nulls is 1,000,000 values.
    (
        &[(b"DIDL\x01\x6d\x7f\x01\x00", 1), (b"\xbf\x84\x3d", 1)],
        Wanted::Read(1),
    ),
    (
        &[(b"DIDL\x01\x6d\x7f\x01\x00", 1), (b"\xc0\x84\x3d", 1)],
        BAD_VALUE,
    ),
    // A signed number in 24 and in 25 bytes.
    (
        &[(b"DIDL\x00\x01\x7c", 1), (b"\xff", 23), (b"\x7f", 1)],
        Wanted::Read(1),
    ),
    (
        &[(b"DIDL\x00\x01\x7c", 1), (b"\xff", 24), (b"\x7f", 1)],
        BAD_VALUE,
    ),
    // A principal of 29 and of 30 bytes.
    (
        &[(b"DIDL\x00\x01\x68\x01\x1d", 1), (b"\x04", 29)],
        Wanted::Read(1),
    ),
    (
        &[(b"DIDL\x00\x01\x68\x01\x1e", 1), (b"\x04", 30)],
        BAD_VALUE,
    ),
];

fn limits() -> &'static [(&'static [Piece<'static>], Wanted)] {
    &LIMITS
}

fn holds(alloc: Global, pieces: &[Piece], wanted: &Wanted) -> bool {
    match message_of(alloc, pieces) {
        Ok(message) => is_answered(alloc, &message, wanted),
        Err(_) => false,
    }
}

#[test]
fn limits_of_messages(rt: HostRuntime) {
    for (place, (pieces, wanted)) in limits().iter().enumerate() {
        assert!(rt; holds(rt.alloc(), pieces, wanted), "{place}");
    }
}
