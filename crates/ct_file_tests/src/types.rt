//! Types of methods, as what follows a table in the header of a message.

use cd_codec::{Expected, read_header};
use cd_did::Interface;
use std::alloc::Global;

/// The table that all rows share:
/// 0 `record { owner : principal; subaccount : 1 }`, 1 `opt 2`, 2 `vec nat8`,
/// 3 `record { 7 : bool; id : nat; note : text; "of whom" : 0 }`, 4 `variant { ok : nat64; err : 5 }`,
/// 5 `variant { unfunded : 6; too_old }`, 6 `record { balance : int }`, 7 `vec 8`, 8 `opt nat`,
/// 9 `service {}`, 10 `func () -> ()`.
const TABLE: &[u8] =
    b"\x44\x49\x44\x4c\x0b\x6c\x02\xb3\xb0\xda\xc3\x03\x68\xad\x86\xca\x83\x05\x01\x6e\x02\x6d\x7b\x6c\x04\x07\x7e\xdb\xb7\x01\x7d\xf2\xaf\xa8\xc8\x04\x71\x98\x96\xfe\xdf\x08\x00\x6b\x02\x9c\xc2\x01\x78\xe5\x8e\xb4\x02\x05\x6b\x02\xbc\xbc\xc4\x8f\x06\x7f\xfd\x9b\xc6\x8c\x07\x06\x6c\x01\x9c\xba\xb6\x9c\x02\x7c\x6d\x08\x6e\x7d\x69\x00\x6a\x00\x00\x00";

/// record { id : nat; "of whom" : record { owner : principal; subaccount : opt blob }; note : text; 7 : bool }
pub(crate) const ENTRY: &[u8] = b"\x01\x03";

/// variant { ok : nat64; err : variant { too_old; unfunded : record { balance : int } } }
pub(crate) const OUTCOME: &[u8] = b"\x01\x04";

/// nat64
pub(crate) const NATS: &[u8] = b"\x01\x78";

/// nat64, text
pub(crate) const PAIR: &[u8] = b"\x02\x78\x71";

/// blob
pub(crate) const BLOB: &[u8] = b"\x01\x02";

/// vec opt nat
pub(crate) const LIST: &[u8] = b"\x01\x07";

/// principal
pub(crate) const PRINCIPAL: &[u8] = b"\x01\x68";

/// service {}, func () -> ()
pub(crate) const REFERENCES: &[u8] = b"\x02\x09\x0a";

/// nothing
pub(crate) const NONE: &[u8] = b"\x00";

fn header_of(alloc: Global, types: &[u8]) -> Option<Vec<u8>> {
    let mut header = Vec::new(alloc);
    header.extend_from_slice(TABLE).ok()?;
    header.extend_from_slice(types).ok()?;
    Some(header)
}

/// The table, and these types of it.
pub(crate) fn expected_of(alloc: Global, types: &[u8]) -> Option<Expected> {
    let header = header_of(alloc, types)?;
    match read_header(alloc, &header) {
        Ok(header) => Some(Expected::of(header.table, header.types.items)),
        Err(_) => None,
    }
}

/// An interface with the table, whose service is installed with these types.
pub(crate) fn interface_of(alloc: Global, types: &[u8]) -> Option<Interface> {
    let header = header_of(alloc, types)?;
    match read_header(alloc, &header) {
        Ok(header) => Some(Interface {
            table: header.table,
            service: None,
            init: header.types,
        }),
        Err(_) => None,
    }
}
