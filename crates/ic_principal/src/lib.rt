//! Principals, the identifiers of users and canisters (IC Interface Specification, "Principals"),
//! and the lists of plain data that every layer above speaks of: bytes, text, and paths of labels.
//!
//! A principal and its text determine each other. The text is base32 (RFC 4648) of a CRC-32
//! (ISO 3309) and the bytes; the definitions in `specs/` say it bit by bit.
#![tactic(auto)]

mod base32;
mod bit_queue;
mod bytes;
mod checksum;
mod impls;
mod path;
mod principal;
mod text;

pub use bytes::Bytes;
pub use path::Path;
pub use principal::{NotText, Principal, TooLong};
pub use text::Text;
