//! Reading Candid messages at expected types (Candid specification, "Parameters and Results" and
//! "Coercion").
//!
//! `decode` reads a message at `Expected` types. `specs/Decodes` says which arguments a message
//! decodes to and which fault comes where it does not, and `specs/Coerce` which value is read where
//! a value of one type is read at another. `specs/Decoded` and `specs/Read` are the same as
//! functions, which the code follows. `laws` promises that both agree, that a value whose type is a
//! subtype has one reading, that what is read has the expected type, and how deep it nests.
#![tactic(auto)]

mod arguments;
mod fault;
pub mod laws;
mod message;
mod plain;
mod reading;
mod shapes;
mod step;

pub use cd_codec::Expected;
pub use fault::DidlFault;
pub use message::{decode, decode_within};
