//! Candid's messages, DIDL (Candid specification, "Binary Format"): the header with its type
//! table, and the values at wire types.
//!
//! `specs/IsHeader` and `specs/Wire` say which bytes spell a header and a value. A header or values
//! are read exactly where the bytes are one by these grammars, with every number padded or not,
//! within the limits: 10,000 entries, 10,000 arguments, nesting 128 and 1,000,000 values. What is
//! written is a function of the table, the types and the values (`specs/Message`), each number in
//! its shortest spelling, and within the limits it is read back.
#![tactic(auto)]

mod codes;
mod expected;
mod fault;
mod header;
mod header_reader;
mod header_writer;
pub mod laws;
mod lists;
mod plain;
mod reading;
mod value;
mod writer;

pub use expected::Expected;
pub use fault::{HeaderFault, ValueFault};
pub use header::Header;
pub use header_reader::read_header;
pub use reading::read_values;
pub use value::{FieldValues, Value, Values};
pub use writer::encode;
