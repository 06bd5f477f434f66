//! Names for the ids of fields and cases (Candid specification, "Shorthand: Symbolic Field Ids"): a
//! value has ids alone, and the text that its types come from, as an interface file, has the names.
//!
//! `specs/Names` says which name an id has: of the ids that a table's records and variants use, the
//! first word or string of the text whose id it is.
#![tactic(auto)]

mod ids;
mod names;
mod reading;

pub use names::FieldNames;
pub use reading::names_of;
