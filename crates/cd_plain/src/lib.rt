//! Candid values without parts, as they are read from tokens, and all values as they are printed
//! (Candid specification, "Core Grammar").
#![tactic(auto)]

mod plain_reader;
mod plain_writer;
mod printing;
mod types;

pub use plain_reader::{func_of, natural_below, primitive_of, principal_after, string_of};
pub use printing::{print, print_named};
