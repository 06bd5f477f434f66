//! Patterns of test files at the types of a method's results, and values at those of its arguments, as
//! tokens say them.
//!
//! Names are exchanged first (`ct_names`). Where it is not known yet what one stands for, it is left, and
//! any value may be in its place.
#![tactic(auto)]

mod cursor;
mod fault;
mod label;
pub mod laws;
mod plain;
mod reader;
mod reading;
mod said;

pub use fault::PatternFault;
pub use reader::Admitted;
pub use reading::pattern_of;
