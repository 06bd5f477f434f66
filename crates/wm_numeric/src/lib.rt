//! Integers of 32 and 64 bits (WebAssembly Core 1.0, 4.3.2; sign extension: Core 2.0, 4.3.2).
//!
//! An integer is the number of its bits, in a `u64`. Each operation of the standard is a definition
//! over numbers, for any width (`specs/Integers`), and a function for each of the two widths.
#![tactic(auto)]

mod failure;
pub mod int32;
pub mod int64;

pub use failure::Failure;
