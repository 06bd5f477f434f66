//! Writing WebAssembly modules (Core 1.0, chapter 5; of Core 2.0 the sign extensions, `memory.copy` and
//! `memory.fill`).
//!
//! A module is written without custom sections, data count and empty sections, each number in its
//! shortest spelling: the bytes are a function of the module (`specs/Whole`). They are in the binary
//! grammar that `wm_decode` reads, so what is written is read back, and what was read can be written.
#![tactic(auto)]

mod instr;
mod item;
mod laws;
mod number;
mod part;
mod types;
mod writer;

pub use laws::{read_back, read_fits, relay_fits};
pub use writer::encode;
