//! LEB128, the numbers of Candid (Candid specification, "Binary Format") and of WebAssembly
//! (WebAssembly Core 1.0, section 5.2.2).
//!
//! A number is read exactly where some front of the bytes spells it (`specs/Spells`), and each
//! fault comes exactly where `specs/Faults` says. What is written is the shortest spelling
//! (`specs/Spelling`).
#![tactic(auto)]

mod bits;
mod fault;
mod laws;
mod reading;
mod width;
mod writing;

pub use fault::LebFault;
pub use laws::{shortest_signed, shortest_unsigned};
pub use reading::{read_s, read_u, take_s, take_u};
pub use width::Width;
pub use writing::{size_s, size_u, write_s, write_u};
