//! The outside of a replica: sources of bytes and sinks for bytes, the lines of a script, sending,
//! and the gate at which a test may hold a worker.
//!
//! A stream tells what it has left or has taken where it can, and counts its faults: one for each read
//! or write that fails. Calls say by how much such a count rises, so that no body can answer a fault of
//! a stream that was none, or try once more what failed. Lines are the bytes before each LF (0A hex); a script's largest line and largest size are
//! limits that the reader keeps.
#![tactic(auto)]

mod error;
mod gate;
mod kept;
pub mod laws;
mod lines;
mod memory_sink;
mod memory_source;
mod sending;
mod sink;
mod source;
mod std_sink;
mod std_source;

pub use error::{Failed, LineFault, WriteFault};
pub use gate::{Gate, OpenGate};
pub use lines::{Line, Lines};
pub use memory_sink::MemorySink;
pub use memory_source::MemorySource;
pub use sending::send;
pub use sink::Sink;
pub use source::Source;
pub use std_sink::StdSink;
pub use std_source::StdSource;
