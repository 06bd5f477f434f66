//! What every layer shares: the error out of memory, a stack, and the tools that readers of
//! binary formats are written, stated and proved with.
//!
//! A reader of a format is stated as a function on lists (`specs/Reader`) and its grammar as a
//! relation between values and bytes (`specs/Spelling`). `Exact` (`specs/Exact`) says that both
//! agree, and `Gives` (`specs/Gives`) that code does what the function says. The proofs that
//! `Exact` passes from parts to the whole are public modules of `proofs/`.
#![tactic(auto)]

mod item;
mod no_memory;
mod read_error;
mod room;
mod stack;

pub use item::{Item, many};
pub use no_memory::NoMemory;
pub use read_error::ReadError;
pub use room::{room_claimed, room_for};
pub use stack::Stack;
