//! The files that a test file names: which they are, in the order of its text, and what each is as a
//! module and as an interface, or why it is none.
//!
//! Nothing here reads from a disk: files are handed in as bytes under their names.
#![tactic(auto)]

mod fault;
mod file_interface;
mod file_wasm;
mod management;
mod named;
mod quoting;
mod source;
mod sources;

pub use fault::FileFault;
pub use management::MANAGEMENT;
pub use named::named_files;
pub use quoting::quoted;
pub use source::Source;
pub use sources::Sources;
