//! The program `canister_test` without the ends that it is run on: words, files and output are handed
//! in.
//!
//! All files are looked at before any test runs, in the order of the words. The first fault ends the
//! program.
#![tactic(auto)]

mod choosing;
mod disk;
mod looking;
mod outputs;
mod running;
mod status;
mod stop;
mod top;

pub use disk::{Disk, StdDisk};
pub use outputs::Outputs;
pub use status::Status;
pub use top::canister_test;
