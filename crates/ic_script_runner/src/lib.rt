//! The way through a script: what its lines do to a state and print, and how that ends.
//!
//! Lines are read, done one after another (`specs/AfterCommand.antt`) and their output gathered; after the last one
//! rounds are made and the answers printed (`specs/EndPart.antt`). What is printed is a reading of one walk over the
//! lines (`specs/Walk.antt`, `Out.antt`), and `specs/Explained.antt` says what each status tells of the bytes that
//! were read and sent. It is apart from `ic_host` for the gate's sake: the wrong top calls, which the gate tries, are
//! judged without it.
#![tactic(auto)]

mod doing;
mod ending;
mod gathered;
mod generated;
mod picking;
mod printing;
mod running;
mod setting;
mod status;

pub use generated::run_generated;
pub use printing::print_last;
pub use running::run_script;
pub use status::Status;
