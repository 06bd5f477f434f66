//! Interface files of Candid: the interface that a file stands for, or why it stands for none, and
//! whether a canister may be upgraded from one interface to another (Candid specification, "Core
//! Grammar", "Type Table" and "Upgrading and Subtyping").
//!
//! `specs/Faults` says which files are at fault, `specs/Answers` which fault is answered, and
//! `specs/Denotes` which types of a table a file's types stand for. Which text is which file, the
//! grammar in `cd_grammar` says.
#![tactic(auto)]

mod checks;
mod entries;
mod fault;
mod interface;
mod kinds;
pub mod laws;
mod methods;
mod named;
mod names;
mod place;
mod rings;
mod settled;
mod sorted;
mod targets;
mod upgrade;
mod walk;

pub use cd_names::{FieldNames, names_of};
pub use fault::{DidFault, Interface};
pub use interface::read_interface;
pub use methods::Method;
pub use place::fault_place;
pub use upgrade::upgradable;
