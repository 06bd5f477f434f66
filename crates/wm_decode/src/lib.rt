//! Reading WebAssembly modules (Core 1.0, chapter 5; of Core 2.0 the sign extensions, `memory.copy`,
//! `memory.fill` and the data count section).
//!
//! `decode` accepts exactly the binary grammar (`specs/Mod`), in a profile without floats: each
//! module has one reading, and a module with floats is told from bytes that are no module. What is
//! read keeps `IsModule` of `wm_tree`. Bodies are read flat, without recursion, and a claimed count
//! takes no memory before there are bytes for it.
#![tactic(auto)]

mod answer;
mod exprs;
mod fault;
mod floats;
mod items;
mod laws;
mod listing;
mod opcodes;
mod places;
mod profile;
mod sections;
mod types;
mod values;
mod words;

pub use answer::decode;
pub use fault::ModuleFault;
pub use laws::one_module;
pub use listing::listing_of;
pub use places::{name_in, offset_of};
