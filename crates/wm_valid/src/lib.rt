//! Validation of WebAssembly modules (Core 1.0, chapter 3; the sign extensions, `memory.copy` and
//! `memory.fill` are those of Core 2.0) that canisters install.
//!
//! `validate` tries the checks in the order of `Invalid` and answers the first that fails
//! (`specs/Checked`): imports are calls of the System API, indices and limits are in range, sizes
//! are within this profile, exports whose names begin with `canister_` are entry points, and bodies
//! have a typing. A `Valid` keeps its module with what the checks found.
#![tactic(auto)]

mod answer;
mod bodies;
mod entries;
mod entry;
mod imports;
mod indices;
mod invalid;
mod laws;
mod methods;
mod names;
mod refused;
mod scope;
mod sizes;
mod space;
pub mod system_api;
mod valid;

pub use answer::validate;
pub use entry::EntryName;
pub use invalid::Invalid;
pub use laws::every_check_passes;
pub use refused::Refused;
pub use valid::Valid;
