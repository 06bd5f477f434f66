//! Where a run trapped, as its author reads it: the functions under way by their names, each with the offset of its
//! instruction in the module's bytes, as `wasm-objdump -d` prints it.
#![tactic(auto)]

mod located;
mod names;

pub use located::{Located, Place, Places, locate};
pub use names::name_of;
