//! What canisters say, where somebody listens: the last texts that `debug_print` was given (IC Interface Specification,
//! "Debugging aids"), each as far as it is kept.
//!
//! What is kept never passes 100 texts of 4,096 bytes, so a canister that says much takes no more memory than one that says
//! little. Beside the texts it is kept where executions trapped and what they used; contracts do not see these.
#![tactic(auto)]

mod ear;
mod heard;
mod trapped;

pub use ear::Ear;
pub use heard::{Heard, Said, Texts};
pub use trapped::{Place, Places, Trapped};
