//! A machine that runs valid WebAssembly modules.
#![tactic(auto)]

mod activation;
mod backtrace;
mod calls;
mod dispatch;
mod entry;
mod frame;
mod growth;
mod hosts;
mod indirect;
mod invocation;
mod machine;
mod ranges;
mod returns;
mod stack;
mod table;
mod word;

pub use backtrace::{Backtrace, Site, Sites};
pub use entry::{entry_target, start_target};
pub use invocation::{Traced, invoke, invoke_traced};
pub use wm_instance::{InstanceFault, instantiate};
pub use wm_semantics::{Ended, Host, HostAnswer, Meter, Target, Trap};
