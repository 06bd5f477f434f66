//! The bookkeeping of calls: which calls a canister takes, the call contexts that messages make and
//! close, and where what a message sends goes.
//!
//! Each function does a part of what `ic_behaviour` says of the handling of a message, or of what the management
//! canister does to one canister: a call waits for it to stop (`await_stop`), it runs again (`restart`), or it loses its
//! code (`uninstall`). A canister keeps what it keeps by itself (`ic_state`'s `specs/IsCanister`) through all of them.
//! Who may ask for it, and where the answers go, is said by those who call.
#![tactic(auto)]

mod admission;
mod closing;
mod contexts;
mod deleting;
mod farewells;
mod phases;
mod receiving;
mod responses;
mod routing;
mod uninstalling;
mod ways;

pub use admission::admit;
pub use closing::{close, close_after};
pub use contexts::{call_id, context_at};
pub use phases::{await_stop, restart};
pub use receiving::{add_context, take_call, take_refund, take_response};
pub use responses::{empty_reply, no_canister, no_response, out_of_cycles, refused, trapped_by};
pub use routing::{answer, respond, route, send};
pub use uninstalling::uninstall;
pub use ways::{callee, is_management, same_way, sender};
