use crate::call::{CallId, Origin};
use ic_principal::Principal;

/// A call context, the work that a canister does for one call (IC Interface Specification, "Call
/// contexts").
#[derive(Clone, Copy, Debug)]
pub struct Context {
    /// The id of the call that made it.
    pub id: CallId,
    pub origin: Origin,
    pub caller: Principal,
    /// Whether the call has no answer yet.
    pub must_respond: bool,
    /// Whether the canister was uninstalled since it was made, so that no callback runs.
    pub deleted: bool,
    /// The cycles of the call that may still be accepted.
    pub available: u128,
    /// How many calls made in it have no answer yet.
    pub outstanding: u32,
}
