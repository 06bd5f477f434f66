use ic_principal::{Bytes, Text};

/// What came of a statement: an answer, or why there is none, which meets no outcome.
#[derive(Drop)]
pub enum Came {
    Replied(Bytes),
    Rejected { code: u32, text: Text },
    /// The inspection did not accept the call.
    Refused,
    /// With what the names stand for the arguments are no values of their types.
    NotValues,
    ArgumentTooLong,
    TooManyCalls,
    RoundsWithoutEnd,
    NoAnswer,
    /// No canister was made, since that call was rejected.
    NotMade { code: u32, text: Text },
    /// The interface is no subtype of the one in use.
    NotUpgradable,
    /// The name of a value that a canister is to be, which is no principal and no service.
    NotPrincipal(Bytes),
}
