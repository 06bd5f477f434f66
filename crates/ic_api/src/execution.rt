use ic_behaviour::{OutCall, OutCalls, Response, View};
use ic_principal::Bytes;

/// The record of an execution: what it sees, and what happened in it.
#[derive(Drop)]
pub struct Execution {
    pub view: View,
    /// The reply as far as it is put together.
    pub appended: Bytes,
    /// The answer with its refund, if one was given in this execution.
    pub answer: Option<(Response, u128)>,
    /// The call that is begun and not performed.
    pub begun: Option<OutCall>,
    pub performed: OutCalls,
    /// Whether an inspection accepted the message.
    pub accepted_message: bool,
}
