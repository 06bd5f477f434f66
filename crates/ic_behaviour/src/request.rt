use crate::call::Response;
use ic_principal::{Bytes, Principal, Text};

/// What a user asked (IC Interface Specification, "Request: Call").
#[derive(Drop)]
pub struct Request {
    pub sender: Principal,
    pub callee: Principal,
    pub method: Text,
    pub arg: Bytes,
    /// When it was submitted, in nanoseconds since 1970-01-01.
    pub time: u64,
    pub answer: Option<Response>,
}
