//! Delivery: a canister handles a message in its place, what it sends goes on, and a call to no canister goes back.
//!
//! All that delivers messages does it by this crate: rounds, of one worker and of several, and schedules. Only calls to
//! the management canister are carried out elsewhere. What has to hold for a message is said in `specs/Giving`, and
//! `proofs/Ready` has the law that it holds of every message of a sound state; `specs/Delivered` says what comes of it.
#![tactic(auto)]

mod delivering;
mod giving;
mod settling;

pub use delivering::{deliver, send_back};
pub use giving::give;
pub use settling::settle;
