//! Rounds: both phases, and rounds one after another until no message is under way.
//!
//! `round` goes through the list of messages. In a `QueuedWorld` the messages are in the queues of `ic_queues`, so that a
//! round need not pass those that it leaves. The first phase takes the first message of each canister's queue; the second
//! phase walks from one message to no canister to the next. Where one of these in truth makes or deletes a canister, the
//! messages to this canister change their queue, and the walk goes on from where it is. That each phase is the phase that
//! `ic_behaviour` defines over the list is proved. Which messages a round touches on the way no clause says. `run_rounds`
//! makes queues of a `World` where many rounds follow one another.
#![tactic(auto)]

mod drawn;
mod first;
mod over_list;
mod picking;
mod queued;
mod rounds;
mod second;

pub use ic_rounds::Crew;
pub use ic_state::Charge;
pub use over_list::round;
pub use picking::pick;
pub use queued::QueuedWorld;
pub use rounds::{round_in_queues, rounds_in_queues, run_rounds};
