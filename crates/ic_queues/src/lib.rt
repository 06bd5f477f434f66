//! Messages under way, in queues: one for each canister, and one for messages to no canister.
//!
//! The messages are under numbers that rise, so they are the list of the abstract state in its order
//! (`specs/Queued`), and a queue has the numbers of its messages. A message is at the place that its
//! number gives, and one that leaves leaves its place empty (`specs/Shelved`). So to put a message in or to
//! take one out touches no other message. Contracts see the list.
#![tactic(auto)]

mod line;
mod lists;
mod moving;
mod queues;
mod shelf;
mod steady;
mod walk;

pub use queues::Queues;
pub use steady::is_steady;
pub use walk::Walk;
