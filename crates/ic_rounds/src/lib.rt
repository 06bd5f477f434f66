//! The first phase of a round: each canister that has a message handles its first one.
//!
//! One pass takes the first messages out of the list (`specs/Taking`). One worker handles them one after
//! another, each canister in its place (`specs/InPlace`). For several, each message goes into a slot with
//! its canister (`specs/Dealing`), workers draw slots by tickets, side by side (`specs/Workers`), and what came
//! of them is put where it belongs in the order of canisters (`specs/Slots`). That this is the first
//! phase of a round as `ic_behaviour` defines it, one delivery after another, is proved, for any number of
//! workers.
#![tactic(auto)]

mod crew;
mod dealt;
mod first;
mod first_messages;
mod halves;
mod handled_slot;
mod in_place;
mod outbox_entry;
mod permit;
mod places;
mod putting_back;
mod sharing;
mod slot;
mod taken;
mod worker;
mod working;

pub use crew::{Crew, MOST_WORKERS};
pub use first::canister_turns;
pub use first_messages::handle_firsts;
pub use handled_slot::HandledSlot;
pub use ic_tickets as tickets;
pub use sharing::handle_slots;
pub use slot::Slot;
