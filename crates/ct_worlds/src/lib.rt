//! Worlds as a system whose every order is searched (`ct_search`): which messages may come next (`ic_order`), what a
//! delivery leads to (`ic_schedule`, with the management canister of `ic_mgmt`), and which worlds count as one
//! (`ic_keep`).
#![tactic(auto)]

mod delivering;
mod keeping;
mod laws;
mod worlds;

pub use delivering::delivered;
pub use keeping::WorldKeeper;
pub use laws::deliveries_keep_codes;
pub use worlds::{NamedWorld, Worlds};
