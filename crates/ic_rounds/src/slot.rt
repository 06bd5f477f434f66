use ic_held::Held;
use ic_principal::Principal;
use ic_state::CanisterPlace;

/// A canister and its first message.
#[derive(Drop)]
pub struct Slot {
    pub key: Principal,
    pub canister: CanisterPlace,
    pub message: Held,
}
