use ic_exec::Done;
use ic_principal::Principal;
use ic_state::CanisterPlace;

/// What came of a slot.
#[derive(Drop)]
pub struct HandledSlot {
    pub key: Principal,
    pub canister: CanisterPlace,
    pub done: Done,
}
