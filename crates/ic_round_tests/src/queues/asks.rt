use crate::queues::dice::Dice;
use crate::queues::module::installing;
use ic_principal::{Bytes, Principal, Text};
use std::alloc::Global;

// record {}
static NO_FIELDS: &[u8] = b"DIDL\x01l\x00\x01\x00";

// record { canister_id : principal }, but for the ten bytes of the canister, with which it ends.
static CANISTER: &[u8] = b"DIDL\x01l\x01\xb3\xc4\xb1\xf2\x04h\x01\x00\x01\x0a";

/// What a user calls.
#[derive(Drop)]
pub struct Ask {
    pub callee: Principal,
    pub method: Text,
    pub arg: Bytes,
}

/// Its argument is one list after the other.
pub fn joined(
    alloc: Global,
    callee: &[u8],
    method: &str,
    front: &[u8],
    back: &[u8],
) -> Option<Ask> {
    let callee = Principal::from_bytes(callee).ok()?;
    let method = Text {
        items: String::from_str(alloc, method).ok()?,
    };
    let mut items = Vec::from_slice(alloc, front).ok()?;
    items.extend_from_slice(back).ok()?;
    Some(Ask {
        callee,
        method,
        arg: Bytes { items },
    })
}

/// The management canister makes a canister.
pub fn creation(alloc: Global) -> Option<Ask> {
    joined(
        alloc,
        &[],
        "provisional_create_canister_with_cycles",
        NO_FIELDS,
        &[],
    )
}

/// It installs the module in a canister.
pub fn installation(alloc: Global, id: Principal) -> Option<Ask> {
    let front = installing(alloc)?;
    joined(alloc, &[], "install_code", front.as_slice(), id.bytes())
}

/// A method of the management canister, for one canister.
pub fn managing(alloc: Global, method: &str, id: Principal) -> Option<Ask> {
    joined(alloc, &[], method, CANISTER, id.bytes())
}

/// A canister, which may be there, or may come.
pub fn some_canister(dice: &mut Dice) -> Principal {
    Principal::canister_id(dice.roll(9))
}

/// A call of a canister that makes eighty calls.
pub fn fanning(alloc: Global, id: Principal) -> Option<Ask> {
    joined(alloc, id.bytes(), "fans", &[0; 80], &[])
}

/// A call to a canister.
pub fn to_canister(alloc: Global, dice: &mut Dice) -> Option<Ask> {
    let id = some_canister(dice);
    let other = some_canister(dice);
    match dice.roll(10) {
        0..=2 => joined(alloc, id.bytes(), "relay", other.bytes(), &[]),
        3..=5 => joined(alloc, id.bytes(), "relay", other.bytes(), id.bytes()),
        6 => joined(alloc, id.bytes(), "relay", &[7], &[]),
        7..=8 => joined(alloc, id.bytes(), "fans", &[0; 9], &[]),
        _ => fanning(alloc, id),
    }
}

/// A call to the management canister.
pub fn to_management(alloc: Global, dice: &mut Dice) -> Option<Ask> {
    let id = some_canister(dice);
    match dice.roll(10) {
        0..=2 => creation(alloc),
        3..=4 => installation(alloc, id),
        5..=6 => managing(alloc, "start_canister", id),
        7 => managing(alloc, "stop_canister", id),
        8 => managing(alloc, "uninstall_code", id),
        _ => managing(alloc, "canister_status", id),
    }
}
