ghost use Rattle.std.specs.Prelude.{◌≡◌, ◌≤◌, IfSome, vec_len};
ghost use Rattle.std.specs.List.{AllByRecursion};
ghost use Rattle.ic_rounds.specs.Slots.{IsReady};

use crate::canisters::empty_canister;
use ic_held::Held;
use ic_principal::{Bytes, Principal, Text};
use ic_rounds::Slot;
use ic_state::{Canister, CanisterPlace, Message, Origin, World};
use std::alloc::Global;

fn with_one_more(alloc: Global, world: World) -> Option<World> {
    let parts = world.parts();
    let number = parts.next_canister;
    let fits = number < 64
        && parts.canisters.len() < 64
        && parts.created < 1_000_000_000_000_000_000;
    if !fits {
        return None;
    }
    match empty_canister(alloc, number) {
        Some(canister) => world.add(canister).ok(),
        None => None,
    }
}

// A user calls a canister.
fn called(alloc: Global, world: World, number: u64) -> Option<World> {
    let few = world.parts().requests.len() < 1_048_576;
    if !few {
        return None;
    }
    let method = Text {
        items: String::new(alloc),
    };
    let arg = Bytes {
        items: Vec::new(alloc),
    };
    world
        .submit(
            Principal::canister_id(64),
            Principal::canister_id(number),
            method,
            arg,
        )
        .ok()
}

/// That many canisters, each of which has a message.
pub fn busy(alloc: Global, canisters: u64) -> Option<World> {
    let mut world = World::new(alloc);
    for number in 0..canisters {
        match with_one_more(alloc, world) {
            Some(more) => world = called(alloc, more, number)?,
            None => return None,
        }
    }
    Some(world)
}

// Puts a canister and its message into their places.
fn slot_of(alloc: Global, key: Principal, canister: Canister, message: Message) -> Option<Slot>
    ensures { IfSome result (λ s. s ≡ record { key = key; canister = canister; message = message }) }
{
    let canister = CanisterPlace::new(alloc, canister).ok()?;
    let message = Held::new(alloc, message).ok()?;
    Some(Slot {
        key,
        canister,
        message,
    })
}

fn slot(alloc: Global, number: u32) -> Option<Slot>
    ensures { IfSome result IsReady }
{
    let canister = empty_canister(alloc, number as u64)?;
    let key = Principal::canister_id(number as u64);
    let message = Message::Call {
        origin: Origin::Ingress(number),
        sender: Principal::canister_id(64),
        callee: key,
        method: Text {
            items: String::new(alloc),
        },
        arg: Bytes {
            items: Vec::new(alloc),
        },
        cycles: 0,
    };
    slot_of(alloc, key, canister, message)
}

/// The slots of that many canisters, each of which has a message.
pub fn slots(alloc: Global, canisters: u32) -> Option<Vec<Slot>>
    requires { canisters ≤ 64 }
    ensures ready { IfSome result (λ v. AllByRecursion IsReady v.items) }
    ensures few { IfSome result (λ v. vec_len v ≤ 64) }
{
    let mut slots = Vec::with_capacity(alloc, canisters as usize).ok()?;
    for number in 0..canisters {
        slots.push_reserved(slot(alloc, number)?);
    }
    Some(slots)
}
