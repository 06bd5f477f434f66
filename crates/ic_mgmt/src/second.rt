ghost use Rattle.std.specs.Prelude.{◌≡◌, ◌<◌, ◌≤◌, ◌^◌, ℕ, [], length, IfOk};
ghost use Rattle.std.specs.List.{list_all};
ghost use Rattle.ic_state.specs.IsWorld.{IsWorld};
ghost use Rattle.ic_behaviour.specs.Steps.{along};
ghost use Rattle.ic_behaviour.specs.Round.{second_phase};
ghost use Rattle.ic_mgmt_laws.specs.Managed.{managed_rules};
ghost use Rattle.ic_mgmt.specs.Sweeping.{is_inside, Reaches};

use crate::parts::{put_together, taken_apart};
use crate::sweep::Sweep;
use ic_base::NoMemory;
use ic_calls::callee;
use ic_principal::Principal;
use ic_state::{CanisterPlace, MOST_INSTRUCTIONS, Message, Parts, World};
use std::alloc::Global;
use std::collections::BTreeMap;

fn is_inside(canisters: &BTreeMap<Principal, CanisterPlace>, message: &Message) -> bool
    ensures { result ≡ is_inside canisters.now.entries message.now }
{
    match message {
        Message::Call { callee, .. } => canisters.contains_key(callee),
        Message::Answer { .. } => canisters.contains_key(&callee(message)),
    }
}

// Whether each message is to a canister.
fn all_inside(parts: &Parts) -> bool
    ensures { result ≡ list_all (is_inside parts.now.canisters.entries) parts.now.messages }
{
    let canisters = &parts.canisters;
    parts
        .messages
        .items
        .iter()
        .all(|message| is_inside(canisters, message))
}

// Goes past all messages.
fn all_met(alloc: Global, parts: Parts, limit: u64) -> Result<Sweep, NoMemory>
    requires keeps { IsWorld parts }
    ensures reaches { IfOk result (λ w. Reaches limit parts w.kept [] w.rest w.handled) }
    ensures few { IfOk result (λ w. w.handled < 2 ^ 63) }
{
    let (rest, messages) = taken_apart(alloc, parts);
    let mut sweep = Sweep::start(alloc, rest);
    for message in messages.items {
        sweep = sweep.meet(alloc, message, limit)?;
    }
    Ok(sweep)
}

// The second phase in one pass, which makes the list anew.
fn swept(alloc: Global, world: World, limit: u64) -> Result<(World, u64), NoMemory>
    ensures state { IfOk result (λ r. (price : ℕ)
        → r.0 ≡ along (managed_rules limit price) world (second_phase (managed_rules limit price) world)) }
    ensures handled { IfOk result (λ r. (price : ℕ)
        → r.1 ≡ length (second_phase (managed_rules limit price) world)) }
    ensures few { IfOk result (λ r. r.1 < 2 ^ 63) }
{
    let Sweep {
        kept,
        rest,
        handled,
        ..
    } = all_met(alloc, world.open(), limit)?;
    let parts = put_together(kept, rest)?;
    Ok((World::seal(parts), handled))
}

/// The second phase of a round: down the list as it then is, each message is handled whose callee is no
/// canister, unless one of its sender to its callee stays before it. Calls to the management canister
/// are among these, and may make canisters and remove them, so that a later message has a callee or
/// has none. Messages that are made in it wait for a later round. Gives the number of messages that
/// were handled. Nothing is charged, whatever an instruction costs. `limit` is the most instructions
/// that one execution, or one installation, may use.
pub fn outside_turns(alloc: Global, world: World, limit: u64) -> Result<(World, u64), NoMemory>
    requires limit { limit ≤ MOST_INSTRUCTIONS }
    ensures state { IfOk result (λ r. (price : ℕ)
        → r.0 ≡ along (managed_rules limit price) world (second_phase (managed_rules limit price) world)) }
    ensures handled { IfOk result (λ r. (price : ℕ)
        → r.1 ≡ length (second_phase (managed_rules limit price) world)) }
    ensures few { IfOk result (λ r. r.1 < 2 ^ 63) }
{
    let idle = all_inside(world.parts());
    if idle {
        Ok((world, 0))
    } else {
        swept(alloc, world, limit)
    }
}
