ghost use Rattle.std.specs.Prelude.{◌≡◌, ◌+◌, ◌-◌, ◌<◌, ◌≤◌, ◌^◌, [], ◌∷◌, length, nat_le, IfOk};
ghost use Rattle.std.specs.List.Sorted.{IsStrictlySortedBy};
ghost use Rattle.std.specs.BTreeMap.{insert_entry};
ghost use Rattle.std.specs.Ordering.{nat_cmp};
ghost use Rattle.std.specs.Cmp.Lexicographic.{slice_cmp};
ghost use Rattle.ic_principal.specs.CanisterId.{canister_id_of};
ghost use Rattle.ic_state.specs.Seen.{state_of};
ghost use Rattle.ic_mgmt_candid.specs.declared.denial.Denial.TheVariants as denial;
ghost use Rattle.ic_mgmt_candid.specs.Checks.{Meets, unless};
ghost use Rattle.ic_mgmt_laws.specs.Rows.{controllers_or, unless_full, next_canister, creates, provisional_creates};
ghost use Rattle.ic_mgmt.specs.Taken.{AreCanisters, HoldsCycles};
ghost use Rattle.ic_mgmt.specs.Ending.{IfMemory, Does, Keeps};

use crate::ending::{Ending, replied};
use crate::settings::listed;
use ic_base::NoMemory;
use ic_mgmt_candid::{Denial, Unmet, canister_reply, unless};
use ic_principal::Principal;
use ic_state::{Canister, CanisterPlace, Controllers, IncomingCall, Parts, Response};
use std::alloc::Global;

const MOST_CANISTERS: usize = 64;

// The most cycles that are ever created: 2^127 - 1.
const MOST_CYCLES: u128 = u128::MAX / 2;

// The controllers that are named, or else the sender alone.
fn first_controllers(
    alloc: Global,
    sender: Principal,
    named: Option<Controllers>,
) -> Result<Controllers, Unmet>
    ensures value { Meets result (controllers_or (sender ∷ []) named) }
    ensures few { IfOk result (λ list. length list ≤ 10) }
    ensures rising { IfOk result (IsStrictlySortedBy (slice_cmp nat_cmp)) }
{
    match named {
        Some(named) => listed(alloc, &named),
        None => Ok(Controllers {
            items: Vec::from_slice(alloc, &[sender])?,
        }),
    }
}

// A canister more may be made.
fn unless_full(parts: &Parts) -> Result<(), Denial>
    ensures { result ≡ unless_full (state_of parts.now) }
{
    let room = parts.canisters.len() < MOST_CANISTERS && parts.next_canister < u64::MAX;
    unless(room, Denial::TooManyCanisters)
}

/// That many cycles more may be created.
pub fn unless_above(created: u128, amount: u128) -> Result<(), Denial>
    ensures { result ≡ unless (nat_le (created + amount) (2 ^ 127 - 1)) denial.TooManyCycles }
{
    let room = amount <= MOST_CYCLES && created <= MOST_CYCLES - amount;
    unless(room, Denial::TooManyCycles)
}

// The next canister, running and without code. Gives its id.
fn add(
    alloc: Global,
    parts: &mut Parts,
    controllers: Controllers,
    balance: u128,
) -> Result<Principal, NoMemory>
    requires few { length controllers ≤ 10 }
    requires rising { IsStrictlySortedBy (slice_cmp nat_cmp) controllers }
    requires balance { balance ≤ 2 ^ 127 - 1 }
    requires counter { parts.old.next_canister < 2 ^ 64 - 1 }
    requires canisters { AreCanisters parts.old }
    ensures id { IfOk result (λ id. id ≡ canister_id_of parts.old.next_canister) }
    ensures made { IfOk result (λ id. state_of parts.new ≡ record (state_of parts.old) {
      canisters = insert_entry (slice_cmp nat_cmp) (state_of parts.old).canisters id (next_canister (state_of parts.old) controllers balance);
      next_canister = parts.old.next_canister + 1;
    }) }
    ensures keeps { IfOk result (λ _. Keeps parts.old parts.new) }
{
    let id = Principal::canister_id(parts.next_canister);
    let canister = Canister::new(alloc, id, controllers, balance)?;
    let place = CanisterPlace::new(alloc, canister)?;
    parts.canisters.insert(id, place)?;
    parts.next_canister += 1;
    Ok(id)
}

/// Makes a canister whose balance is the call's cycles (IC Interface Specification, "IC method
/// create_canister").
pub fn create(
    alloc: Global,
    parts: &mut Parts,
    call: &IncomingCall,
    named: Option<Controllers>,
) -> Result<Ending, Unmet>
    requires holds { HoldsCycles parts.old call.now.cycles }
    ensures does { Does result call.now (state_of parts.old) (state_of parts.new)
        (creates (state_of parts.old) call.now named) }
    ensures keeps { IfMemory result (Keeps parts.old parts.new) }
{
    let controllers = first_controllers(alloc, call.sender, named)?;
    unless_full(parts)?;
    let id = add(alloc, parts, controllers, call.cycles)?;
    let told = canister_reply(alloc, id)?;
    Ok(replied(alloc, Response::Reply(told), 0))
}

/// Makes a canister whose balance is created (IC Interface Specification, "IC method
/// provisional_create_canister_with_cycles").
pub fn provisional_create(
    alloc: Global,
    parts: &mut Parts,
    call: &IncomingCall,
    amount: u128,
    named: Option<Controllers>,
) -> Result<Ending, Unmet>
    requires holds { HoldsCycles parts.old call.now.cycles }
    ensures does { Does result call.now (state_of parts.old) (state_of parts.new)
        (provisional_creates (state_of parts.old) call.now amount named) }
    ensures keeps { IfMemory result (Keeps parts.old parts.new) }
{
    let controllers = first_controllers(alloc, call.sender, named)?;
    unless_full(parts)?;
    unless_above(parts.created, amount)?;
    let id = add(alloc, parts, controllers, amount)?;
    parts.created += amount;
    let told = canister_reply(alloc, id)?;
    Ok(replied(alloc, Response::Reply(told), call.cycles))
}
