ghost use Rattle.std.specs.Prelude.{◌≡◌, ◌+◌, ◌-◌, ◌≤◌, ◌^◌, [], length, Some, IfOk, OnErr, option_map};
ghost use Rattle.std.specs.List.{fold};
ghost use Rattle.std.specs.List.Sorted.{IsStrictlySortedBy};
ghost use Rattle.std.specs.BTreeSet.{insert_key};
ghost use Rattle.std.specs.Ordering.{nat_cmp};
ghost use Rattle.std.specs.Cmp.Lexicographic.{slice_cmp};
ghost use Rattle.ic_state.specs.declared.canister.Code.{Code as StoredCode};
ghost use Rattle.ic_state.specs.IsCanister.{IsCanister, cycles_of};
ghost use Rattle.ic_mgmt_candid.specs.Checks.{Meets, MeetsBy};
ghost use Rattle.ic_mgmt_candid.specs.Replies.{memory_size};
ghost use Rattle.ic_mgmt_laws.specs.Rows.{controllers_or, deposits, updates, tells};
ghost use Rattle.ic_mgmt.specs.Ending.{IfMemory};
ghost use Rattle.ic_mgmt.specs.Changes.{DoesAt, KeepsCounts};

use crate::ending::{Ending, done, replied};
use ic_base::NoMemory;
use ic_mgmt_candid::{Denial, Unmet, status_reply, unless};
use ic_principal::Principal;
use ic_state::{Canister, Controllers, IncomingCall, Response, StorePlace};
use std::alloc::Global;
use std::collections::BTreeSet;

const MOST_CONTROLLERS: usize = 10;

const PAGE: u64 = 65536;

// The principals as a set.
fn set_of(alloc: Global, ids: &[Principal]) -> Result<BTreeSet<Principal>, NoMemory>
    ensures keys { IfOk result (λ set. set.keys ≡ fold (insert_key (slice_cmp nat_cmp)) [] ids.now) }
    ensures few { IfOk result (λ set. length set.keys ≤ length ids.now) }
{
    let mut set = BTreeSet::new(alloc);
    for id in ids {
        set.insert(*id)?;
    }
    Ok(set)
}

// The principals of a set, in rising order.
fn list_of(alloc: Global, set: BTreeSet<Principal>) -> Result<Controllers, NoMemory>
    ensures keys { IfOk result (λ list. list ≡ set.keys) }
    ensures rising { IfOk result (IsStrictlySortedBy (slice_cmp nat_cmp)) }
{
    let mut items = Vec::with_capacity(alloc, set.len())?;
    for id in set {
        items.push(id)?;
    }
    Ok(Controllers { items })
}

/// The controllers that are named: at most ten are listed, and they are kept in rising order, each
/// once.
pub fn listed(alloc: Global, named: &Controllers) -> Result<Controllers, Unmet>
    ensures value { Meets result (controllers_or [] (Some named.now)) }
    ensures few { IfOk result (λ list. length list ≤ 10) }
    ensures rising { IfOk result (IsStrictlySortedBy (slice_cmp nat_cmp)) }
{
    let few = named.items.len() <= MOST_CONTROLLERS;
    unless(few, Denial::TooManyControllers)?;
    let set = set_of(alloc, named.items.as_slice())?;
    Ok(list_of(alloc, set)?)
}

// The canister has the controllers that are named, if any are.
fn set_controllers(
    alloc: Global,
    canister: &mut Canister,
    named: Option<Controllers>,
) -> Result<(), Unmet>
    requires keeps { IsCanister canister.old }
    ensures set { MeetsBy (λ _. canister.new.controllers) result (controllers_or canister.old.controllers named) }
    ensures rest { canister.new ≡ record canister.old { controllers = canister.new.controllers } }
    ensures same { OnErr result (canister.new ≡ canister.old) }
    ensures keeps { IsCanister canister.new }
{
    let Some(named) = named else {
        return Ok(());
    };
    let controllers = listed(alloc, &named)?;
    canister.controllers = controllers;
    Ok(())
}

/// Changes the controllers (IC Interface Specification, "IC method update_settings").
pub fn update_settings(
    alloc: Global,
    canister: &mut Canister,
    id: Principal,
    call: &IncomingCall,
    named: Option<Controllers>,
) -> Result<Ending, Unmet>
    requires keeps { IsCanister canister.old }
    ensures does { DoesAt result call.now id canister.old canister.new
        (λ now s. updates s call.now id named) }
    ensures counts { IfMemory result (KeepsCounts id canister.old canister.new) }
    ensures keeps { IfMemory result (IsCanister canister.new) }
{
    set_controllers(alloc, canister, named)?;
    Ok(done(alloc, call.cycles)?)
}

/// The call's cycles go to the balance (IC Interface Specification, "IC method deposit_cycles").
pub fn deposit(
    alloc: Global,
    canister: &mut Canister,
    id: Principal,
    call: &IncomingCall,
) -> Result<Ending, Unmet>
    requires keeps { IsCanister canister.old }
    requires room { cycles_of canister.old + call.now.cycles ≤ 2 ^ 127 - 1 }
    ensures does { DoesAt result call.now id canister.old canister.new
        (λ now s c. Ok (deposits s call.now id c)) }
    ensures counts { IfMemory result (KeepsCounts id canister.old canister.new) }
    ensures keeps { IfMemory result (IsCanister canister.new) }
{
    let ending = done(alloc, 0)?;
    canister.balance += call.cycles;
    Ok(ending)
}

fn module_hash(canister: &Canister) -> Option<[u8; 32]>
    ensures { result ≡ option_map (λ (code : StoredCode). code.hash) canister.now.code }
{
    match &canister.code {
        Some(code) => Some(code.get().hash),
        None => None,
    }
}

// The bytes of both memories.
fn memory_size(store: &StorePlace) -> u64
    ensures { result ≡ memory_size store.now.lists }
{
    let store = store.get();
    let pages = u64::from(store.pages()) + u64::from(store.stable_pages());
    PAGE * pages
}

/// Tells of the canister (IC Interface Specification, "IC method canister_status").
pub fn status(
    alloc: Global,
    canister: &mut Canister,
    id: Principal,
    call: &IncomingCall,
) -> Result<Ending, Unmet>
    requires keeps { IsCanister canister.old }
    ensures does { DoesAt result call.now id canister.old canister.new
        (λ now s c. Ok (tells s call.now c)) }
    ensures counts { IfMemory result (KeepsCounts id canister.old canister.new) }
    ensures keeps { IfMemory result (IsCanister canister.new) }
{
    let hash = module_hash(canister);
    let memory = memory_size(&canister.store);
    let told = status_reply(
        alloc,
        &canister.phase,
        &canister.controllers,
        hash,
        memory,
        canister.balance,
    )?;
    Ok(replied(alloc, Response::Reply(told), call.cycles))
}
