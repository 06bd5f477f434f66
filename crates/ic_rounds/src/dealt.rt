ghost use Rattle.std.specs.Prelude.{◌≡◌, true, [], IfOk, OnOk};
ghost use Rattle.std.specs.List.{fold};
ghost use Rattle.std.specs.Map.{keys_of};
ghost use Rattle.ic_rounds.specs.Dealing.{deal, none_dealt};

use crate::slot::Slot;
use ic_base::NoMemory;
use ic_held::Held;
use ic_principal::Principal;
use ic_state::CanisterPlace;
use std::alloc::Global;
use std::collections::BTreeMap;
use std::marker::Model;

/// The canisters that have no slot, and the slots.
#[derive(Drop)]
pub struct Dealt {
    canisters: BTreeMap<Principal, CanisterPlace>,
    slots: Vec<Slot>,
}

impl Model for Dealt {
    ghost use Rattle.ic_rounds.specs.Dealing.{Dealing};

    ghost Value = { Dealing };

    ghost view = { λ w. record { canisters = w.canisters.entries; slots = w.slots.items } };
}

impl Dealt {
    // With room for this many slots, which are large.
    fn new(
        alloc: Global,
        canisters: BTreeMap<Principal, CanisterPlace>,
        count: usize,
    ) -> Result<Dealt, NoMemory>
        ensures { IfOk result (λ w. w ≡ none_dealt canisters.entries) }
    {
        let slots = Vec::with_capacity(alloc, count)?;
        Ok(Dealt { canisters, slots })
    }

    /// The canisters that have no slot, and the slots in rising order of their canisters.
    pub fn open(self) -> (BTreeMap<Principal, CanisterPlace>, Vec<Slot>)
        ensures canisters { result.0.entries ≡ self.canisters }
        ensures slots { result.1.items ≡ self.slots }
    {
        let Dealt { canisters, slots } = self;
        (canisters, slots)
    }

    // Puts a canister into a slot, with its first message.
    fn deal(&mut self, key: Principal, message: Held) -> Result<(), NoMemory>
        ensures { OnOk result (self.new ≡ deal self.old (key, message)) }
    {
        if let Some(canister) = self.canisters.remove(&key) {
            self.slots.reserve(1)?;
            self.slots.push_reserved(Slot {
                key,
                canister,
                message,
            });
        }
        Ok(())
    }
}

// Whether there is a first message to each canister, and no other.
fn are_all(canisters: &BTreeMap<Principal, CanisterPlace>, firsts: &[(Principal, Held)]) -> bool
    ensures { result ≡ true → keys_of firsts.now ≡ keys_of canisters.now.entries }
{
    canisters.len() == firsts.len()
        && canisters
            .keys()
            .zip(firsts)
            .all(|(key, first)| *key == first.0)
}

// Puts each canister into a slot, with its first message. The map is taken apart in one pass.
fn all_dealt(
    alloc: Global,
    canisters: BTreeMap<Principal, CanisterPlace>,
    firsts: Vec<(Principal, Held)>,
) -> Result<Dealt, NoMemory>
    requires all { keys_of firsts.items ≡ keys_of canisters.entries }
    ensures { IfOk result (λ w. w ≡ fold deal (none_dealt canisters.entries) firsts.items) }
{
    let mut slots = Vec::with_capacity(alloc, firsts.len())?;
    for ((_, canister), (key, message)) in canisters.into_iter().zip(firsts) {
        slots.push_reserved(Slot {
            key,
            canister,
            message,
        });
    }
    Ok(Dealt {
        canisters: BTreeMap::new(alloc),
        slots,
    })
}

/// Puts the canisters that have a first message into slots, in rising order.
pub fn deal_out(
    alloc: Global,
    canisters: BTreeMap<Principal, CanisterPlace>,
    firsts: Vec<(Principal, Held)>,
) -> Result<Dealt, NoMemory>
    ensures { IfOk result (λ w. w ≡ fold deal (none_dealt canisters.entries) firsts.items) }
{
    if are_all(&canisters, firsts.as_slice()) {
        return all_dealt(alloc, canisters, firsts);
    }
    let mut dealt = Dealt::new(alloc, canisters, firsts.len())?;
    for (key, message) in firsts {
        dealt.deal(key, message)?;
    }
    Ok(dealt)
}
