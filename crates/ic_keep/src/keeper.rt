ghost use Rattle.std.specs.Prelude.{◌≡◌, ◌↔◌, ℕ, ◌<◌, [], List, map, length, take, drop, IfOk, IfSome, IsTrue};
ghost use Rattle.std.specs.List.{AllByRecursion};
ghost use Rattle.std.specs.Option.{option_map};
ghost use Rattle.ic_behaviour.specs.Counted.{dropped};
ghost use Rattle.ic_state.specs.declared.canister.Canister.{Canister as StoredCanister};
ghost use Rattle.ic_state.specs.Seen.{code_of, seen};
ghost use Rattle.ic_state.specs.IsCanister.{FitsCode};
ghost use Rattle.ic_exact.specs.Ranges.{AreNumbers, bytes_of};
ghost use Rattle.ic_order.specs.Order.{SameState};
ghost use Rattle.ic_keep.specs.declared.parts.KeptCanister.{KeptCanister as ACanister};
ghost use Rattle.ic_keep.specs.Kept.{KeptState, canister_at, code_at, entry_at, lists_at, state_at};
ghost use Rattle.ic_keep.specs.IsKept.{ArePages, AreTables, Grows, HasCodes, IsKept, IsStored};
ghost use Rattle.ic_keep.specs.Key.{key_of, with_canister, with_canisters};

use crate::codes::Codes;
use crate::kept::Kept;
use crate::key::{with_memory, with_words};
use crate::messages::KeptMessages;
use crate::parts::{KeptCanister, KeptStore};
use ic_base::NoMemory;
use ic_exact::{Entries, Exact, Ranges, Same, Shared, Words, shared_items};
use ic_order::same_states_are_alike;
use ic_principal::Principal;
use ic_state::{Canister, CanisterPlace, CodePlace, Messages, World};
use std::alloc::Global;
use std::collections::BTreeMap;
use std::marker::Model;
use wm_store::Store;

/// Keeps states. Contracts see the tables of what states share.
pub struct Keeper {
    pub(crate) ranges: Ranges,
    pub(crate) codes: Codes,
}

impl Model for Keeper {
    ghost use Rattle.ic_keep.specs.Kept.{Tables};

    ghost Value = { Tables };

    ghost view = { λ k. record { ranges = k.ranges; codes = k.codes } };
}

impl Drop for Keeper {
    fn drop(self) {
        let Keeper {
            ranges: _ranges,
            codes: _codes,
        } = self;
    }
}

// Messages in places, those of the places near where they have them.
fn kept_messages(
    alloc: Global,
    messages: &Messages,
    near: &KeptMessages,
) -> Result<KeptMessages, NoMemory>
    ensures { IfOk result (λ kept. kept ≡ messages.now) }
{
    let items = shared_items(alloc, messages.items.as_slice(), near.as_slice())?;
    KeptMessages::new(alloc, items)
}

impl Keeper {
    /// It keeps nothing yet, and takes no memory.
    pub fn new(alloc: Global) -> Keeper
        ensures { result ≡ record { ranges = []; codes = [] } }
    {
        Keeper {
            ranges: Ranges::new(alloc),
            codes: Codes::new(alloc),
        }
    }

    /// Nothing happens. Tells callers that what states share is kept once.
    pub fn are_tables(&self)
        ensures { AreTables self.now }
    {
        self.ranges.are_distinct();
        self.codes.are_distinct();
    }

    /// Keeps a state. What it has alike with the state near is not kept again. Codes are compared, unless
    /// they are known to be those of the state near.
    pub fn keep(
        &mut self,
        alloc: Global,
        world: &World,
        near: &Kept,
        same_codes: bool,
    ) -> Result<Kept, NoMemory>
        requires codes { IsTrue same_codes → HasCodes self.old near.now world.now }
        ensures grows { Grows self.old self.new }
        ensures kept { IfOk result (IsKept self.new) }
        ensures state { IfOk result (λ k. state_at self.new k ≡ world.now) }
    {
        let parts = world.parts();
        let canisters = self.keep_canisters(
            alloc,
            &parts.canisters,
            near.canisters.as_slice(),
            same_codes,
        )?;
        Ok(Kept {
            canisters,
            messages: kept_messages(alloc, &parts.messages, &near.messages)?,
            requests: shared_items(
                alloc,
                parts.requests.items.as_slice(),
                near.requests.as_slice(),
            )?,
            time: parts.time,
            created: parts.created,
            burned: parts.burned,
            next_canister: parts.next_canister,
        })
    }

    /// A number by which the state is looked up.
    pub fn key(&self, kept: &Kept) -> u64
        requires { IsKept self.now kept.now }
        ensures { result ≡ key_of (state_at self.now kept.now) }
    {
        self.with_canisters(kept.key_without_canisters(), kept.canisters.as_slice())
    }

    // The key that is made of this one and of what canisters have stored.
    fn with_canisters(&self, key: u64, canisters: &[Shared<KeptCanister>]) -> u64
        requires { AllByRecursion (IsStored self.now) canisters.now }
        ensures { result ≡ with_canisters key (map (entry_at self.now) canisters.now) }
    {
        let mut key = key;
        for canister in canisters {
            key = self.with_canister(key, canister.get());
        }
        key
    }

    // The same of one canister.
    fn with_canister(&self, key: u64, kept: &KeptCanister) -> u64
        requires { IsStored self.now kept.now }
        ensures { result ≡ with_canister key (dropped (canister_at self.now kept.now)) }
    {
        let memory = kept.store.memory.items.as_slice();
        let stable = kept.store.stable.items.as_slice();
        let key = with_memory(&self.ranges, key, memory);
        let key = with_memory(&self.ranges, key, stable);
        with_words(key, kept.store.globals.items.as_slice())
    }

    /// Whether two kept states are the same.
    pub fn same(&self, a: &Kept, b: &Kept) -> bool
        requires first { IsKept self.now a.now }
        requires second { IsKept self.now b.now }
        ensures { IsTrue result ↔ (state_at self.now a.now ≡ state_at self.now b.now) }
    {
        self.are_tables();
        a.same(b)
    }

    /// Whether two kept states are the same up to the order of messages that go different ways.
    pub fn same_state(&self, a: &Kept, b: &Kept) -> bool
        requires first { IsKept self.now a.now }
        requires second { IsKept self.now b.now }
        ensures { IsTrue result ↔ SameState (state_at self.now a.now) (state_at self.now b.now) }
    {
        self.are_tables();
        same_states_are_alike();
        a.has_same_rest(b) && a.messages.has_same_ways(&b.messages)
    }

    fn keep_canisters(
        &mut self,
        alloc: Global,
        canisters: &BTreeMap<Principal, CanisterPlace>,
        near: &[Shared<KeptCanister>],
        same_codes: bool,
    ) -> Result<Vec<Shared<KeptCanister>>, NoMemory>
        requires fits { AllByRecursion (λ (e : List ℕ × StoredCanister). FitsCode e.1.code e.1.store.lists) canisters.now.entries }
        requires stored { IsTrue same_codes → AllByRecursion (IsStored self.old) near.now }
        requires codes { IsTrue same_codes → map (λ (c : ACanister). code_at self.old.codes c.code) near.now
            ≡ map (λ (e : List ℕ × StoredCanister). option_map code_of e.1.code) canisters.now.entries }
        ensures grows { Grows self.old self.new }
        ensures stored { IfOk result (λ kept. AllByRecursion (IsStored self.new) kept.items) }
        ensures canisters { IfOk result (λ kept. map (canister_at self.new) kept.items
            ≡ map (λ (e : List ℕ × StoredCanister). seen e.1) canisters.now.entries) }
    {
        let mut kept = Vec::with_capacity(alloc, canisters.len())?;
        let mut near = near;
        for (_, canister) in canisters {
            let (place, others) = self.keep_next(alloc, canister.get(), near, same_codes)?;
            kept.push(place)?;
            near = others;
        }
        Ok(kept)
    }

    // Keeps a canister that is near the first of these, and gives the others.
    fn keep_next<'a>(
        &mut self,
        alloc: Global,
        canister: &Canister,
        near: &'a [Shared<KeptCanister>],
        same_codes: bool,
    ) -> Result<(Shared<KeptCanister>, &'a [Shared<KeptCanister>]), NoMemory>
        requires fits { FitsCode canister.now.code canister.now.store.lists }
        requires stored { IsTrue same_codes → AllByRecursion (IsStored self.old) near.now }
        requires codes { IsTrue same_codes → AllByRecursion (λ (c : ACanister). code_at self.old.codes c.code ≡ option_map code_of canister.now.code) (take 1 near.now) }
        ensures grows { Grows self.old self.new }
        ensures stored { IfOk result (λ r. IsStored self.new r.0) }
        ensures canister { IfOk result (λ r. canister_at self.new r.0 ≡ seen canister.now) }
        ensures others { IfOk result (λ r. r.1.now ≡ drop 1 near.now) }
    {
        match near.split_first() {
            Some((first, others)) => {
                let kept = self.keep_canister(alloc, canister, Some(first.get()), same_codes)?;
                if first.get().same(&kept) {
                    Ok((first.share()?, others))
                } else {
                    Ok((Shared::new(alloc, kept)?, others))
                }
            }
            None => {
                let kept = self.keep_canister(alloc, canister, None, false)?;
                Ok((Shared::new(alloc, kept)?, near))
            }
        }
    }

    fn keep_canister(
        &mut self,
        alloc: Global,
        canister: &Canister,
        near: Option<&KeptCanister>,
        same_code: bool,
    ) -> Result<KeptCanister, NoMemory>
        requires fits { FitsCode canister.now.code canister.now.store.lists }
        requires code { IsTrue same_code → IfSome near (λ c. IsStored self.old c.now × (code_at self.old.codes c.now.code ≡ option_map code_of canister.now.code)) }
        ensures grows { Grows self.old self.new }
        ensures stored { IfOk result (IsStored self.new) }
        ensures canister { IfOk result (λ c. canister_at self.new c ≡ seen canister.now) }
    {
        let code = self.code_number(&canister.code, near, same_code)?;
        let store = self.keep_store(alloc, canister.store.get(), near)?;
        Ok(KeptCanister {
            id: canister.id,
            controllers: canister.controllers.copy(alloc)?,
            balance: canister.balance,
            code,
            store,
            certified: Exact::copy(&canister.certified, alloc)?,
            contexts: canister.contexts.copy(alloc)?,
            phase: canister.phase.copy(alloc)?,
            next_call: canister.next_call,
            outstanding: canister.outstanding,
        })
    }

    // The number of a code, which is that of the canister near where it is known to be its code.
    fn code_number(
        &mut self,
        code: &Option<CodePlace>,
        near: Option<&KeptCanister>,
        same_code: bool,
    ) -> Result<Option<u32>, NoMemory>
        requires { IsTrue same_code → IfSome near (λ c. IsStored self.old c.now × (code_at self.old.codes c.now.code ≡ option_map code_of code.now)) }
        ensures grows { Grows self.old self.new }
        ensures number { IfOk result (λ number. IfSome number (λ n. n < length self.new.codes)) }
        ensures code { IfOk result (λ number. code_at self.new.codes number ≡ option_map code_of code.now) }
    {
        if let Some(near) = near {
            if same_code {
                return Ok(near.code);
            }
        }
        self.keep_code(code)
    }

    fn keep_code(&mut self, code: &Option<CodePlace>) -> Result<Option<u32>, NoMemory>
        ensures grows { Grows self.old self.new }
        ensures number { IfOk result (λ number. IfSome number (λ n. n < length self.new.codes)) }
        ensures code { IfOk result (λ number. code_at self.new.codes number ≡ option_map code_of code.now) }
    {
        match code {
            Some(code) => Ok(Some(self.codes.keep(code)?)),
            None => Ok(None),
        }
    }

    fn keep_store(
        &mut self,
        alloc: Global,
        store: &Store,
        near: Option<&KeptCanister>,
    ) -> Result<KeptStore, NoMemory>
        ensures grows { Grows self.old self.new }
        ensures codes { self.new.codes ≡ self.old.codes }
        ensures memory { IfOk result (λ kept. AreNumbers self.new.ranges kept.memory × (bytes_of self.new.ranges kept.memory ≡ store.now.lists.memory)) }
        ensures stable { IfOk result (λ kept. AreNumbers self.new.ranges kept.stable × (bytes_of self.new.ranges kept.stable ≡ store.now.lists.stable)) }
        ensures pages { ArePages 256 store.now.lists.stable }
        ensures globals { IfOk result (λ kept. kept.globals ≡ store.now.lists.globals) }
        ensures table { IfOk result (λ kept. kept.table ≡ store.now.lists.table) }
    {
        let (memory, stable): (&[u32], &[u32]) = match near {
            Some(near) => (
                near.store.memory.items.as_slice(),
                near.store.stable.items.as_slice(),
            ),
            None => (&[], &[]),
        };
        let _pages = store.pages();
        let _stable_pages = store.stable_pages();
        let memory = self.ranges.keep(alloc, store.memory(), memory)?;
        let stable = self.ranges.keep(alloc, store.stable(), stable)?;
        Ok(KeptStore {
            memory,
            globals: Words {
                items: Vec::from_slice(alloc, store.globals())?,
            },
            table: Entries {
                items: Vec::from_slice(alloc, store.table())?,
            },
            stable,
        })
    }
}
