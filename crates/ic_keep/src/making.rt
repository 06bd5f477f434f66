ghost use Rattle.std.specs.Prelude.{◌≡◌, ℕ, ◌<◌, List, Some, None, map, length, replicate, IfOk, IfSome};
ghost use Rattle.std.specs.List.{AllByRecursion};
ghost use Rattle.std.specs.List.Sorted.{IsStrictlySortedBy};
ghost use Rattle.std.specs.Option.{option_map};
ghost use Rattle.std.specs.Ordering.{nat_cmp};
ghost use Rattle.std.specs.Cmp.Lexicographic.{slice_cmp};
ghost use Rattle.wm_store.specs.Lists.{page_limit};
ghost use Rattle.wm_store.specs.Fits.{maximum_of};
ghost use Rattle.ic_state.specs.declared.canister.Canister.{Canister as StoredCanister};
ghost use Rattle.ic_state.specs.Seen.{code_of, seen};
ghost use Rattle.ic_exact.specs.Ranges.{AreNumbers, bytes_of};
ghost use Rattle.ic_keep.specs.declared.parts.KeptCanister.{KeptCanister as ACanister};
ghost use Rattle.ic_keep.specs.Kept.{canister_at, code_at, counted_at, declared_maximum, seen_entry, state_at};
ghost use Rattle.ic_keep.specs.IsKept.{ArePages, IsKept, IsStored};

use crate::keeper::Keeper;
use crate::kept::Kept;
use crate::parts::KeptCanister;
use ic_base::NoMemory;
use ic_exact::{Exact, Shared, unshared};
use ic_principal::Principal;
use ic_state::{Canister, CanisterPlace, CodePlace, Messages, Parts, Requests, StorePlace, World};
use std::alloc::Global;
use std::collections::BTreeMap;
use wm_pages::PAGE;
use wm_store::Store;

/// The store of a canister without a message under way.
#[derive(Drop)]
struct StoreParts<'a> {
    memory: &'a [u8],
    maximum: Option<u32>,
    globals: &'a [u64],
    table: &'a [Option<u32>],
    stable: &'a [u8],
}

fn make_store(alloc: Global, parts: &StoreParts<'_>) -> Result<Store, NoMemory>
    requires memory { ArePages (page_limit parts.now.maximum) parts.now.memory.now }
    requires stable { ArePages 256 parts.now.stable.now }
    ensures begun { IfOk result (λ s. s.begun ≡ None) }
    ensures lists { IfOk result (λ s. s.lists ≡ record {
      memory = parts.now.memory.now;
      maximum = parts.now.maximum;
      globals = parts.now.globals.now;
      table = parts.now.table.now;
      stable = parts.now.stable.now;
    }) }
{
    let pages = (parts.memory.len() / PAGE) as u32;
    let globals = Vec::from_slice(alloc, parts.globals)?;
    let table = Vec::from_slice(alloc, parts.table)?;
    let mut store = Store::make(alloc, pages, parts.maximum, globals, table)?;
    store.copy_into(0, parts.memory)?;
    store.stable_grow((parts.stable.len() / PAGE) as u64)?;
    store.stable_write(0, parts.stable)?;
    Ok(store)
}

// The maximum that the code declares of its memory.
fn maximum_in(code: &Option<CodePlace>) -> Option<u32>
    ensures { result ≡ declared_maximum (option_map code_of code.now) }
{
    let Some(code) = code else {
        return None;
    };
    match code.get().valid.module().memories.items.first() {
        Some(limits) => limits.max,
        None => None,
    }
}

impl Keeper {
    /// The world that is kept.
    pub fn make(&self, alloc: Global, kept: &Kept) -> Result<World, NoMemory>
        requires { IsKept self.now kept.now }
        ensures { IfOk result (λ world. world ≡ state_at self.now kept.now) }
    {
        let canisters = self.make_canisters(alloc, kept.canisters.as_slice())?;
        self.seal(alloc, canisters, kept)
    }

    /// The world with these canisters, and what else is kept.
    pub(crate) fn seal(
        &self,
        alloc: Global,
        canisters: BTreeMap<Principal, CanisterPlace>,
        kept: &Kept,
    ) -> Result<World, NoMemory>
        requires kept { IsKept self.now kept.now }
        requires canisters { map seen_entry canisters.entries ≡ map (counted_at self.now) kept.now.canisters }
        requires idle { AllByRecursion (λ (e : List ℕ × StoredCanister). e.1.store.begun ≡ None) canisters.entries }
        ensures { IfOk result (λ world. world ≡ state_at self.now kept.now) }
    {
        let messages = Messages {
            items: unshared(alloc, kept.messages.as_slice())?,
        };
        let requests = Requests {
            items: unshared(alloc, kept.requests.as_slice())?,
        };
        Ok(World::seal(Parts {
            canisters,
            messages,
            requests,
            time: kept.time,
            created: kept.created,
            burned: kept.burned,
            next_canister: kept.next_canister,
        }))
    }

    // The last goes into the map first, so that each one goes to its front.
    pub(crate) fn make_canisters(
        &self,
        alloc: Global,
        kept: &[Shared<KeptCanister>],
    ) -> Result<BTreeMap<Principal, CanisterPlace>, NoMemory>
        requires stored { AllByRecursion (IsStored self.now) kept.now }
        requires rising { IsStrictlySortedBy (slice_cmp nat_cmp) (map (λ (c : ACanister). c.id) kept.now) }
        ensures canisters { IfOk result (λ m. map seen_entry m.entries ≡ map (counted_at self.now) kept.now) }
        ensures begun { IfOk result (λ m. AllByRecursion (λ (e : List ℕ × StoredCanister). e.1.store.begun ≡ None) m.entries) }
    {
        let mut canisters = BTreeMap::new(alloc);
        let mut left = kept.len();
        while left > 0 {
            left -= 1;
            let next = kept[left].get();
            let place = self.place(alloc, next)?;
            canisters.insert(next.id, place)?;
        }
        Ok(canisters)
    }

    /// A canister that is kept, in a place.
    pub(crate) fn place(
        &self,
        alloc: Global,
        kept: &KeptCanister,
    ) -> Result<CanisterPlace, NoMemory>
        requires { IsStored self.now kept.now }
        ensures canister { IfOk result (λ c. seen c ≡ canister_at self.now kept.now) }
        ensures begun { IfOk result (λ c. c.store.begun ≡ None) }
    {
        CanisterPlace::new(alloc, self.make_canister(alloc, kept)?)
    }

    fn make_canister(&self, alloc: Global, kept: &KeptCanister) -> Result<Canister, NoMemory>
        requires { IsStored self.now kept.now }
        ensures canister { IfOk result (λ c. seen c ≡ canister_at self.now kept.now) }
        ensures begun { IfOk result (λ c. c.store.begun ≡ None) }
    {
        let code = self.make_code(kept.code)?;
        let memory = self
            .ranges
            .bytes(alloc, kept.store.memory.items.as_slice())?;
        let stable = self
            .ranges
            .bytes(alloc, kept.store.stable.items.as_slice())?;
        let store = make_store(
            alloc,
            &StoreParts {
                memory: memory.as_slice(),
                maximum: maximum_in(&code),
                globals: kept.store.globals.items.as_slice(),
                table: kept.store.table.items.as_slice(),
                stable: stable.as_slice(),
            },
        )?;
        Ok(Canister {
            id: kept.id,
            controllers: kept.controllers.copy(alloc)?,
            balance: kept.balance,
            code,
            store: StorePlace::new(alloc, store)?,
            certified: Exact::copy(&kept.certified, alloc)?,
            contexts: kept.contexts.copy(alloc)?,
            phase: kept.phase.copy(alloc)?,
            next_call: kept.next_call,
            outstanding: kept.outstanding,
        })
    }

    fn make_code(&self, number: Option<u32>) -> Result<Option<CodePlace>, NoMemory>
        requires { IfSome number (λ n. n < length self.now.codes) }
        ensures { IfOk result (λ code. option_map code_of code ≡ code_at self.now.codes number) }
    {
        let Some(number) = number else {
            return Ok(None);
        };
        match self.codes.get(number) {
            Some(code) => Ok(Some(code.share()?)),
            None => Ok(None),
        }
    }
}
