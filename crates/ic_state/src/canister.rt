ghost use Rattle.std.specs.Prelude.{◌≡◌, ◌-◌, ◌≤◌, ◌^◌, [], length, None, IfOk};
ghost use Rattle.std.specs.List.Sorted.{IsStrictlySortedBy};
ghost use Rattle.std.specs.Ordering.{nat_cmp};
ghost use Rattle.std.specs.Cmp.Lexicographic.{slice_cmp};
ghost use Rattle.std.specs.Borrow.{Lends, sem};
ghost use Rattle.wm_store.specs.contracts.store.Store.{the_row as store_row};
ghost use Rattle.ic_state.specs.contracts.canister.StorePlace.{the_row};
ghost use Rattle.ic_state.specs.contracts.canister.CanisterPlace.{the_row as place_row};
ghost use Rattle.ic_state.specs.contracts.canister.Canister.{the_row as canister_row};
ghost use Rattle.ic_state.specs.Seen.{seen, is_calm};
ghost use Rattle.ic_state.specs.IsCanister.{IsCanister, created};

use crate::lists::Contexts;
use ic_base::NoMemory;
use ic_behaviour::{Controllers, Phase};
use ic_heard::{Ear, Heard};
use ic_principal::{Bytes, Principal};
use std::alloc::Global;
use std::marker::Model;
use std::mem::replace;
use std::sync::Arc;
use wm_store::Store;
use wm_valid::Valid;

/// The code of a canister.
pub struct Code {
    pub valid: Valid,
    /// The SHA-256 of the module's bytes.
    pub hash: [u8; 32],
}

impl Drop for Code {
    fn drop(self) {
        let Code {
            valid: _valid,
            hash: _,
        } = self;
    }
}

/// The code of a canister in a place of its own, since it is large and its canister is moved with each
/// message. Places may share it. Contracts see the code.
pub struct CodePlace {
    inner: Arc<Code>,
}

impl Drop for CodePlace {
    fn drop(self) {
        let CodePlace { inner: _inner } = self;
    }
}

impl Model for CodePlace {
    ghost use Rattle.ic_state.specs.declared.canister.Code.{Code};

    ghost Value = { Code };

    ghost use Rattle.std.specs.Arc.{arc_value};

    ghost view = { λ p. arc_value p.inner };
}

impl CodePlace {
    /// Moves the code to its place.
    pub fn new(alloc: Global, code: Code) -> Result<CodePlace, NoMemory>
        ensures { IfOk result (λ p. p ≡ code) }
    {
        let inner = Arc::new(alloc, code)?;
        Ok(CodePlace { inner })
    }

    /// A second place of the same code. It takes no memory; `NoMemory` comes where 2^63 places share it.
    pub fn share(&self) -> Result<CodePlace, NoMemory>
        ensures { IfOk result (λ p. p ≡ self.now) }
    {
        let inner = Arc::try_clone(&self.inner)?;
        Ok(CodePlace { inner })
    }

    /// The code.
    pub fn get(&self) -> &Code
        ensures { result.now ≡ self.now }
    {
        &self.inner
    }
}

/// The store of a canister in a box, as its code, and the ear of whoever listens to what the canister says. Contracts see the
/// store: what is heard is no part of a state.
pub struct StorePlace {
    inner: Box<Store>,
    ear: Ear,
}

impl Drop for StorePlace {
    fn drop(self) {
        let StorePlace {
            inner: _inner,
            ear: _ear,
        } = self;
    }
}

impl Model for StorePlace {
    ghost use Rattle.wm_store.specs.Held.{Held};

    ghost Value = { Held };

    ghost view = { λ p. p.inner.value };
}

impl StorePlace {
    /// Moves the store to its place.
    pub fn new(alloc: Global, store: Store) -> Result<StorePlace, NoMemory>
        ensures { IfOk result (λ p. p ≡ store) }
    {
        let inner = Box::new(alloc, store)?;
        let ear = Ear::closed();
        Ok(StorePlace { inner, ear })
    }

    /// The store.
    pub fn get(&self) -> &Store
        ensures { result.now ≡ self.now }
    {
        &self.inner
    }

    /// The store, to run code on it.
    pub fn get_mut(&mut self) -> &mut Store
        ensures* writes_back { sem 𝓛 (Lends the_row store_row self.entry result (λ s. s)) }
        ensures store { result.now ≡ self.old }
    {
        &mut self.inner
    }

    /// Another store takes the place. Whoever listens goes on.
    pub fn put(&mut self, store: Store)
        ensures { self.new ≡ store }
    {
        *self.inner = store;
    }

    /// The store of another place takes the place. Whoever listens goes on.
    pub fn move_from(&mut self, other: StorePlace)
        ensures { self.new ≡ other }
    {
        let StorePlace { inner, ear: _ear } = other;
        self.inner = inner;
    }

    /// From now on somebody listens.
    pub fn listen(&mut self, alloc: Global) -> Result<(), NoMemory>
        ensures { self.new ≡ self.old }
    {
        if !self.ear.is_open() {
            self.ear = Ear::open(alloc)?;
        }
        Ok(())
    }

    /// Takes the ear. From now on nobody listens.
    pub fn take_ear(&mut self) -> Ear
        ensures { self.new ≡ self.old }
    {
        replace(&mut self.ear, Ear::closed())
    }

    /// Gives an ear.
    pub fn put_ear(&mut self, ear: Ear)
        ensures { self.new ≡ self.old }
    {
        self.ear = ear;
    }

    /// Takes what was heard; whoever listens goes on.
    pub fn take_heard(&mut self, alloc: Global) -> Heard
        ensures { self.new ≡ self.old }
    {
        self.ear.drain(alloc)
    }
}

/// A canister in a box, since it is large and moved with each message. Contracts see the canister.
pub struct CanisterPlace {
    inner: Box<Canister>,
}

impl Drop for CanisterPlace {
    fn drop(self) {
        let CanisterPlace { inner: _inner } = self;
    }
}

impl Model for CanisterPlace {
    ghost use Rattle.ic_state.specs.declared.canister.Canister.{Canister};

    ghost Value = { Canister };

    ghost view = { λ p. p.inner.value };
}

impl CanisterPlace {
    /// Moves the canister to its place.
    pub fn new(alloc: Global, canister: Canister) -> Result<CanisterPlace, NoMemory>
        ensures { IfOk result (λ p. p ≡ canister) }
    {
        let inner = Box::new(alloc, canister)?;
        Ok(CanisterPlace { inner })
    }

    /// The canister.
    pub fn get(&self) -> &Canister
        ensures { result.now ≡ self.now }
    {
        &self.inner
    }

    /// The canister, to change it.
    pub fn get_mut(&mut self) -> &mut Canister
        ensures* writes_back { sem 𝓛 (Lends place_row canister_row self.entry result (λ c. c)) }
        ensures canister { result.now ≡ self.old }
    {
        &mut self.inner
    }
}

/// A canister. What it keeps is said in `specs/IsCanister`.
pub struct Canister {
    pub id: Principal,
    /// At most 10, in rising order.
    pub controllers: Controllers,
    pub balance: u128,
    pub code: Option<CodePlace>,
    pub store: StorePlace,
    pub certified: Bytes,
    pub contexts: Contexts,
    pub phase: Phase,
    /// The number of the canister's next call.
    pub next_call: u64,
    /// How many calls of the canister have no answer yet.
    pub outstanding: u32,
}

impl Drop for Canister {
    fn drop(self) {
        let Canister {
            id: _,
            controllers: _controllers,
            balance: _,
            code: _code,
            store: _store,
            certified: _certified,
            contexts: _contexts,
            phase: _phase,
            next_call: _,
            outstanding: _,
        } = self;
    }
}

impl Canister {
    /// Whether no call waits for it to stop.
    pub fn is_calm(&self) -> bool
        ensures { result ≡ is_calm self.now }
    {
        !self.phase.is_awaited()
    }

    /// A running canister without code.
    pub fn new(
        alloc: Global,
        id: Principal,
        controllers: Controllers,
        balance: u128,
    ) -> Result<Canister, NoMemory>
        requires few { length controllers ≤ 10 }
        requires rising { IsStrictlySortedBy (slice_cmp nat_cmp) controllers }
        requires balance { balance ≤ 2 ^ 127 - 1 }
        ensures canister { IfOk result (λ c. seen c ≡ created id controllers balance) }
        ensures keeps { IfOk result IsCanister }
    {
        Ok(Canister {
            id,
            controllers,
            balance,
            code: None,
            store: StorePlace::new(alloc, Store::empty(alloc))?,
            certified: Bytes {
                items: Vec::new(alloc),
            },
            contexts: Contexts {
                items: Vec::new(alloc),
            },
            phase: Phase::Running,
            next_call: 0,
            outstanding: 0,
        })
    }
}
