ghost use Rattle.std.specs.Prelude.{◌≡◌, ◌↔◌, IsTrue};

use ic_behaviour::{Controllers, Phase};
use ic_exact::{Entries, Numbers, Same, Words};
use ic_principal::{Bytes, Principal};
use ic_state::Contexts;

/// The store of a canister that is kept: the numbers of the ranges of its memories, and what else it
/// has. The maximum of its memory is that of its code.
pub struct KeptStore {
    pub memory: Numbers,
    pub globals: Words,
    pub table: Entries,
    pub stable: Numbers,
}

impl Drop for KeptStore {
    fn drop(self) {
        let KeptStore {
            memory: _memory,
            globals: _globals,
            table: _table,
            stable: _stable,
        } = self;
    }
}

impl Same for KeptStore {
    fn same(&self, other: &KeptStore) -> bool {
        self.memory.same(&other.memory)
            && self.globals.same(&other.globals)
            && self.table.same(&other.table)
            && self.stable.same(&other.stable)
    }
}

/// A canister that is kept, with the number of its code.
pub struct KeptCanister {
    pub id: Principal,
    pub controllers: Controllers,
    pub balance: u128,
    pub code: Option<u32>,
    pub store: KeptStore,
    pub certified: Bytes,
    pub contexts: Contexts,
    pub phase: Phase,
    pub next_call: u64,
    pub outstanding: u32,
}

impl Drop for KeptCanister {
    fn drop(self) {
        let KeptCanister {
            id: _,
            controllers: _controllers,
            balance: _,
            code: _,
            store: _store,
            certified: _certified,
            contexts: _contexts,
            phase: _phase,
            next_call: _,
            outstanding: _,
        } = self;
    }
}

impl KeptCanister {
    // Whether both have the same in all fields of a fixed size.
    fn has_same_numbers(&self, other: &KeptCanister) -> bool
        ensures { IsTrue result ↔ ((self.now.balance ≡ other.now.balance) × (self.now.code ≡ other.now.code)
            × (self.now.next_call ≡ other.now.next_call) × (self.now.outstanding ≡ other.now.outstanding)) }
    {
        self.balance == other.balance
            && self.code == other.code
            && self.next_call == other.next_call
            && self.outstanding == other.outstanding
    }
}

impl Same for KeptCanister {
    fn same(&self, other: &KeptCanister) -> bool {
        self.has_same_numbers(other)
            && self.id.same(&other.id)
            && self.store.same(&other.store)
            && self.contexts.same(&other.contexts)
            && self.phase.same(&other.phase)
            && self.certified.same(&other.certified)
            && self.controllers.same(&other.controllers)
    }
}
