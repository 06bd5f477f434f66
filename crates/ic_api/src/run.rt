ghost use Rattle.std.specs.Prelude.{◌≡◌, ◌≤◌, IfOk, OnErr};
ghost use Rattle.wm_valid.specs.SystemApi.{row_of};
ghost use Rattle.wm_store.specs.Values.{AreValues};
ghost use Rattle.ic_api.specs.Did.{Does};
ghost use Rattle.ic_api.specs.IsRecord.{IsRecord};
ghost use Rattle.ic_api.specs.Steps.{Now};
ghost use Rattle.ic_api.specs.Running.{api};

use crate::charges::surcharge;
use crate::execution::Execution;
use crate::kinds::kinds_of;
use crate::memory::refused;
use ic_base::NoMemory;
use ic_behaviour::EntryKind;
use std::alloc::Global;
use wm_semantics::{HostAnswer, Meter, Trap};
use wm_store::Store;
use wm_valid::system_api::SystemCall;

/// A call that code makes: from an entry point of that kind, with these arguments.
#[derive(Clone, Copy)]
pub(crate) struct Asked<'a> {
    pub(crate) kind: EntryKind,
    pub(crate) call: SystemCall,
    pub(crate) args: &'a [u64],
}

impl Execution {
    /// Runs the call: the charge, the kind, and then as the table says.
    pub(crate) fn run(
        &mut self,
        alloc: Global,
        asked: Asked<'_>,
        store: &mut Store,
        meter: &mut Meter,
    ) -> Result<HostAnswer, NoMemory>
        requires record { IsRecord self.old }
        requires values { AreValues (row_of asked.call).params asked.args.now }
        ensures did { Does result (record { es = self.new; lists = store.new.lists }) (api asked.entry.kind asked.entry.call asked.entry.args.now meter.old.limit meter.old.used (record { es = self.old; lists = store.old.lists })).step }
        ensures used { IfOk result (λ _. meter.new.used ≡ (api asked.entry.kind asked.entry.call asked.entry.args.now meter.old.limit meter.old.used (record { es = self.old; lists = store.old.lists })).used) }
        ensures same { OnErr result (self.new ≡ self.old) }
        ensures begun { store.new.begun ≡ store.old.begun }
        ensures limit { meter.new.limit ≡ meter.old.limit }
        ensures rises { meter.old.used ≤ meter.new.used }
    {
        if !meter.charge(1 + surcharge(asked.call, asked.args, store)) {
            return Ok(HostAnswer::Trap(Trap::Limit));
        }
        if !kinds_of(asked.call).has(asked.kind) {
            return Ok(refused());
        }
        self.act(alloc, asked.kind, asked.call, asked.args, store)
    }
}
