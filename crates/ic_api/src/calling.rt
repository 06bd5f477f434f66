ghost use Rattle.std.specs.Prelude.{◌≡◌, OnErr};
ghost use Rattle.ic_api.specs.Did.{Did, Does};
ghost use Rattle.ic_api.specs.IsRecord.{IsRecord};
ghost use Rattle.ic_api.specs.Calling.{abandoned, is_full as cannot_perform, call_new, call_on_cleanup, call_data_append, call_cycles_add, call_perform};

use crate::answering::MOST_BYTES;
use crate::execution::Execution;
use crate::memory::{read, refused, text_of};
use ic_base::NoMemory;
use ic_behaviour::{Callback, OutCall};
use ic_principal::{Bytes, Principal, Text};
use std::alloc::Global;
use wm_semantics::HostAnswer;
use wm_store::Store;

/// The most bytes of a method's name.
const LONGEST_NAME: usize = 20_000;

/// The most calls of a canister that have no answer yet.
const MOST_CALLS: u64 = 500;

/// Where bytes are in memory.
#[derive(Clone, Copy)]
pub struct Place {
    pub src: u64,
    pub size: u64,
}

impl Execution {
    /// Drops the call that is begun. Its cycles return.
    pub fn abandon(&mut self)
        requires { IsRecord self.old }
        ensures { self.new ≡ abandoned self.old }
    {
        if let Some(call) = self.begun.take() {
            self.view.balance += call.cycles;
        }
    }

    pub fn begin_call(
        &mut self,
        alloc: Global,
        callee: Place,
        name: Place,
        callback: Callback,
        store: &Store,
    ) -> Result<HostAnswer, NoMemory>
        requires record { IsRecord self.old }
        ensures did { Does result self.new (call_new callee.src callee.size name.src name.size callback store.now.lists.memory self.old) }
        ensures same { OnErr result (self.new ≡ self.old) }
    {
        let Some(id) = read(store, callee.src, callee.size) else {
            return Ok(refused());
        };
        let Some(name) = read(store, name.src, name.size) else {
            return Ok(refused());
        };
        let Ok(callee) = Principal::from_bytes(id) else {
            return Ok(refused());
        };
        if name.len() > LONGEST_NAME {
            return Ok(refused());
        }
        let Some(method) = text_of(name) else {
            return Ok(refused());
        };
        let method = Text {
            items: String::from_str(alloc, method)?,
        };
        self.abandon();
        self.begun = Some(OutCall {
            callee,
            method,
            arg: Bytes {
                items: Vec::new(alloc),
            },
            cycles: 0,
            callback,
        });
        Ok(HostAnswer::Nothing)
    }

    pub fn set_cleanup(&mut self, fun: u32, env: u32) -> HostAnswer
        ensures { Did result self.new (call_on_cleanup fun env self.old) }
    {
        let Some(call) = &self.begun else {
            return refused();
        };
        if call.callback.cleanup.is_some() {
            return refused();
        }
        if let Some(call) = &mut self.begun {
            call.callback.cleanup = Some((fun, env));
        }
        HostAnswer::Nothing
    }

    pub fn append_arg(&mut self, src: u64, size: u64, store: &Store) -> Result<HostAnswer, NoMemory>
        ensures did { Does result self.new (call_data_append src size store.now.lists.memory self.old) }
        ensures same { OnErr result (self.new ≡ self.old) }
    {
        let Some(call) = &self.begun else {
            return Ok(refused());
        };
        let Some(bytes) = read(store, src, size) else {
            return Ok(refused());
        };
        if call.arg.items.len() as u128 + bytes.len() as u128 > MOST_BYTES {
            return Ok(refused());
        }
        if let Some(call) = &mut self.begun {
            call.arg.items.extend_from_slice(bytes)?;
        }
        Ok(HostAnswer::Nothing)
    }

    pub fn add_cycles(&mut self, n: u128) -> HostAnswer
        requires { IsRecord self.old }
        ensures { Did result self.new (call_cycles_add n self.old) }
    {
        let Some(call) = &mut self.begun else {
            return refused();
        };
        if n > self.view.balance {
            return refused();
        }
        self.view.balance -= n;
        call.cycles += n;
        HostAnswer::Nothing
    }

    /// Whether no further call can be performed.
    fn is_full(&self) -> bool
        requires { IsRecord self.now }
        ensures { result ≡ cannot_perform self.now }
    {
        let performed = self.performed.items.len() as u64;
        self.view.outstanding as u64 + performed == MOST_CALLS
            || self.view.next_call + performed == u64::MAX
    }

    pub fn perform(&mut self) -> Result<HostAnswer, NoMemory>
        requires { IsRecord self.old }
        ensures did { Does result self.new (call_perform self.old) }
        ensures same { OnErr result (self.new ≡ self.old) }
    {
        if self.begun.is_none() {
            return Ok(refused());
        }
        if self.is_full() {
            self.abandon();
            return Ok(HostAnswer::Number(2));
        }
        self.performed.items.reserve(1)?;
        if let Some(call) = self.begun.take() {
            self.performed.items.push_reserved(call);
        }
        Ok(HostAnswer::Number(0))
    }
}
