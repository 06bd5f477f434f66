//! Reject codes, controllers, inspection, certified data, traps.
ghost use Rattle.std.specs.Prelude.{◌≡◌, IfOk, OnErr};
ghost use Rattle.ic_api.specs.Did.{Did, Does};
ghost use Rattle.ic_api.specs.Rest.{msg_reject_code, is_controller as controller_answer, accept_message, certified_data_set, trap_with};

use crate::execution::Execution;
use crate::memory::{read, refused, text_of};
use ic_base::NoMemory;
use ic_behaviour::EntryKind;
use ic_principal::{Bytes, Principal, Text};
use std::alloc::Global;
use wm_semantics::{HostAnswer, Trap};
use wm_store::Store;

const MOST_CERTIFIED: u64 = 32;

const LONGEST_MESSAGE: usize = 8_192;

impl Execution {
    pub fn reject_code(&self, kind: EntryKind) -> u32
        ensures { result ≡ msg_reject_code kind self.now }
    {
        match kind {
            EntryKind::Reply => 0,
            _ => self.view.reject_code,
        }
    }

    pub fn is_controller(&self, src: u64, size: u64, store: &Store) -> HostAnswer
        ensures { result ≡ controller_answer src size store.now.lists.memory self.now }
    {
        let Some(bytes) = read(store, src, size) else {
            return refused();
        };
        let Ok(id) = Principal::from_bytes(bytes) else {
            return refused();
        };
        let controls = self.view.controllers.items.contains(&id);
        HostAnswer::Number(if controls { 1 } else { 0 })
    }

    pub fn accept_message(&mut self) -> HostAnswer
        ensures { Did result self.new (accept_message self.old) }
    {
        if self.accepted_message {
            return refused();
        }
        self.accepted_message = true;
        HostAnswer::Nothing
    }

    pub fn certify(
        &mut self,
        alloc: Global,
        src: u64,
        size: u64,
        store: &Store,
    ) -> Result<HostAnswer, NoMemory>
        ensures did { Does result self.new (certified_data_set src size store.now.lists.memory self.old) }
        ensures same { OnErr result (self.new ≡ self.old) }
    {
        if size > MOST_CERTIFIED {
            return Ok(refused());
        }
        let Some(bytes) = read(store, src, size) else {
            return Ok(refused());
        };
        self.view.certified = Bytes {
            items: Vec::from_slice(alloc, bytes)?,
        };
        Ok(HostAnswer::Nothing)
    }
}

/// The trap that a canister asks for.
pub fn trap(alloc: Global, src: u64, size: u64, store: &Store) -> Result<Trap, NoMemory>
    ensures { IfOk result (λ t. t ≡ trap_with src size store.now.lists.memory) }
{
    let Some(bytes) = read(store, src, size) else {
        return Ok(Trap::Api);
    };
    if bytes.len() > LONGEST_MESSAGE {
        return Ok(Trap::Api);
    }
    match text_of(bytes) {
        Some(message) => {
            let items = String::from_str(alloc, message)?;
            Ok(Trap::Explicit(Text { items }))
        }
        None => Ok(Trap::Api),
    }
}
