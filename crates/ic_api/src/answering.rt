ghost use Rattle.std.specs.Prelude.{◌≡◌, OnErr};
ghost use Rattle.ic_api.specs.Did.{Did, Does};
ghost use Rattle.ic_api.specs.Answering.{msg_reply_data_append, msg_reply, msg_reject, responded};

use crate::execution::Execution;
use crate::memory::{read, refused, text_of};
use ic_base::NoMemory;
use ic_behaviour::Response;
use ic_principal::{Bytes, Text};
use std::alloc::Global;
use wm_semantics::HostAnswer;
use wm_store::Store;

/// The most bytes of a reply, of a reject message and of an argument.
pub const MOST_BYTES: u128 = 2_097_152;

const CANISTER_REJECT: u32 = 4;

impl Execution {
    pub fn append_reply(
        &mut self,
        src: u64,
        size: u64,
        store: &Store,
    ) -> Result<HostAnswer, NoMemory>
        ensures did { Does result self.new (msg_reply_data_append src size store.now.lists.memory self.old) }
        ensures same { OnErr result (self.new ≡ self.old) }
    {
        if self.view.responded {
            return Ok(refused());
        }
        let Some(bytes) = read(store, src, size) else {
            return Ok(refused());
        };
        if self.appended.items.len() as u128 + bytes.len() as u128 > MOST_BYTES {
            return Ok(refused());
        }
        self.appended.items.extend_from_slice(bytes)?;
        Ok(HostAnswer::Nothing)
    }

    /// Gives the answer. What is available goes back with it.
    fn respond(&mut self, alloc: Global, response: Response)
        ensures { self.new ≡ responded response self.old }
    {
        let refund = self.view.available;
        self.view.available = 0;
        self.view.responded = true;
        self.appended = Bytes {
            items: Vec::new(alloc),
        };
        self.answer = Some((response, refund));
    }

    pub fn reply(&mut self, alloc: Global) -> HostAnswer
        ensures { Did result self.new (msg_reply self.old) }
    {
        if self.view.responded {
            return refused();
        }
        let empty = Bytes {
            items: Vec::new(alloc),
        };
        let bytes = std::mem::replace(&mut self.appended, empty);
        self.respond(alloc, Response::Reply(bytes));
        HostAnswer::Nothing
    }

    pub fn reject(
        &mut self,
        alloc: Global,
        src: u64,
        size: u64,
        store: &Store,
    ) -> Result<HostAnswer, NoMemory>
        ensures did { Does result self.new (msg_reject src size store.now.lists.memory self.old) }
        ensures same { OnErr result (self.new ≡ self.old) }
    {
        if self.view.responded {
            return Ok(refused());
        }
        let Some(bytes) = read(store, src, size) else {
            return Ok(refused());
        };
        if bytes.len() as u128 > MOST_BYTES {
            return Ok(refused());
        }
        let Some(message) = text_of(bytes) else {
            return Ok(refused());
        };
        let message = Text {
            items: String::from_str(alloc, message)?,
        };
        self.respond(
            alloc,
            Response::Reject {
                code: CANISTER_REJECT,
                message,
            },
        );
        Ok(HostAnswer::Nothing)
    }
}
