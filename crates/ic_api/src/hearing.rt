ghost use Rattle.std.specs.Prelude.{◌≡◌, ◌+◌, ◌<◌, ◌≤◌, ◌^◌, slice_get};
ghost use Rattle.wm_valid.specs.SystemApi.{calls};
ghost use Rattle.ic_api.specs.Hearing.{listening, text_at, is_debug_print, is_nothing, says};

use crate::api::Api;
use crate::memory::read;
use ic_base::NoMemory;
use ic_behaviour::{EntryKind, View};
use ic_heard::Heard;
use std::alloc::Global;
use std::marker::Model;
use wm_semantics::{Host, HostAnswer, Meter};
use wm_store::Store;
use wm_valid::system_api::SystemCall;

/// The host of a canister's code in an execution to which somebody listens. It answers as `Api` does, and keeps what is
/// said. Contracts see what `Api` has and what was heard.
#[derive(Drop)]
pub struct Hearing {
    api: Api,
    heard: Heard,
    alloc: Global,
}

impl Model for Hearing {
    ghost use Rattle.ic_api.specs.Hearing.{Listening};

    ghost Value = { Listening };

    ghost view = { λ h. record { run = h.api; heard = h.heard } };
}

impl Hearing {
    /// The host of an execution that begins, after this was heard.
    pub fn new(alloc: Global, kind: EntryKind, view: View, heard: Heard) -> Hearing
        requires cycles { view.balance + view.available < 2 ^ 127 }
        requires outstanding { view.outstanding ≤ 500 }
        ensures { result ≡ listening heard kind view }
    {
        Hearing {
            api: Api::new(alloc, kind, view),
            heard,
            alloc,
        }
    }

    /// The host without what was heard, and that.
    pub fn end(self) -> (Api, Heard)
        ensures api { result.0 ≡ self.run }
        ensures heard { result.1 ≡ self.heard }
    {
        let Hearing { api, heard, .. } = self;
        (api, heard)
    }
}

// The text that a call of `debug_print` says; none where bytes pass the end of memory.
fn text_at<'s>(args: &[u64], store: &'s Store) -> &'s [u8]
    ensures { result.now ≡ text_at args.now store.now.lists }
{
    match args {
        [src, size, ..] => read(store, *src, *size).unwrap_or(&[]),
        _ => &[],
    }
}

fn is_debug_print(call: SystemCall) -> bool
    ensures { result ≡ is_debug_print call }
{
    match call {
        SystemCall::DebugPrint => true,
        _ => false,
    }
}

fn is_nothing(told: &HostAnswer) -> bool
    ensures { result ≡ is_nothing told.now }
{
    match told {
        HostAnswer::Nothing => true,
        HostAnswer::Number(_) | HostAnswer::Trap(_) => false,
    }
}

// Whether such a call says a text, where this was answered.
fn says(import: u32, told: &HostAnswer) -> bool
    ensures { result ≡ says (slice_get calls import) told.now }
{
    match SystemCall::numbered(import) {
        Some(call) => is_debug_print(call) && is_nothing(told),
        None => false,
    }
}

impl Host for Hearing {
    ghost use Rattle.ic_api.specs.Hearing.{Hears};
    ghost use Rattle.ic_api.specs.Laws.Listening.{lawful as hears_lawful};

    ghost answers = { Hears };

    fn call(
        &mut self,
        import: u32,
        args: &[u64],
        store: &mut Store,
        meter: &mut Meter,
    ) -> Result<HostAnswer, NoMemory> {
        let answer = self.api.call(import, args, store, meter)?;
        if says(import, &answer) {
            self.heard.hear(self.alloc, text_at(args, store))?;
        }
        Ok(answer)
    }

    ghost lawful = { hears_lawful };
}
