ghost use Rattle.std.specs.Prelude.{◌≡◌, ◌+◌, ◌<◌, ◌≤◌, ◌^◌, length};
ghost use Rattle.ic_api.specs.Effects.{effects_of, effects_cycles};
ghost use Rattle.ic_api.specs.IsRecord.{execution_cycles};
ghost use Rattle.ic_api.specs.Running.{starting};

use crate::execution::Execution;
use crate::memory::refused;
use crate::run::Asked;
use ic_base::NoMemory;
use ic_behaviour::{Effects, EntryKind, OutCalls, View};
use ic_principal::Bytes;
use std::alloc::Global;
use std::marker::Model;
use wm_semantics::{Host, HostAnswer, Keeps, Meter};
use wm_store::Store;
use wm_valid::system_api::SystemCall;

/// The host of a canister's code in one execution. Contracts see the kind of its entry point and its
/// record.
#[derive(Drop)]
pub struct Api {
    // Large, and first, so that there is no gap before it where it is moved.
    es: Execution,
    kind: EntryKind,
    alloc: Global,
}

impl Model for Api {
    ghost use Rattle.ic_api.specs.IsRecord.{IsRecord};
    ghost use Rattle.ic_api.specs.Running.{Running};

    ghost Value = { Running };

    ghost view = { λ a. record { kind = a.kind; es = a.es } };

    ghost invariant = { λ a. IsRecord a.es };
}

impl Api {
    /// The host of an execution that begins: nothing has happened in it. Its calls take their memory
    /// from the allocator.
    pub fn new(alloc: Global, kind: EntryKind, view: View) -> Api
        requires cycles { view.balance + view.available < 2 ^ 127 }
        requires outstanding { view.outstanding ≤ 500 }
        ensures { result ≡ starting kind view }
    {
        Api {
            alloc,
            kind,
            es: Execution {
                view,
                appended: Bytes {
                    items: Vec::new(alloc),
                },
                answer: None,
                begun: None,
                performed: OutCalls {
                    items: Vec::new(alloc),
                },
                accepted_message: false,
            },
        }
    }

    /// What the execution did. A call that is begun and not performed is dropped, and its cycles
    /// return to the balance. It is part of its callers in the program: the host is large, and would be copied once more.
    #[inline(always)]
    pub fn finish(self) -> Effects
        ensures effects { result ≡ effects_of self }
        ensures cycles { effects_cycles result ≡ execution_cycles self.es }
        ensures most { effects_cycles result < 2 ^ 127 }
        ensures outstanding { self.es.view.outstanding + length result.calls ≤ 500 }
        ensures numbers { self.es.view.next_call + length result.calls < 2 ^ 64 }
    {
        let mut api = self;
        api.es.abandon();
        let Api { es, .. } = api;
        let Execution {
            view,
            answer,
            performed,
            accepted_message,
            ..
        } = es;
        let View {
            balance,
            available,
            certified,
            ..
        } = view;
        Effects {
            balance,
            available,
            answer,
            calls: performed,
            certified,
            accepted_message,
        }
    }
}

impl Host for Api {
    ghost use Rattle.ic_api.specs.Running.{Meets};
    ghost use Rattle.ic_api.specs.Laws.Hosts.{lawful as meets_lawful};

    ghost answers = { Meets };

    fn call(
        &mut self,
        import: u32,
        args: &[u64],
        store: &mut Store,
        meter: &mut Meter,
    ) -> Result<HostAnswer, NoMemory> {
        let kind = self.kind;
        let _pages = store.stable_pages();
        let Some(call) = SystemCall::numbered(import) else {
            store.holds_bytes();
            return Ok(refused());
        };
        let asked = Asked { kind, call, args };
        let answer = self.es.run(self.alloc, asked, store, meter)?;
        store.holds_bytes();
        Ok(answer)
    }

    ghost lawful = { meets_lawful };
}

impl Keeps for Api {
    ghost use Rattle.ic_api.specs.Laws.Hosts.{run_kept as run_stays, is_kept as run_is_kept};

    ghost kept = { run_stays };

    ghost is_kept = { run_is_kept };
}
