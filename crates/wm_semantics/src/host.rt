ghost use Rattle.std.specs.Prelude.{◌≡◌, ◌≤◌, IfOk};

use crate::meter::Meter;
use crate::trap::Trap;
use ic_base::NoMemory;
use wm_store::Store;

/// What a host answers to a call.
#[derive(Debug, Drop)]
pub enum HostAnswer {
    Nothing,
    /// The result, an integer of its type.
    Number(u64),
    Trap(Trap),
}

/// What runs the functions that a module imports.
///
/// `answers` relates a call's number, arguments, host, store and meter to the answer, and to host,
/// store and meter after it. It keeps the rules of `Lawful`; it may hold facts of the host's own.
pub trait Host {
    ghost use Rattle.wm_semantics.specs.Hosts.{Answers, IsAsked, Lawful};

    ghost answers: { Answers Self };

    /// Runs the call that has this number in the table of the System API, from 0.
    fn call(
        &mut self,
        import: u32,
        args: &[u64],
        store: &mut Store,
        meter: &mut Meter,
    ) -> Result<HostAnswer, NoMemory>
        // There is such a call, and it takes these arguments, the first parameter's first.
        requires { IsAsked import args.now }
        ensures answers { IfOk result (λ a. answers self.old import args.now store.old.lists meter.old.limit meter.old.used a self.new store.new.lists meter.new.used) }
        // These hold without memory too.
        ensures begun { store.new.begun ≡ store.old.begun }
        ensures limit { meter.new.limit ≡ meter.old.limit }
        ensures rises { meter.old.used ≤ meter.new.used };

    ghost lawful: { Lawful answers };
}
