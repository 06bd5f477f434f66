use crate::exact::{Exact, Same};
use crate::items::{copied, same_items};
use ic_base::NoMemory;
use ic_behaviour::{Context, Controllers, Phase, Waiter, Waiters};
use ic_state::Contexts;
use std::alloc::Global;

impl Same for Context {
    fn same(&self, other: &Context) -> bool {
        self.must_respond == other.must_respond
            && self.deleted == other.deleted
            && self.available == other.available
            && self.outstanding == other.outstanding
            && self.id.same(&other.id)
            && self.origin.same(&other.origin)
            && self.caller.same(&other.caller)
    }
}

impl Exact for Context {
    fn copy(&self, _alloc: Global) -> Result<Context, NoMemory> {
        Ok(*self)
    }
}

impl Same for Contexts {
    fn same(&self, other: &Contexts) -> bool {
        same_items(self.items.as_slice(), other.items.as_slice())
    }
}

impl Exact for Contexts {
    fn copy(&self, alloc: Global) -> Result<Contexts, NoMemory> {
        Ok(Contexts {
            items: copied(alloc, self.items.as_slice())?,
        })
    }
}

impl Same for Waiter {
    fn same(&self, other: &Waiter) -> bool {
        self.cycles == other.cycles && self.origin.same(&other.origin)
    }
}

impl Exact for Waiter {
    fn copy(&self, _alloc: Global) -> Result<Waiter, NoMemory> {
        Ok(*self)
    }
}

impl Same for Waiters {
    fn same(&self, other: &Waiters) -> bool {
        same_items(self.items.as_slice(), other.items.as_slice())
    }
}

impl Exact for Waiters {
    fn copy(&self, alloc: Global) -> Result<Waiters, NoMemory> {
        Ok(Waiters {
            items: copied(alloc, self.items.as_slice())?,
        })
    }
}

impl Same for Phase {
    fn same(&self, other: &Phase) -> bool {
        match self {
            Phase::Running => match other {
                Phase::Running => true,
                Phase::Stopping(_) => false,
                Phase::Stopped => false,
            },
            Phase::Stopping(a) => match other {
                Phase::Running => false,
                Phase::Stopping(b) => a.same(b),
                Phase::Stopped => false,
            },
            Phase::Stopped => match other {
                Phase::Running => false,
                Phase::Stopping(_) => false,
                Phase::Stopped => true,
            },
        }
    }
}

impl Exact for Phase {
    fn copy(&self, alloc: Global) -> Result<Phase, NoMemory> {
        match self {
            Phase::Running => Ok(Phase::Running),
            Phase::Stopping(waiters) => Ok(Phase::Stopping(waiters.copy(alloc)?)),
            Phase::Stopped => Ok(Phase::Stopped),
        }
    }
}

impl Same for Controllers {
    fn same(&self, other: &Controllers) -> bool {
        same_items(self.items.as_slice(), other.items.as_slice())
    }
}

impl Exact for Controllers {
    fn copy(&self, alloc: Global) -> Result<Controllers, NoMemory> {
        Ok(Controllers {
            items: copied(alloc, self.items.as_slice())?,
        })
    }
}
