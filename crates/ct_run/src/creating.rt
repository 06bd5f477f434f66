ghost use Rattle.std.specs.Prelude.{◌≡◌, IfOk};
ghost use Rattle.ct_run.specs.Created.{Makes, canister_of, making, not_made};

use crate::runner::Runner;
use ct_asked::Creation;
use ct_outcomes::Came;
use ct_script::Script;
use ic_base::NoMemory;
use ic_mgmt_requests::canister_named;
use ic_outside::Gate;
use ic_principal::Principal;
use ic_state::World;
use std::alloc::Global;
use std::thread::Threads;

// The canister that the first call made.
fn canister_of(alloc: Global, came: &Came) -> Result<Option<Principal>, NoMemory>
    ensures { IfOk result (λ canister. canister ≡ canister_of came.now) }
{
    match came {
        Came::Replied(reply) => canister_named(alloc, reply),
        _ => Ok(None),
    }
}

// What is told of it, where it made none.
fn not_made(came: Came) -> Came
    ensures { result ≡ not_made came }
{
    match came {
        Came::Rejected { code, text } => Came::NotMade { code, text },
        other => other,
    }
}

impl<'i, R: Threads + Sync, G: Gate + Sync> Runner<'i, R, G> {
    /// A canister is made, and gets a module if it was: the state after both, the canister, and what came of them.
    #[tactic(auto, using(crate::proofs::Calls::made_none, crate::proofs::Calls::made_some))]
    pub(crate) fn create(
        &self,
        world: World,
        creation: Creation<'i>,
        cycles: Option<u128>,
        script: &mut Script,
    ) -> Result<(World, Option<Principal>, Came), NoMemory>
        ensures { Makes self.now.charge world (making self.now.charge world creation.entry cycles) result }
    {
        let asked = creation.first(self.alloc, cycles)?;
        let (world, came) = self.act(world, asked, script)?;
        match canister_of(self.alloc, &came)? {
            None => Ok((world, None, not_made(came))),
            Some(id) => {
                let asked = creation.second(self.alloc, id)?;
                let (world, came) = self.act(world, asked, script)?;
                Ok((world, Some(id), came))
            }
        }
    }
}
