ghost use Rattle.std.specs.Prelude.{◌≡◌, IfOk};
ghost use Rattle.ic_behaviour.specs.declared.install.Mode.TheVariants.{Install};
ghost use Rattle.ct_outcomes.specs.Answers.{Finds};
ghost use Rattle.ct_asked.specs.declared.asked.Asked.TheVariants.{Call};
ghost use Rattle.ct_asked.specs.Requests.{creating, installing};
ghost use Rattle.ct_asked.specs.Asked.{IsCreation, unless_too_long};

use crate::asked::{Asked, call_of};
use crate::asker::Asker;
use crate::names::principal_at;
use crate::requests::{Code, creating, installing};
use ct_check::CheckedCreation;
use ct_outcomes::Named;
use ic_base::NoMemory;
use ic_behaviour::Mode;
use ic_principal::Principal;
use std::alloc::Global;
use std::marker::Model;

/// A canister that is to be made: by whom, and of what. Contracts see these two.
#[derive(Drop)]
pub struct Creation<'i> {
    sender: Principal,
    code: Code<'i>,
}

impl<'i> Model for Creation<'i> {
    ghost use Rattle.std.specs.Prelude.{List, ℕ};
    ghost use Rattle.ct_asked.specs.Requests as requests;

    ghost Value = { List ℕ × requests.Code };

    ghost view = { λ c. (c.sender, c.code) };
}

impl<'i> Creation<'i> {
    /// The first call, which makes a canister with these cycles, or, where none are named, with the amount
    /// that the management canister gives.
    pub fn first(&self, alloc: Global, cycles: Option<u128>) -> Result<Asked, NoMemory>
        ensures { IfOk result (λ asked. asked ≡ unless_too_long Call (creating self.now.0 cycles)) }
    {
        Ok(call_of(creating(alloc, self.sender, cycles)?))
    }

    /// The second call, which installs the code in the canister that was made.
    pub fn second(self, alloc: Global, canister: Principal) -> Result<Asked, NoMemory>
        ensures { IfOk result (λ asked. asked ≡ unless_too_long Call (installing self.entry.0 canister Install self.entry.1)) }
    {
        let Creation { sender, code } = self;
        Ok(call_of(installing(alloc, sender, canister, Mode::Install, code)?))
    }
}

impl<'i> Asker<'i> {
    #[tactic(auto, using(crate::proofs::Said::creation_sender, crate::proofs::Said::creation_code))]
    /// What a canister is made of, where its argument is values of its types.
    pub fn creation(
        &self,
        names: &[Named],
        by: usize,
        creation: &CheckedCreation<'_, '_>,
    ) -> Result<Option<Creation<'i>>, NoMemory>
        ensures { Finds (λ made. made) (IsCreation self.now names.now by creation.now) result }
    {
        let Some(sender) = principal_at(names, by) else {
            return Ok(None);
        };
        match self.code(
            names,
            creation.wasm,
            creation.interface,
            &creation.arguments,
        )? {
            None => Ok(None),
            Some(code) => Ok(Some(Creation { sender, code })),
        }
    }
}
