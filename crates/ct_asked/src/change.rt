ghost use Rattle.std.specs.Prelude.{IfOk, IsTrue, ◌↔◌};
ghost use Rattle.ct_outcomes.specs.Answers.{Finds};
ghost use Rattle.ct_asked.specs.declared.asked.Asked.TheVariants.{Call};
ghost use Rattle.ct_asked.specs.Asked.{Asks, AsksUpgrade, IsChange, IsUpgradable};

use crate::asked::{Asked, call_of};
use crate::asker::Asker;
use crate::names::principal_at;
use crate::requests::installing;
use cd_did::upgradable;
use ct_check::CheckedChange;
use ct_outcomes::{Came, Named};
use ic_base::NoMemory;
use ic_behaviour::Mode;
use ic_script::Ask;

impl<'i> Asker<'i> {
    #[tactic(auto, using(crate::proofs::Said::change_sender, crate::proofs::Said::change_canister, crate::proofs::Said::change_code))]
    // The call by which the canister in a slot gets another module, where its argument is values of its types.
    fn changing(
        &self,
        names: &[Named],
        by: usize,
        mode: Mode,
        change: &CheckedChange<'_, '_>,
    ) -> Result<Option<Ask>, NoMemory>
        ensures { Finds (λ ask. ask) (IsChange self.now names.now by mode change.now) result }
    {
        let Some(sender) = principal_at(names, by) else {
            return Ok(None);
        };
        let Some(canister) = principal_at(names, change.canister) else {
            return Ok(None);
        };
        match self.code(names, change.wasm, change.interface, &change.arguments)? {
            None => Ok(None),
            Some(code) => Ok(Some(installing(self.alloc, sender, canister, mode, code)?)),
        }
    }

    #[tactic(auto, using(crate::proofs::Moves::asks_one, crate::proofs::Moves::asks_none))]
    /// A canister gets another module.
    pub(crate) fn change(
        &self,
        names: &[Named],
        by: usize,
        mode: Mode,
        change: &CheckedChange<'_, '_>,
    ) -> Result<Asked, NoMemory>
        ensures { IfOk result (Asks Call (IsChange self.now names.now by mode change.now)) }
    {
        match self.changing(names, by, mode, change)? {
            None => Ok(Asked::Nothing(Came::NotValues)),
            Some(ask) => Ok(call_of(ask)),
        }
    }

    // Whether the new interface of a canister is a subtype of the one in use.
    fn is_upgradable(&self, change: &CheckedChange<'_, '_>) -> Result<bool, NoMemory>
        ensures { IfOk result (λ yes. IsTrue yes ↔ IsUpgradable self.now change.now) }
    {
        let Some(old) = self.sources.interface(change.before) else {
            return Ok(false);
        };
        let Some(new) = self.sources.interface(change.interface) else {
            return Ok(false);
        };
        if !old.has_service() || !new.has_service() {
            return Ok(false);
        }
        upgradable(self.alloc, old, new)
    }

    #[tactic(auto, using(crate::proofs::Moves::upgrades, crate::proofs::Moves::never_upgrades))]
    /// A canister is upgraded, if it may be.
    pub(crate) fn upgrade(
        &self,
        names: &[Named],
        by: usize,
        change: &CheckedChange<'_, '_>,
    ) -> Result<Asked, NoMemory>
        ensures { IfOk result (AsksUpgrade self.now names.now by change.now) }
    {
        if self.is_upgradable(change)? {
            let mode = Mode::Upgrade {
                skip_pre_upgrade: false,
            };
            self.change(names, by, mode, change)
        } else {
            Ok(Asked::Nothing(Came::NotUpgradable))
        }
    }
}
