ghost use Rattle.std.specs.Prelude.{◌≡◌, ◌<◌, [], length, IfOk, OnOk};
ghost use Rattle.ic_keep.specs.Kept.{state_at};
ghost use Rattle.ic_keep.specs.IsKept.{IsKept};
ghost use Rattle.ct_cases.specs.Meanings.{meaning_at};
ghost use Rattle.ct_cases.specs.Cases.{Grows, IsHeld, first_case, reached};

use crate::meanings::{Meaning, Meanings, copied_names};
use ct_run::Names;
use ct_worlds::WorldKeeper;
use ic_base::NoMemory;
use ic_keep::Kept;
use ic_state::World;
use std::alloc::Global;

/// A case: the number of what names stand for in it, its state, and the places of the messages whose deliveries in
/// interleaves led there.
pub struct Case {
    pub meaning: u32,
    pub kept: Kept,
    pub order: Vec<usize>,
}

// Not derived, so that it is proved here and not in each crate that drops one.
impl Drop for Case {
    fn drop(self) {
        let Case {
            meaning: _,
            kept: _kept,
            order: _order,
        } = self;
    }
}

/// What cases have alike is kept here once.
pub struct Tables {
    pub alloc: Global,
    pub keeper: WorldKeeper,
    pub meanings: Meanings,
}

impl Drop for Tables {
    fn drop(self) {
        let Tables {
            alloc: _,
            keeper: _keeper,
            meanings: _meanings,
        } = self;
    }
}

impl Tables {
    /// Nothing is kept yet.
    pub fn new(alloc: Global) -> Tables {
        Tables {
            alloc,
            keeper: WorldKeeper::new(alloc),
            meanings: Meanings::new(alloc),
        }
    }

    /// The first case.
    pub fn first(&mut self, world: World, names: Names) -> Result<Case, NoMemory>
        ensures held { IfOk result (IsHeld self.new) }
        ensures case { IfOk result (λ case. reached self.new case ≡ first_case world names) }
    {
        let near = Kept::empty(self.alloc);
        let case = self.case(world, names, &near, Vec::new(self.alloc))?;
        Ok(case)
    }

    /// The case of a world that came of a state, where no interleave is under way.
    pub(crate) fn case(
        &mut self,
        world: World,
        names: Names,
        near: &Kept,
        order: Vec<usize>,
    ) -> Result<Case, NoMemory>
        ensures grows { OnOk result (Grows self.old self.new) }
        ensures held { IfOk result (IsHeld self.new) }
        ensures case { IfOk result (λ case. reached self.new case ≡ record { state = world; names = names; order = order.items }) }
    {
        let kept = self.keep(world, near)?;
        let meaning = self.number(names)?;
        Ok(Case {
            meaning,
            kept,
            order,
        })
    }

    #[tactic(auto, using(crate::proofs::Stays::grows_in))]
    /// The number of what names stand for where no interleave is under way.
    pub(crate) fn number(&mut self, names: Names) -> Result<u32, NoMemory>
        ensures grows { OnOk result (Grows self.old self.new) }
        ensures known { IfOk result (λ number. number < length self.new.meanings) }
        ensures names { IfOk result (λ number. (meaning_at self.new.meanings number).0 ≡ names) }
    {
        let accepted = Vec::new(self.alloc);
        self.meanings.number(Meaning { names, accepted })
    }

    /// What names stand for under a number.
    pub(crate) fn names(&self, number: u32) -> Result<Names, NoMemory>
        requires { number < length self.now.meanings }
        ensures { IfOk result (λ names. names ≡ (meaning_at self.now.meanings number).0) }
    {
        copied_names(self.alloc, &self.meanings.get(number).names)
    }

    #[tactic(auto, using(crate::proofs::Stays::grows_same))]
    /// The world of a state.
    pub(crate) fn world(&mut self, kept: &Kept) -> Result<World, NoMemory>
        requires { IsKept self.old.keeper kept.now }
        ensures grows { OnOk result (Grows self.old self.new) }
        ensures world { IfOk result (λ world. world ≡ state_at self.old.keeper kept.now) }
    {
        self.keeper.make(self.alloc, kept)
    }

    /// Keeps a world that came of a state.
    pub(crate) fn keep(&mut self, world: World, near: &Kept) -> Result<Kept, NoMemory>
        ensures grows { OnOk result (Grows self.old self.new) }
        ensures kept { IfOk result (IsKept self.new.keeper) }
        ensures state { IfOk result (λ kept. state_at self.new.keeper kept ≡ world) }
    {
        self.keeper.keep(self.alloc, world, near, false)
    }

    #[tactic(auto, using(crate::proofs::Stays::grows_same))]
    /// Has a world at hand, of which this is kept.
    pub(crate) fn keep_at_hand(&mut self, world: World, kept: &Kept) -> Result<(), NoMemory>
        requires kept { IsKept self.old.keeper kept.now }
        requires world { world ≡ state_at self.old.keeper kept.now }
        ensures { OnOk result (Grows self.old self.new) }
    {
        self.keeper.put(self.alloc, world, kept)
    }
}
