ghost use Rattle.std.specs.Prelude.{◌≡◌, [], IfOk, IsTrue};
ghost use Rattle.ic_keep.specs.Kept.{state_at};
ghost use Rattle.ic_keep.specs.IsKept.{Grows, HasCodes, IsKept};

use ic_base::NoMemory;
use ic_keep::{Keeper, Kept};
use ic_state::World;
use std::alloc::Global;
use std::marker::Model;

/// A world, and what is kept of it.
#[derive(Drop)]
struct AtHand {
    kept: Kept,
    world: World,
}

/// Keeps worlds, and has the one at hand that was kept last. The next that is asked for is made of it, which takes little
/// where they have much alike, as those of a search have. Contracts see the tables of what worlds share.
#[derive(Drop)]
pub struct WorldKeeper {
    pub(crate) keeper: Keeper,
    last: Option<AtHand>,
}

impl Model for WorldKeeper {
    ghost use Rattle.std.specs.Prelude.{◌≡◌, IfSome};
    ghost use Rattle.ic_keep.specs.Kept.{Tables, state_at};
    ghost use Rattle.ic_keep.specs.IsKept.{IsKept};

    ghost Value = { Tables };

    ghost view = { λ w. w.keeper };

    ghost invariant = { λ w. IfSome w.last (λ last. IsKept w.keeper last.kept × (last.world ≡ state_at w.keeper last.kept)) };
}

impl WorldKeeper {
    /// It keeps nothing yet, and takes no memory.
    pub fn new(alloc: Global) -> WorldKeeper
        ensures { result ≡ record { ranges = []; codes = [] } }
    {
        WorldKeeper {
            keeper: Keeper::new(alloc),
            last: None,
        }
    }

    /// The world that is kept.
    pub fn make(&mut self, alloc: Global, kept: &Kept) -> Result<World, NoMemory>
        requires { IsKept self.old kept.now }
        ensures same { self.new ≡ self.old }
        ensures world { IfOk result (λ world. world ≡ state_at self.old kept.now) }
    {
        match self.last.take() {
            None => self.keeper.make(alloc, kept),
            Some(last) => {
                let AtHand { kept: from, world } = last;
                self.keeper.turn(alloc, world, &from, kept)
            }
        }
    }

    /// Has a world at hand, of which this is kept.
    pub fn put(&mut self, alloc: Global, world: World, kept: &Kept) -> Result<(), NoMemory>
        requires kept { IsKept self.old kept.now }
        requires world { world ≡ state_at self.old kept.now }
        ensures { self.new ≡ self.old }
    {
        let kept = kept.copy(alloc)?;
        self.last = Some(AtHand { kept, world });
        Ok(())
    }

    /// Keeps a world, and has it at hand. What it has alike with the state near is not kept again. Codes are compared,
    /// unless they are known to be those of the state near.
    pub fn keep(
        &mut self,
        alloc: Global,
        world: World,
        near: &Kept,
        same_codes: bool,
    ) -> Result<Kept, NoMemory>
        requires codes { IsTrue same_codes → HasCodes self.old near.now world }
        ensures grows { Grows self.old self.new }
        ensures kept { IfOk result (IsKept self.new) }
        ensures state { IfOk result (λ k. state_at self.new k ≡ world) }
    {
        self.last = None;
        let kept = self.keeper.keep(alloc, &world, near, same_codes)?;
        self.put(alloc, world, &kept)?;
        Ok(kept)
    }
}
