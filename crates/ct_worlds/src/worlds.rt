use crate::delivering::delivered;
use crate::keeping::WorldKeeper;
use crate::laws::deliveries_keep_codes;
use ct_search::Machine;
use ic_base::NoMemory;
use ic_keep::{Kept, growth_keeps};
use ic_order::{next_messages_make_runs, next_places};
use ic_schedule::is_managed;
use ic_state::{Charge, World};
use std::alloc::Global;

/// A world that is kept, and the number of what names stand for in it. Worlds of different numbers never count as one.
#[derive(Drop)]
pub struct NamedWorld {
    pub names: u32,
    pub kept: Kept,
}

/// Worlds as a system: a move delivers one message that may come next, and worlds that differ only in the order of
/// messages that go different ways count as one.
#[derive(Drop)]
pub struct Worlds {
    pub charge: Charge,
}

impl Machine for Worlds {
    ghost use Rattle.ct_worlds.specs.Worlds.{worlds, IsKeptNamed, named_at};
    ghost use Rattle.ct_worlds.specs.Lawful.{worlds_lawful};

    type Keeper = WorldKeeper;

    type Kept = NamedWorld;

    type State = (u32, World);

    ghost meaning = { λ machine. worlds machine.charge.limit machine.charge.price };

    ghost Holds = { λ keeper kept. IsKeptNamed keeper kept };

    ghost state = { λ keeper kept. named_at keeper kept };

    fn moves(
        &self,
        alloc: Global,
        _keeper: &WorldKeeper,
        kept: &NamedWorld,
    ) -> Result<Vec<usize>, NoMemory> {
        let messages = kept.kept.messages(alloc)?;
        next_places(alloc, &messages.items)
    }

    fn moved(
        &self,
        alloc: Global,
        keeper: &mut WorldKeeper,
        kept: &NamedWorld,
        place: usize,
    ) -> Result<NamedWorld, NoMemory> {
        growth_keeps();
        deliveries_keep_codes();
        next_messages_make_runs();
        let world = keeper.make(alloc, &kept.kept)?;
        let same_codes = !is_managed(&world, place);
        let after = delivered(alloc, world, place, self.charge)?;
        Ok(NamedWorld {
            names: kept.names,
            kept: keeper.keep(alloc, after, &kept.kept, same_codes)?,
        })
    }

    fn key(&self, keeper: &WorldKeeper, kept: &NamedWorld) -> u64 {
        keeper.keeper.key(&kept.kept)
    }

    fn same(&self, keeper: &WorldKeeper, kept: &NamedWorld, other: &NamedWorld) -> bool {
        kept.names == other.names && keeper.keeper.same_state(&kept.kept, &other.kept)
    }

    ghost lawful = { λ machine. worlds_lawful machine.charge.limit machine.charge.price };
}
