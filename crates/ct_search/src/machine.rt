ghost use Rattle.std.specs.Prelude.{◌≡◌, IfOk};
ghost use Rattle.std.specs.Bool.{OnTrue, OnFalse};
ghost use Rattle.ct_search.specs.Meaning.{Meaning, Lawful, May};
ghost use Rattle.ct_search.specs.Search.{Stays, StandsFor};

use ic_base::NoMemory;
use std::alloc::Global;

/// What moves states. A state is kept by a keeper, which may have parts of several states once, and what is kept of
/// it stands for it as long as the keeper is there.
pub trait Machine {
    type Keeper;

    type Kept;

    type State;

    /// What the system is.
    ghost meaning: { Self → Meaning Self.State };

    ghost Holds: { Self.Keeper → Self.Kept → Type 0 };

    /// The state that is kept.
    ghost state: { Self.Keeper → Self.Kept → Self.State };

    /// The places at which the state may move, in the order in which they are tried.
    fn moves(
        &self,
        alloc: Global,
        keeper: &Self::Keeper,
        kept: &Self::Kept,
    ) -> Result<Vec<usize>, NoMemory>
        requires { Holds keeper.now kept.now }
        ensures { IfOk result (λ places. places.items ≡ (meaning self.now).moves (state keeper.now kept.now)) };

    /// The state after a move.
    fn moved(
        &self,
        alloc: Global,
        keeper: &mut Self::Keeper,
        kept: &Self::Kept,
        place: usize,
    ) -> Result<Self::Kept, NoMemory>
        requires held { Holds keeper.old kept.now }
        requires may { May (meaning self.now) (state keeper.old kept.now) place }
        ensures stays { Stays Holds state keeper.old keeper.new }
        ensures moved { IfOk result (λ after. StandsFor Holds state keeper.new after ((meaning self.now).next (state keeper.old kept.now) place)) };

    /// A number that differs only where states do not count as one.
    fn key(&self, keeper: &Self::Keeper, kept: &Self::Kept) -> u64
        requires { Holds keeper.now kept.now }
        ensures { result ≡ (meaning self.now).key (state keeper.now kept.now) };

    /// Whether two states count as one.
    fn same(&self, keeper: &Self::Keeper, kept: &Self::Kept, other: &Self::Kept) -> bool
        requires kept { Holds keeper.now kept.now }
        requires other { Holds keeper.now other.now }
        ensures yes { OnTrue result ((meaning self.now).Same (state keeper.now kept.now) (state keeper.now other.now)) }
        ensures no { OnFalse result (¬ (meaning self.now).Same (state keeper.now kept.now) (state keeper.now other.now)) };

    ghost lawful: { (machine : Self) → Lawful (meaning machine) };
}
