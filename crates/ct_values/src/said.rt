ghost use Rattle.std.specs.Prelude.{◌≡◌, ◌++◌, ◌∷◌, [], false, Some};
ghost use Rattle.ic_base.specs.Gives.{Gives};
ghost use Rattle.ct_values.specs.Steps.{said_view};
ghost use Rattle.ct_values.specs.Spelled.{is_said, also};

use ct_patterns::Places;
use ic_base::ReadError;
use indexmap::IndexSet;
use std::alloc::Global;

/// The fields of a record that were said: their places, and the id of one without label that would
/// follow.
#[derive(Drop)]
pub(crate) struct Said {
    pub(crate) places: IndexSet<u32>,
    pub(crate) next: u64,
}

impl Said {
    pub(crate) fn new(alloc: Global) -> Said
        ensures { said_view result ≡ ([], 0) }
    {
        Said {
            places: IndexSet::new(alloc),
            next: 0,
        }
    }

    pub(crate) fn next(&self) -> u64
        ensures { result ≡ self.now.next }
    {
        self.next
    }

    #[tactic(auto, using(crate::proofs::PlaceLists::has_place))]
    pub(crate) fn contains(&self, place: u32) -> bool
        ensures { result ≡ is_said place self.now.places.keys }
    {
        self.places.contains(&place)
    }

    /// Adds a place that is not there.
    #[tactic(auto, using(crate::proofs::PlaceLists::put_last))]
    pub(crate) fn push(&mut self, place: u32) -> Result<(), ReadError>
        requires { is_said place self.old.places.keys ≡ false }
        ensures { Gives (λ done. said_view self.new) result (Some (self.old.places.keys ++ place ∷ [], self.old.next)) }
    {
        self.places.insert(place)?;
        Ok(())
    }

    /// Adds a field; `Refused`: it was said.
    pub(crate) fn insert(&mut self, place: u32, id: u32) -> Result<(), ReadError>
        ensures { Gives (λ done. said_view self.new) result (also place id (said_view self.old)) }
    {
        if self.contains(place) {
            return Err(ReadError::Refused);
        }
        self.push(place)?;
        self.next = u64::from(id) + 1;
        Ok(())
    }

    /// The places, in the order in which they were said.
    pub(crate) fn places(&self, alloc: Global) -> Result<Places, ReadError>
        ensures { Gives (λ places. places.items.items) result (Some self.now.places.keys) }
    {
        let items = Vec::from_slice(alloc, self.places.as_slice())?;
        Ok(Places { items })
    }
}
