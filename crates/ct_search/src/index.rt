ghost use Rattle.std.specs.Prelude.{◌≡◌, ◌==◌, ◌++◌, ◌∷◌, [], ℕ, cond, OnOk};
ghost use Rattle.ct_search.specs.Index.{places_under, AreUnderKeys};

use crate::case::Case;
use ic_base::NoMemory;
use std::alloc::Global;
use std::collections::BTreeMap;

/// The places of cases by their keys.
#[derive(Drop)]
pub(crate) struct Index {
    pub(crate) places: BTreeMap<u64, Vec<usize>>,
}

impl Index {
    pub(crate) fn new(alloc: Global) -> Index
        ensures { (key : ℕ) → places_under result.places key ≡ [] }
    {
        Index {
            places: BTreeMap::new(alloc),
        }
    }

    /// The places under a key, from the first.
    pub(crate) fn under(&self, key: u64) -> &[usize]
        ensures { result.now ≡ places_under self.now.places key }
    {
        match self.places.get(&key) {
            Some(places) => places,
            None => &[],
        }
    }

    /// Puts a place after the others under its key.
    pub(crate) fn add(&mut self, alloc: Global, key: u64, place: usize) -> Result<(), NoMemory>
        ensures { OnOk result ((k : ℕ) → places_under self.new.places k ≡ cond (key == k) (places_under self.old.places k ++ place ∷ []) (places_under self.old.places k)) }
    {
        let mut places = match self.places.remove(&key) {
            Some(places) => places,
            None => Vec::new(alloc),
        };
        places.push(place)?;
        self.places.insert(key, places)?;
        Ok(())
    }
}

/// Cases that were met, with their places by their keys.
#[derive(Drop)]
pub(crate) struct Table<K> {
    pub(crate) cases: Vec<Case<K>>,
    pub(crate) index: Index,
}

impl<K: Drop> Table<K> {
    pub(crate) fn new(alloc: Global) -> Table<K>
        ensures none { result.cases.items ≡ [] }
        ensures indexed { AreUnderKeys result.index.places result.cases.items }
    {
        Table {
            cases: Vec::new(alloc),
            index: Index::new(alloc),
        }
    }

    /// Puts a case after the others.
    pub(crate) fn push(&mut self, alloc: Global, case: Case<K>) -> Result<(), NoMemory>
        requires { AreUnderKeys self.old.index.places self.old.cases.items }
        ensures pushed { OnOk result (self.new.cases.items ≡ self.old.cases.items ++ case ∷ []) }
        ensures indexed { OnOk result (AreUnderKeys self.new.index.places self.new.cases.items) }
    {
        self.index.add(alloc, case.key, self.cases.len())?;
        self.cases.push(case)?;
        Ok(())
    }
}
