ghost use Rattle.std.specs.Prelude.{◌≡◌, [], OnOk};
ghost use Rattle.ct_scope.specs.Names.{found, put};

use ic_base::NoMemory;
use std::alloc::Global;
use std::collections::BTreeMap;
use std::marker::Model;

/// Values under names. Contracts see both, in the order of the names.
#[derive(Drop)]
pub struct ByName<V> {
    values: BTreeMap<Vec<u8>, V>,
}

impl<V> Model for ByName<V> {
    ghost use Rattle.ct_scope.specs.Names.{Named, pairs};

    ghost Value = { Named V };

    ghost view = { λ n. pairs n.values.entries };
}

impl<V> ByName<V> {
    /// No names.
    pub fn new(alloc: Global) -> ByName<V>
        ensures { result ≡ [] }
    {
        ByName {
            values: BTreeMap::new(alloc),
        }
    }

    /// The value under a name. Time grows with the logarithm of the number of names.
    pub fn get(&self, name: &[u8]) -> Option<V>
    where
        V: Copy,
        ensures { result ≡ found self.now name.now }
    {
        self.values.get(name).copied()
    }

    /// Puts a value under a name, in place of the one that is there.
    pub fn put(&mut self, alloc: Global, name: &[u8], value: V) -> Result<(), NoMemory>
    where
        V: Drop,
        ensures { OnOk result (self.new ≡ put self.old name.now value) }
    {
        self.values.insert(Vec::from_slice(alloc, name)?, value)?;
        Ok(())
    }
}
