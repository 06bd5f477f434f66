ghost use Rattle.std.specs.Prelude.{◌≡◌, ◌==◌, ℕ, [], Some, None, if◌then◌else◌, IfSome, OnOk};
ghost use Rattle.std.specs.Option.{option_copied, option_or};
ghost use Rattle.cd_types.specs.FieldId.{field_id_of};
ghost use Rattle.cd_names.specs.Names.{name_for, HaveIds, AreTexts};

use cd_types::field_id;
use ic_base::NoMemory;
use ic_principal::Text;
use std::alloc::Global;
use std::collections::BTreeMap;
use std::marker::Model;

/// Names for ids of fields and cases, at most one for each id. Contracts see the ids, in rising
/// order, with their names.
#[derive(Drop)]
pub struct FieldNames {
    names: BTreeMap<u32, Text>,
}

impl Model for FieldNames {
    ghost use Rattle.cd_names.specs.Names.{IdNames, HaveIds, AreTexts};

    ghost Value = { IdNames };

    ghost view = { λ n. n.names.entries };

    ghost invariant = { λ n. HaveIds n.names.entries × AreTexts n.names.entries };
}

impl FieldNames {
    pub(crate) fn new(alloc: Global) -> FieldNames
        ensures { result ≡ [] }
    {
        FieldNames {
            names: BTreeMap::new(alloc),
        }
    }

    /// The name for an id, whose id it is. Time grows with the logarithm of the number of names.
    pub fn name(&self, id: u32) -> Option<&str>
        ensures value { option_copied result ≡ name_for self.now id }
        ensures id { IfSome result (λ name. field_id_of name.now ≡ id) }
        // What holds of all names that are there.
        ensures ids { HaveIds self.now }
        ensures texts { AreTexts self.now }
    {
        match self.names.get(&id) {
            None => None,
            Some(name) => Some(name.items.as_str()),
        }
    }

    /// Adds a name, unless its id has one.
    pub(crate) fn add(&mut self, name: Text) -> Result<(), NoMemory>
        ensures { OnOk result ((id : ℕ) → name_for self.new id ≡ option_or (name_for self.old id) (if field_id_of name == id then Some name else None)) }
    {
        let id = field_id(name.items.as_str());
        if !self.names.contains_key(&id) {
            self.names.insert(id, name)?;
        }
        Ok(())
    }
}
