ghost use Rattle.std.specs.Prelude.{◌≡◌, Some, None, length, slice_get, IfOk, IfErr, IsTrue, OnOk, OnErr, false};
ghost use Rattle.std.specs.Option.{option_copied};
ghost use Rattle.cd_types.specs.IsInside.{is_inside};
ghost use Rattle.cd_types.specs.IsTable.{is_table};
ghost use Rattle.cd_types.specs.FaultOf.{fault_of};

use crate::entry::{Entry, TyRef};
use crate::faults::first_fault;
use std::marker::Model;

/// Why entries are no type table. `entry` is the place of the least faulty entry, and of its
/// faults the first in this order.
#[derive(Clone, Copy, Debug, PartialEq, Eq)]
pub enum TableFault {
    /// There are more than 10,000 entries.
    TooMany,
    /// A reference names no entry.
    BadIndex { entry: u32 },
    /// Ids or method names do not strictly rise, or a note is not 1, 2 or 3.
    Order { entry: u32 },
    /// A method's type is not a `Func` entry.
    NotFunc { entry: u32 },
}

/// A type table that is well formed. Contracts see the list of its entries.
#[derive(Debug, Drop)]
pub struct TypeTable {
    entries: Vec<Entry>,
}

impl Model for TypeTable {
    ghost use Rattle.std.specs.Prelude.{List, IsTrue};
    ghost use Rattle.cd_types.specs.declared.entry.Entry.{Entry};
    ghost use Rattle.cd_types.specs.IsTable.{is_table};

    ghost Value = { List Entry };

    ghost view = { λ t. t.entries.items };

    ghost invariant = { λ t. IsTrue (is_table t.entries.items) };
}

impl TypeTable {
    /// The table of these entries.
    #[tactic(auto, using(crate::proofs::FaultLemmas::is_table_without_fault, crate::proofs::FaultLemmas::no_table_with_fault))]
    pub fn new(entries: Vec<Entry>) -> Result<TypeTable, TableFault>
        ensures ok { IfOk result (λ table. table ≡ entries.items) }
        ensures well_formed { IfOk result (λ table. IsTrue (is_table table)) }
        ensures fault { IfErr result (λ fault. fault_of entries.items ≡ Some fault) }
        ensures no_fault { OnOk result (fault_of entries.items ≡ None) }
        ensures no_table { OnErr result (is_table entries.items ≡ false) }
    {
        match first_fault(&entries) {
            Some(fault) => Err(fault),
            None => Ok(TypeTable { entries }),
        }
    }

    /// The entry at this place, counted from 0.
    pub fn entry(&self, index: u32) -> Option<&Entry>
        ensures value { option_copied result ≡ slice_get self.now index }
        ensures well_formed { IsTrue (is_table self.now) }
    {
        self.entries.get(index as usize)
    }

    /// Whether the reference is inside the table.
    pub fn contains(&self, ty: TyRef) -> bool
        ensures { result ≡ is_inside (length self.now) ty }
    {
        ty.is_inside(self.entries.len())
    }

    /// The number of entries, at most 10,000.
    pub fn len(&self) -> u32
        ensures value { result ≡ length self.now }
        ensures well_formed { IsTrue (is_table self.now) }
    {
        self.entries.len() as u32
    }
}
