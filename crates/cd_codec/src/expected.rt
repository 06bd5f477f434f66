ghost use Rattle.std.specs.Prelude.{◌≡◌, ◌≤◌, length, true};
ghost use Rattle.std.specs.List.{list_all};
ghost use Rattle.cd_types.specs.IsInside.{is_inside};

use cd_types::{TyRef, TypeTable};
use std::marker::Model;

/// The types at which a message is read: a type table, and the types of the arguments. Contracts
/// see the table's entries and the list of the types.
#[derive(Drop)]
pub struct Expected {
    table: TypeTable,
    types: Vec<TyRef>,
}

impl Model for Expected {
    ghost use Rattle.std.specs.Prelude.{◌≡◌, ◌≤◌, List, length, true};
    ghost use Rattle.std.specs.List.{list_all};
    ghost use Rattle.cd_types.specs.IsInside.{is_inside};
    ghost use Rattle.cd_types.specs.declared.entry.TyRef.{TyRef};
    ghost use Rattle.cd_types.specs.declared.entry.Entry.{Entry};

    ghost Value = { List Entry × List TyRef };

    ghost view = { λ e. (e.table, e.types.items) };

    ghost invariant = { λ e. (list_all (is_inside (length e.table)) e.types.items ≡ true) × (length e.types.items ≤ 10000) };
}

impl Expected {
    /// The types of at most 10,000 arguments, each of which is inside the table.
    pub fn of(table: TypeTable, types: Vec<TyRef>) -> Expected
        requires inside { list_all (is_inside (length table)) types.items ≡ true }
        requires few { length types.items ≤ 10000 }
        ensures { result ≡ (table, types.items) }
    {
        Expected { table, types }
    }

    /// The type table.
    pub fn table(&self) -> &TypeTable
        ensures { result.now ≡ self.now.0 }
    {
        &self.table
    }

    /// The types of the arguments.
    pub fn types(&self) -> &[TyRef]
        ensures value { result.now ≡ self.now.1 }
        ensures inside { list_all (is_inside (length self.now.0)) self.now.1 ≡ true }
        ensures few { length self.now.1 ≤ 10000 }
    {
        &self.types
    }
}
