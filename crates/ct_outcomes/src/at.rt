ghost use Rattle.std.specs.Prelude.{◌≡◌, length};
ghost use Rattle.cd_codec.specs.IsHeader.{are_inside};
ghost use Rattle.ct_outcomes.specs.Answers.{Finds};
ghost use Rattle.ct_outcomes.specs.Arguments.{IsNeeded};
ghost use Rattle.ct_outcomes.specs.Types.{types_at};

use cd_codec::Expected;
use cd_did::Interface;
use cd_part::part_of;
use cd_types::{TyRef, TypeTable};
use ct_scope::InterfaceId;
use ic_base::NoMemory;
use std::alloc::Global;

/// How many values a message has at most.
const MAX_TYPES: usize = 10_000;

/// Types of an interface, at which messages are written and read: references into its table. Messages have no values of
/// references to anything else, or of more than 10,000 types.
#[derive(Clone, Copy)]
pub struct At<'i> {
    pub id: InterfaceId,
    pub interface: &'i Interface,
    pub types: &'i [TyRef],
}

fn are_inside(table: &TypeTable, types: &[TyRef]) -> bool
    ensures { result ≡ are_inside (length table.now) types.now }
{
    types.iter().all(|ty| table.contains(*ty))
}

impl<'i> At<'i> {
    /// The types, in the table of the interface with this id.
    pub fn new(id: InterfaceId, interface: &'i Interface, types: &'i [TyRef]) -> At<'i>
        ensures id { result.id ≡ id }
        ensures types { types_at result ≡ (interface.now.table, types.now) }
    {
        At {
            id,
            interface,
            types,
        }
    }

    /// Which interface it is.
    pub fn id(self) -> InterfaceId
        ensures { result ≡ self.entry.id }
    {
        self.id
    }

    /// The table of the interface.
    pub fn table(self) -> &'i TypeTable
        ensures { result.now ≡ (types_at self.entry).0 }
    {
        &self.interface.table
    }

    /// The types.
    pub fn types(self) -> &'i [TyRef]
        ensures { result.now ≡ (types_at self.entry).1 }
    {
        self.types
    }

    /// The part of the table that the types need, if messages may have values of them.
    pub fn needed(self, alloc: Global) -> Result<Option<Expected>, NoMemory>
        ensures { Finds (λ part. part) (IsNeeded (types_at self.entry)) result }
    {
        let table = self.table();
        let types = self.types();
        let _entries = table.len();
        if !are_inside(table, types) {
            return Ok(None);
        }
        if types.len() > MAX_TYPES {
            return Ok(None);
        }
        Ok(Some(part_of(alloc, table, types)?))
    }
}
