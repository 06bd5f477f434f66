ghost use Rattle.std.specs.Prelude.{◌≡◌, ◌≤◌, ◌↔◌, List, true, length, IfOk};
ghost use Rattle.std.specs.List.{list_all};
ghost use Rattle.cd_types.specs.IsInside.{is_inside};
ghost use Rattle.cd_codec.specs.AreValues.{HasTypes};
ghost use Rattle.cd_codec.specs.Content.{Content};
ghost use Rattle.cd_part.specs.IsPart.{IsPart};

use crate::meeting::met_from;
use crate::renaming::{renamed_entries, renamed_types};
use cd_codec::Expected;
use cd_types::{TyRef, TypeTable};
use ic_base::NoMemory;
use std::alloc::Global;

/// The part of a table that some types need, as a table and types of its own.
fn table_and_types(
    alloc: Global,
    table: &TypeTable,
    types: &[TyRef],
) -> Result<(TypeTable, Vec<TyRef>), NoMemory>
    requires { list_all (is_inside (length table.now)) types.now ≡ true }
    ensures { IfOk result (λ part. IsPart table.now types.now (part.0, part.1.items)) }
{
    let meeting = met_from(alloc, table, types)?;
    let entries = renamed_entries(alloc, &meeting)?;
    let types = renamed_types(alloc, &meeting, types)?;
    match TypeTable::new(entries) {
        Ok(table) => Ok((table, types)),
        Err(_) => unreachable!(),
    }
}

/// The part of a table that at most 10,000 types need, for a message that carries no other entries:
/// a table of the entries that are met from the types, numbered as they are met (an entry, then
/// its parts from the left), and the types. Time and memory grow with the table and the types.
pub fn part_of(alloc: Global, table: &TypeTable, types: &[TyRef]) -> Result<Expected, NoMemory>
    requires inside { list_all (is_inside (length table.now)) types.now ≡ true }
    requires few { length types.now ≤ 10000 }
    ensures part { IfOk result (IsPart table.now types.now) }
    // Its types have the values that the types have, and no others, so `encode` takes these.
    ensures values { IfOk result (λ part. (values : List Content) → HasTypes part.0 part.1 values ↔ HasTypes table.now types.now values) }
{
    let (entries, references) = table_and_types(alloc, table, types)?;
    Ok(Expected::of(entries, references))
}
