ghost use Rattle.std.specs.Prelude.{◌≡◌, ◌||◌, ℕ, IfOk, OnOk};
ghost use Rattle.std.specs.BTreeSet.{contains};
ghost use Rattle.std.specs.Ordering.{nat_cmp};
ghost use Rattle.cd_names.specs.Names.{is_among, has_id, is_used};

use cd_types::{Entry, TyRef, TypeTable};
use ic_base::NoMemory;
use std::alloc::Global;
use std::collections::BTreeSet;

fn add_fields(fields: &[(u32, TyRef)], ids: &mut BTreeSet<u32>) -> Result<(), NoMemory>
    ensures { OnOk result ((id : ℕ) → contains nat_cmp ids.new id ≡ (contains nat_cmp ids.old id || is_among fields.now id)) }
{
    for (id, _) in fields {
        ids.insert(*id)?;
    }
    Ok(())
}

fn add_entry(entry: &Entry, ids: &mut BTreeSet<u32>) -> Result<(), NoMemory>
    ensures { OnOk result ((id : ℕ) → contains nat_cmp ids.new id ≡ (contains nat_cmp ids.old id || has_id id entry.now)) }
{
    match entry {
        Entry::Rec(fields) | Entry::Var(fields) => add_fields(&fields.items, ids),
        _ => Ok(()),
    }
}

/// The ids that the records and variants of a table have.
pub(crate) fn ids_of(alloc: Global, table: &TypeTable) -> Result<BTreeSet<u32>, NoMemory>
    ensures { IfOk result (λ ids. (id : ℕ) → contains nat_cmp ids id ≡ is_used table.now id) }
{
    let mut ids = BTreeSet::new(alloc);
    for index in 0..table.len() {
        if let Some(entry) = table.entry(index) {
            add_entry(entry, &mut ids)?;
        }
    }
    Ok(ids)
}
