ghost use Rattle.std.specs.Prelude.{◌≡◌, ◌+◌, ◌^◌, ◌<◌, [], List, ℕ, nat_eq, map, true, false, IfOk, IfErr};
ghost use Rattle.std.specs.List.{list_all, IsDistinct};
ghost use Rattle.cd_types.specs.declared.entry.TyRef.{TyRef};
ghost use Rattle.cd_types.specs.IsOrdered.{ids_rise_from};
ghost use Rattle.cd_did.specs.Faults.{AreIds};
ghost use Rattle.cd_did.specs.Sorted.{Refuses, row, fits, AreSorted, rows_made};

use crate::targets::{Ended, target_of};
use cd_grammar::Part;
use cd_types::{Entry, Fields, TyRef};
use ic_base::ReadError;

/// Which rows: the fields of a record, or the cases of a variant.
#[derive(Drop)]
pub(crate) enum Rows {
    Fields,
    Cases,
}

fn rows_made(rows: Rows, items: Fields) -> Entry
    ensures { result ≡ rows_made rows items }
{
    match rows {
        Rows::Fields => Entry::Rec(items),
        Rows::Cases => Entry::Var(items),
    }
}

// Whether the ids strictly rise.
fn ids_rise(rows: &[(u32, TyRef)]) -> bool
    ensures { result ≡ ids_rise_from 0 (map (λ f. f.0) rows.now) }
{
    let mut least: u64 = 0;
    for (id, _) in rows {
        let id = u64::from(*id);
        if id < least {
            return false;
        }
        least = id + 1;
    }
    true
}

// The rows are put in the order of their ids. `Refused`: two are equal.
fn sort_rows(rows: &mut Vec<(u32, TyRef)>) -> Result<(), ReadError>
    requires { list_all fits (map (λ r. r.0) rows.old.items) ≡ true }
    ensures ok { IfOk result (λ done. AreSorted rows.old.items rows.new.items) }
    ensures refused { IfErr result (λ e. Refuses e (IsDistinct nat_eq (map (λ r. r.0) rows.old.items) → ⊥)) }
{
    rows.sort_by_key(|row| row.0)?;
    if ids_rise(rows) {
        Ok(())
    } else {
        Err(ReadError::Refused)
    }
}

// The references that stand for the types of some fields. `Refused`: an id is 2^32 or more.
fn add_rows(
    ended: &Ended<'_, '_>,
    fields: &[(u64, Part)],
    rows: &mut Vec<(u32, TyRef)>,
) -> Result<(), ReadError>
    requires { rows.old.items ≡ [] }
    ensures ok { IfOk result (λ done. (rows.new.items ≡ map (row ended.now.names.now.definitions ended.now.ends.now) fields.now) × (list_all fits (map (λ f. f.0) fields.now) ≡ true)) }
    ensures refused { IfErr result (λ e. Refuses e (list_all fits (map (λ f. f.0) fields.now) ≡ false)) }
{
    for (id, part) in fields {
        if *id >= 1 << 32 {
            return Err(ReadError::Refused);
        }
        rows.push((*id as u32, target_of(ended, part)))?;
    }
    Ok(())
}

/// The entry of a record or a variant. `Refused`: two ids are equal, or one is 2^32 or more.
pub(crate) fn fields_of(
    ended: &Ended<'_, '_>,
    rows: Rows,
    fields: &[(u64, Part)],
) -> Result<Entry, ReadError>
    ensures ok { IfOk result (λ entry. ((sorted : List (ℕ × TyRef)) × (entry ≡ rows_made rows sorted) × AreSorted (map (row ended.now.names.now.definitions ended.now.ends.now) fields.now) sorted) × AreIds (map (λ f. f.0) fields.now)) }
    ensures refused { IfErr result (λ e. Refuses e (AreIds (map (λ f. f.0) fields.now) → ⊥)) }
{
    let mut items = Vec::new(ended.alloc);
    match add_rows(ended, fields, &mut items) {
        Ok(()) => match sort_rows(&mut items) {
            Ok(()) => Ok(rows_made(rows, Fields { items })),
            Err(e) => Err(e),
        },
        Err(e) => Err(e),
    }
}
