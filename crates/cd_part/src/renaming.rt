ghost use Rattle.std.specs.Prelude.{◌≡◌, map, Some, true, is_some, slice_get, IfOk};
ghost use Rattle.std.specs.List.{list_all};
ghost use Rattle.cd_part.specs.Places.{renamed, renamed_under, renamed_entry};
ghost use Rattle.cd_part.specs.IsPart.{entries_at};

use crate::meeting::Meeting;
use cd_types::{Entry, Fields, Methods, TyRef, TyRefs};
use ic_base::NoMemory;
use ic_principal::Text;
use std::alloc::Global;

/// Types by the places at which their entries were met.
pub(crate) fn renamed_types(
    alloc: Global,
    meeting: &Meeting<'_>,
    types: &[TyRef],
) -> Result<Vec<TyRef>, NoMemory>
    ensures { IfOk result (λ made. made.items ≡ map (renamed meeting.now.1) types.now) }
{
    let mut made = Vec::with_capacity(alloc, types.len())?;
    for ty in types {
        made.push(meeting.renamed(*ty))?;
    }
    Ok(made)
}

fn renamed_fields(
    alloc: Global,
    meeting: &Meeting<'_>,
    fields: &[(u32, TyRef)],
) -> Result<Fields, NoMemory>
    ensures { IfOk result (λ made. made ≡ renamed_under meeting.now.1 fields.now) }
{
    let mut items = Vec::with_capacity(alloc, fields.len())?;
    for (id, ty) in fields {
        items.push((*id, meeting.renamed(*ty)))?;
    }
    Ok(Fields { items })
}

fn renamed_methods(
    alloc: Global,
    meeting: &Meeting<'_>,
    methods: &[(Text, TyRef)],
) -> Result<Methods, NoMemory>
    ensures { IfOk result (λ made. made ≡ renamed_under meeting.now.1 methods.now) }
{
    let mut items = Vec::with_capacity(alloc, methods.len())?;
    for (name, ty) in methods {
        let name = name.copy()?;
        items.push((name, meeting.renamed(*ty)))?;
    }
    Ok(Methods { items })
}

fn renamed_entry(alloc: Global, meeting: &Meeting<'_>, entry: &Entry) -> Result<Entry, NoMemory>
    ensures { IfOk result (λ made. made ≡ renamed_entry meeting.now.1 entry.now) }
{
    match entry {
        Entry::Opt(ty) => Ok(Entry::Opt(meeting.renamed(*ty))),
        Entry::Seq(ty) => Ok(Entry::Seq(meeting.renamed(*ty))),
        Entry::Rec(fields) => Ok(Entry::Rec(renamed_fields(alloc, meeting, &fields.items)?)),
        Entry::Var(cases) => Ok(Entry::Var(renamed_fields(alloc, meeting, &cases.items)?)),
        Entry::Func {
            args,
            results,
            notes,
        } => {
            let args = TyRefs {
                items: renamed_types(alloc, meeting, &args.items)?,
            };
            let results = TyRefs {
                items: renamed_types(alloc, meeting, &results.items)?,
            };
            let notes = notes.copy()?;
            Ok(Entry::Func {
                args,
                results,
                notes,
            })
        }
        Entry::Service(methods) => Ok(Entry::Service(renamed_methods(
            alloc,
            meeting,
            &methods.items,
        )?)),
    }
}

/// The entries that were met, in the order of meeting, by these places.
pub(crate) fn renamed_entries(alloc: Global, meeting: &Meeting<'_>) -> Result<Vec<Entry>, NoMemory>
    requires { list_all (λ number. is_some (slice_get meeting.now.0 number)) meeting.now.1 ≡ true }
    ensures { IfOk result (λ made. entries_at meeting.now.0 meeting.now.1 ≡ map (λ entry. Some entry) made.items) }
{
    let table = meeting.table();
    let met = meeting.met();
    let mut made = Vec::new(alloc);
    for number in met {
        if let Some(entry) = table.entry(*number) {
            made.push(renamed_entry(alloc, meeting, entry)?)?;
        }
    }
    Ok(made)
}
