ghost use Rattle.std.specs.Prelude.{◌≡◌, map, true};
ghost use Rattle.std.specs.List.{list_all};
ghost use Rattle.std.specs.Str.{is_utf8};
ghost use Rattle.cd_types.specs.IsInside.{is_inside};
ghost use Rattle.cd_types.specs.IsOrdered.{ids_rise_from, names_rise, names_rise_after, is_note, is_ordered};
ghost use Rattle.cd_types.specs.IsTable.{names_inside, is_func_at, has_funcs};
ghost use Rattle.cd_types.specs.FaultOf.{entry_fault, fault_of};

use crate::entry::{Entry, TyRef};
use crate::table::TableFault;
use ic_principal::Text;

/// The number of entries that a table may have.
const MAX_ENTRIES: usize = 10_000;

fn types_inside(count: usize, types: &[TyRef]) -> bool
    ensures { result ≡ list_all (is_inside count) types.now }
{
    types.iter().all(|ty| ty.is_inside(count))
}

fn fields_inside(count: usize, fields: &[(u32, TyRef)]) -> bool
    ensures { result ≡ list_all (is_inside count) (map (λ f. f.1) fields.now) }
{
    fields
        .iter()
        .map(|field| field.1)
        .all(|ty| ty.is_inside(count))
}

fn methods_inside(count: usize, methods: &[(Text, TyRef)]) -> bool
    ensures { result ≡ list_all (is_inside count) (map (λ m. m.1) methods.now) }
{
    methods
        .iter()
        .map(|method| method.1)
        .all(|ty| ty.is_inside(count))
}

fn names_inside(count: usize, entry: &Entry) -> bool
    ensures { result ≡ names_inside count entry.now }
{
    match entry {
        Entry::Opt(ty) | Entry::Seq(ty) => ty.is_inside(count),
        Entry::Rec(fields) | Entry::Var(fields) => fields_inside(count, &fields.items),
        Entry::Func { args, results, .. } => {
            types_inside(count, &args.items) && types_inside(count, &results.items)
        }
        Entry::Service(methods) => methods_inside(count, &methods.items),
    }
}

fn ids_rise(fields: &[(u32, TyRef)]) -> bool
    ensures { result ≡ ids_rise_from 0 (map (λ f. f.0) fields.now) }
{
    let mut least: u64 = 0;
    for (id, _) in fields {
        let id = u64::from(*id);
        if id < least {
            return false;
        }
        least = id + 1;
    }
    true
}

fn text_of(name: &Text) -> &str
    ensures value { result.now ≡ name.now }
    ensures utf8 { is_utf8 name.now ≡ true }
{
    let text = name.items.as_str();
    let _bytes = text.as_bytes();
    text
}

fn names_rise_after(last: &Text, methods: &[(Text, TyRef)]) -> bool
    ensures { result ≡ names_rise_after last.now (map (λ m. m.0) methods.now) }
{
    let mut last = last;
    for (name, _) in methods {
        if text_of(last) >= text_of(name) {
            return false;
        }
        last = name;
    }
    true
}

fn names_rise(methods: &[(Text, TyRef)]) -> bool
    ensures { result ≡ names_rise (map (λ m. m.0) methods.now) }
{
    match methods {
        [] => true,
        [(first, _), rest @ ..] => {
            let _utf8 = text_of(first);
            names_rise_after(first, rest)
        }
    }
}

fn are_notes(notes: &[u8]) -> bool
    ensures { result ≡ list_all is_note notes.now }
{
    notes.iter().all(|note| 1 <= *note && *note <= 3)
}

fn is_ordered(entry: &Entry) -> bool
    ensures { result ≡ is_ordered entry.now }
{
    match entry {
        Entry::Opt(_) | Entry::Seq(_) => true,
        Entry::Rec(fields) | Entry::Var(fields) => ids_rise(&fields.items),
        Entry::Func { notes, .. } => are_notes(&notes.items),
        Entry::Service(methods) => names_rise(&methods.items),
    }
}

fn is_func_at(entries: &[Entry], ty: TyRef) -> bool
    ensures { result ≡ is_func_at entries.now ty }
{
    match ty {
        TyRef::Prim(_) => false,
        TyRef::Index(index) => matches!(entries.get(index as usize), Some(Entry::Func { .. })),
    }
}

fn methods_are_funcs(entries: &[Entry], methods: &[(Text, TyRef)]) -> bool
    ensures { result ≡ list_all (λ m. is_func_at entries.now m.1) methods.now }
{
    methods.iter().all(|method| is_func_at(entries, method.1))
}

fn has_funcs(entries: &[Entry], entry: &Entry) -> bool
    ensures { result ≡ has_funcs entries.now entry.now }
{
    match entry {
        Entry::Service(methods) => methods_are_funcs(entries, &methods.items),
        _ => true,
    }
}

fn entry_fault(entries: &[Entry], place: u32, entry: &Entry) -> Option<TableFault>
    ensures { result ≡ entry_fault entries.now place entry.now }
{
    if !names_inside(entries.len(), entry) {
        return Some(TableFault::BadIndex { entry: place });
    }
    if !is_ordered(entry) {
        return Some(TableFault::Order { entry: place });
    }
    if !has_funcs(entries, entry) {
        return Some(TableFault::NotFunc { entry: place });
    }
    None
}

/// Why these entries are no type table, if they are none.
pub(crate) fn first_fault(entries: &[Entry]) -> Option<TableFault>
    ensures { result ≡ fault_of entries.now }
{
    if entries.len() > MAX_ENTRIES {
        return Some(TableFault::TooMany);
    }
    for (place, entry) in entries.iter().enumerate() {
        if let Some(fault) = entry_fault(entries, place as u32, entry) {
            return Some(fault);
        }
    }
    None
}
