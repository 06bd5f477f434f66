use cd_types::*;
use ic_base::NoMemory;
use ic_principal::{Bytes, Text};
use std::alloc::Global;

/// An entry of a table, in few words.
pub(crate) enum Sketch {
    Opt(TyRef),
    Vec(TyRef),
    Record(&'static [(u32, TyRef)]),
    Variant(&'static [(u32, TyRef)]),
    /// Arguments, results and annotations.
    Func(&'static [TyRef], &'static [TyRef], &'static [u8]),
    /// Names of methods, each with the place of its type.
    Service(&'static [(&'static str, u32)]),
}

pub(crate) fn fields(alloc: Global, items: &[(u32, TyRef)]) -> Result<Fields, NoMemory> {
    Ok(Fields {
        items: Vec::from_slice(alloc, items)?,
    })
}

fn types(alloc: Global, items: &[TyRef]) -> Result<TyRefs, NoMemory> {
    Ok(TyRefs {
        items: Vec::from_slice(alloc, items)?,
    })
}

fn func(alloc: Global, args: &[TyRef], results: &[TyRef], notes: &[u8]) -> Result<Entry, NoMemory> {
    let args = types(alloc, args)?;
    let results = types(alloc, results)?;
    let notes = Bytes {
        items: Vec::from_slice(alloc, notes)?,
    };
    Ok(Entry::Func {
        args,
        results,
        notes,
    })
}

fn methods(
    alloc: Global,
    methods: &[(&str, u32)],
    items: &mut Vec<(Text, TyRef)>,
) -> Result<(), NoMemory> {
    for (name, index) in methods {
        let name = Text {
            items: String::from_str(alloc, name)?,
        };
        items.push((name, TyRef::Index(*index)))?;
    }
    Ok(())
}

fn service(alloc: Global, names: &[(&str, u32)]) -> Result<Entry, NoMemory> {
    let mut items = Vec::new(alloc);
    match methods(alloc, names, &mut items) {
        Ok(()) => Ok(Entry::Service(Methods { items })),
        Err(error) => Err(error),
    }
}

fn entry(alloc: Global, sketch: &Sketch) -> Result<Entry, NoMemory> {
    match sketch {
        Sketch::Opt(ty) => Ok(Entry::Opt(*ty)),
        Sketch::Vec(ty) => Ok(Entry::Seq(*ty)),
        Sketch::Record(items) => Ok(Entry::Rec(fields(alloc, items)?)),
        Sketch::Variant(items) => Ok(Entry::Var(fields(alloc, items)?)),
        Sketch::Func(args, results, notes) => func(alloc, args, results, notes),
        Sketch::Service(methods) => service(alloc, methods),
    }
}

fn extend(alloc: Global, sketches: &[Sketch], entries: &mut Vec<Entry>) -> Result<(), NoMemory> {
    for sketch in sketches {
        let entry = entry(alloc, sketch)?;
        entries.push(entry)?;
    }
    Ok(())
}

/// The entries, that many times.
pub(crate) fn entries(
    alloc: Global,
    sketches: &[Sketch],
    times: usize,
) -> Result<Vec<Entry>, NoMemory> {
    let mut entries = Vec::new(alloc);
    for _ in 0..times {
        extend(alloc, sketches, &mut entries)?;
    }
    Ok(entries)
}

/// The table of the entries.
pub(crate) fn table_of(alloc: Global, sketches: &[Sketch]) -> Option<TypeTable> {
    match entries(alloc, sketches, 1) {
        Ok(entries) => TypeTable::new(entries).ok(),
        Err(_) => None,
    }
}
