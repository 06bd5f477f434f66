ghost use Rattle.std.specs.Prelude.{◌≡◌, ◌^◌, nat_lt};
ghost use Rattle.std.specs.List.{sum_by};
ghost use Rattle.ic_base.specs.Gives.{Gives};
ghost use Rattle.wm_decode.specs.Readers.{import_kind_at, import_at, global_at, export_kind_at, export_at, element_at, run_at, few_locals, func_at, code_at, segment_at};

use crate::exprs::expr;
use crate::profile::Profile;
use crate::types::{global_type, limits, table_type, val_type};
use crate::values::{byte, list, name, number, vec_bytes};
use ic_base::{Item, ReadError};
use std::alloc::Global;
use wm_tree::{
    Data, Element, Export, ExportKind, FuncCode, GlobalDef, Import, ImportKind, Indices, Run, Runs,
    Segment,
};

/// Reads what is imported.
#[tactic(auto, unfolding(crate::specs::Readers::import_kind_at))]
fn import_kind(profile: Profile, bytes: &[u8]) -> Result<(ImportKind, &[u8]), ReadError>
    ensures { Gives (λ x. (x.0, x.1.now)) result (import_kind_at profile.float bytes.now) }
{
    let (tag, rest) = byte(bytes)?;
    match tag {
        0x00 => {
            let (index, rest) = number(rest)?;
            Ok((ImportKind::Function(index), rest))
        }
        0x01 => {
            let (table, rest) = table_type(rest)?;
            Ok((ImportKind::Table(table), rest))
        }
        0x02 => {
            let (memory, rest) = limits(rest)?;
            Ok((ImportKind::Memory(memory), rest))
        }
        0x03 => {
            let (global, rest) = global_type(profile, rest)?;
            Ok((ImportKind::Global(global), rest))
        }
        _ => Err(ReadError::Refused),
    }
}

impl Item<Profile> for Import {
    ghost reading = { λ p. import_at p.float };

    #[tactic(auto, unfolding(crate::specs::Readers::import_at))]
    fn read<'a>(
        alloc: Global,
        context: &Profile,
        bytes: &'a [u8],
    ) -> Result<(Import, &'a [u8]), ReadError> {
        let (module, rest) = name(alloc, bytes)?;
        let (name, rest) = name(alloc, rest)?;
        let (kind, rest) = import_kind(*context, rest)?;
        Ok((Import { module, name, kind }, rest))
    }
}

impl Item<Profile> for GlobalDef {
    ghost reading = { λ p. global_at p.float };

    #[tactic(auto, unfolding(crate::specs::Readers::global_at))]
    fn read<'a>(
        alloc: Global,
        context: &Profile,
        bytes: &'a [u8],
    ) -> Result<(GlobalDef, &'a [u8]), ReadError> {
        let (kind, rest) = global_type(*context, bytes)?;
        let (init, rest) = expr(alloc, *context, rest)?;
        Ok((GlobalDef { kind, init }, rest))
    }
}

/// Reads what is exported.
#[tactic(auto, unfolding(crate::specs::Readers::export_kind_at))]
fn export_kind(bytes: &[u8]) -> Result<(ExportKind, &[u8]), ReadError>
    ensures { Gives (λ x. (x.0, x.1.now)) result (export_kind_at bytes.now) }
{
    let (tag, rest) = byte(bytes)?;
    match tag {
        0x00 => {
            let (index, rest) = number(rest)?;
            Ok((ExportKind::Function(index), rest))
        }
        0x01 => {
            let (index, rest) = number(rest)?;
            Ok((ExportKind::Table(index), rest))
        }
        0x02 => {
            let (index, rest) = number(rest)?;
            Ok((ExportKind::Memory(index), rest))
        }
        0x03 => {
            let (index, rest) = number(rest)?;
            Ok((ExportKind::Global(index), rest))
        }
        _ => Err(ReadError::Refused),
    }
}

impl Item<Profile> for Export {
    ghost reading = { λ _. export_at };

    #[tactic(auto, unfolding(crate::specs::Readers::export_at))]
    fn read<'a>(
        alloc: Global,
        _context: &Profile,
        bytes: &'a [u8],
    ) -> Result<(Export, &'a [u8]), ReadError> {
        let (name, rest) = name(alloc, bytes)?;
        let (kind, rest) = export_kind(rest)?;
        Ok((Export { name, kind }, rest))
    }
}

impl Item<Profile> for Element {
    ghost reading = { λ p. element_at p.float };

    #[tactic(auto, unfolding(crate::specs::Readers::element_at))]
    fn read<'a>(
        alloc: Global,
        context: &Profile,
        bytes: &'a [u8],
    ) -> Result<(Element, &'a [u8]), ReadError> {
        let (table, rest) = number(bytes)?;
        let (offset, rest) = expr(alloc, *context, rest)?;
        let (items, rest) = list(alloc, context, rest)?;
        let functions = Indices { items };
        Ok((
            Element {
                table,
                offset,
                functions,
            },
            rest,
        ))
    }
}

impl Item<Profile> for Run {
    ghost reading = { λ p. run_at p.float };

    #[tactic(auto, unfolding(crate::specs::Readers::run_at))]
    fn read<'a>(
        _alloc: Global,
        context: &Profile,
        bytes: &'a [u8],
    ) -> Result<(Run, &'a [u8]), ReadError> {
        let (count, rest) = number(bytes)?;
        let (kind, rest) = val_type(*context, rest)?;
        Ok((Run { count, kind }, rest))
    }
}

/// Whether the locals are fewer than 2^32.
fn are_few(locals: &[Run]) -> bool
    ensures { result ≡ nat_lt (sum_by (λ r. r.count) locals.now) (2 ^ 32) }
{
    let mut left = u32::MAX;
    for run in locals {
        if left < run.count {
            return false;
        }
        left -= run.count;
    }
    true
}

/// Reads a function's locals and body.
#[tactic(auto, unfolding(crate::specs::Readers::func_at))]
fn func<'a>(
    alloc: Global,
    profile: Profile,
    bytes: &'a [u8],
) -> Result<(FuncCode, &'a [u8]), ReadError>
    ensures { Gives (λ x. (x.0, x.1.now)) result (func_at profile.float bytes.now) }
{
    let (locals, rest) = list(alloc, &profile, bytes)?;
    let (body, rest) = expr(alloc, profile, rest)?;
    if !are_few(&locals) {
        return Err(ReadError::Refused);
    }
    let locals = Runs { items: locals };
    Ok((FuncCode { locals, body }, rest))
}

impl Item<Profile> for FuncCode {
    ghost reading = { λ p. code_at p.float };

    #[tactic(auto, unfolding(crate::specs::Readers::code_at))]
    fn read<'a>(
        alloc: Global,
        context: &Profile,
        bytes: &'a [u8],
    ) -> Result<(FuncCode, &'a [u8]), ReadError> {
        let (size, rest) = number(bytes)?;
        let size = size as usize;
        if rest.len() < size {
            return Err(ReadError::Refused);
        }
        let (content, after) = rest.split_at(size);
        let (code, rest) = func(alloc, *context, content)?;
        if !rest.is_empty() {
            return Err(ReadError::Refused);
        }
        Ok((code, after))
    }
}

impl Item<Profile> for Segment {
    ghost reading = { λ p. segment_at p.float };

    #[tactic(auto, unfolding(crate::specs::Readers::segment_at))]
    fn read<'a>(
        alloc: Global,
        context: &Profile,
        bytes: &'a [u8],
    ) -> Result<(Segment, &'a [u8]), ReadError> {
        let (memory, rest) = number(bytes)?;
        let (offset, rest) = expr(alloc, *context, rest)?;
        let (items, rest) = vec_bytes(rest)?;
        let bytes = Data {
            items: Vec::from_slice(alloc, items)?,
        };
        Ok((
            Segment {
                memory,
                offset,
                bytes,
            },
            rest,
        ))
    }
}
