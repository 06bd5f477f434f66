ghost use Rattle.std.specs.Prelude.{◌≡◌, ◌<◌, ◌^◌, ◌++◌, false, length, All, OnOk, IfOk};
ghost use Rattle.std.specs.List.{flat_map};
ghost use Rattle.wm_decode.specs.Mod.{Mod};
ghost use Rattle.ic_leb.specs.Spelling.{unsigned_spelling};
ghost use Rattle.wm_encode.specs.Fits.{Fits, ShortParts};
ghost use Rattle.wm_encode.specs.Types.{func_type, table_type, limits};
ghost use Rattle.wm_encode.specs.Parts.{import, global, export, element, code, segment};
ghost use Rattle.wm_encode.specs.Ranges.{Is32, IsMaybe32, RangedLimits, RangedImport, RangedGlobal, RangedExport, RangedElement, RangedCode, RangedSegment, Ranged};
ghost use Rattle.wm_encode.specs.Values.{vec};
ghost use Rattle.wm_encode.specs.Whole.{part, start_part, section, sections, whole};

use crate::item::{Encode, InTable, list_size, write_list};
use ic_base::NoMemory;
use ic_leb::{size_u, write_u};
use ic_principal::Bytes;
use std::alloc::Global;
use wm_tree::Module;

/// The magic bytes and the version.
const MAGIC: [u8; 8] = *b"\0asm\x01\0\0\0";

// Appends the section of a list, where there is one.
fn write_part<C, T: Encode<C>>(id: u8, items: &[T], out: &mut Vec<u8>) -> Result<(), NoMemory>
    requires { length (vec T.bytes items.now) < 2 ^ 63 }
    ensures written { OnOk result (out.new.items ≡ out.old.items ++ flat_map section (part id T.bytes items.now)) }
    ensures ranged { OnOk result (All T.Ranged items.now) }
{
    if !items.is_empty() {
        out.push(id)?;
        write_u(list_size(items) as u128, out)?;
        write_list(items, out)?;
    }
    Ok(())
}

// Appends the section of the start function, where there is one.
fn write_start(start: &Option<u32>, out: &mut Vec<u8>) -> Result<(), NoMemory>
    ensures written { OnOk result (out.new.items ≡ out.old.items ++ flat_map section (start_part start.now)) }
    ensures ranged { OnOk result (IsMaybe32 start.now) }
{
    if let Some(function) = start {
        out.push(8)?;
        let function = u128::from(*function);
        write_u(size_u(function) as u128, out)?;
        write_u(function, out)?;
    }
    Ok(())
}

// Appends the sections of function types, imports, functions.
fn write_signatures(module: &Module, out: &mut Vec<u8>) -> Result<(), NoMemory>
    requires { ShortParts «module».now }
    ensures written { OnOk result (out.new.items ≡ out.old.items ++ flat_map section (part 1 func_type «module».now.types ++ (part 2 import «module».now.imports ++ (part 3 unsigned_spelling «module».now.functions)))) }
    ensures imports { OnOk result (All RangedImport «module».now.imports) }
    ensures functions { OnOk result (All Is32 «module».now.functions) }
{
    write_part::<(), _>(1, &module.types.items, out)?;
    write_part::<(), _>(2, &module.imports.items, out)?;
    write_part::<(), _>(3, &module.functions.items, out)?;
    Ok(())
}

// Appends the sections of tables, memories, globals.
fn write_spaces(module: &Module, out: &mut Vec<u8>) -> Result<(), NoMemory>
    requires { ShortParts «module».now }
    ensures written { OnOk result (out.new.items ≡ out.old.items ++ flat_map section (part 4 table_type «module».now.tables ++ (part 5 limits «module».now.memories ++ (part 6 global «module».now.globals)))) }
    ensures tables { OnOk result (All RangedLimits «module».now.tables) }
    ensures memories { OnOk result (All RangedLimits «module».now.memories) }
    ensures globals { OnOk result (All RangedGlobal «module».now.globals) }
{
    write_part::<InTable, _>(4, &module.tables.items, out)?;
    write_part::<(), _>(5, &module.memories.items, out)?;
    write_part::<(), _>(6, &module.globals.items, out)?;
    Ok(())
}

// Appends the sections of exports, start function, elements.
fn write_entries(module: &Module, out: &mut Vec<u8>) -> Result<(), NoMemory>
    requires { ShortParts «module».now }
    ensures written { OnOk result (out.new.items ≡ out.old.items ++ flat_map section (part 7 export «module».now.exports ++ (start_part «module».now.start ++ (part 9 element «module».now.elements)))) }
    ensures exports { OnOk result (All RangedExport «module».now.exports) }
    ensures start { OnOk result (IsMaybe32 «module».now.start) }
    ensures elements { OnOk result (All RangedElement «module».now.elements) }
{
    write_part::<(), _>(7, &module.exports.items, out)?;
    write_start(&module.start, out)?;
    write_part::<(), _>(9, &module.elements.items, out)?;
    Ok(())
}

// Appends the sections of codes, data.
fn write_contents(module: &Module, out: &mut Vec<u8>) -> Result<(), NoMemory>
    requires { ShortParts «module».now }
    ensures written { OnOk result (out.new.items ≡ out.old.items ++ flat_map section (part 10 code «module».now.codes ++ (part 11 segment «module».now.segments))) }
    ensures codes { OnOk result (All RangedCode «module».now.codes) }
    ensures segments { OnOk result (All RangedSegment «module».now.segments) }
{
    write_part::<(), _>(10, &module.codes.items, out)?;
    write_part::<(), _>(11, &module.segments.items, out)?;
    Ok(())
}

// Appends the sections in the order of their ids.
fn write_sections(module: &Module, out: &mut Vec<u8>) -> Result<(), NoMemory>
    requires { ShortParts «module».now }
    ensures written { OnOk result (out.new.items ≡ out.old.items ++ flat_map section (sections «module».now)) }
    ensures ranged { OnOk result (Ranged «module».now) }
{
    write_signatures(module, out)?;
    write_spaces(module, out)?;
    write_entries(module, out)?;
    write_contents(module, out)?;
    Ok(())
}

/// Writes a WebAssembly module (Core 1.0, chapter 5). Time grows with the bytes, and memory is taken
/// for them alone.
pub fn encode(alloc: Global, module: &Module) -> Result<Bytes, NoMemory>
    requires { Fits «module».now }
    // The bytes: no custom section, no data count, no empty section, each number in its shortest spelling.
    ensures bytes { IfOk result (λ out. out ≡ whole «module».now) }
    ensures grammar { IfOk result (λ out. Mod false «module».now out) }
{
    let mut items = Vec::from_slice(alloc, &MAGIC)?;
    write_sections(module, &mut items)?;
    Ok(Bytes { items })
}
