ghost use Rattle.std.specs.Prelude.{◌≡◌, false, IfOk, IfErr, MatchBool, MatchResult};
ghost use Rattle.ic_base.specs.Gives.{Gives};
ghost use Rattle.wm_tree.specs.IsModule.{IsModule};
ghost use Rattle.wm_tree.specs.declared.parts.Module.{Module as AModule};
ghost use Rattle.wm_decode.specs.Answer.{IsPlain, IsCompressed, RefusedAs, Comes};
ghost use Rattle.wm_decode.specs.Mod.{Mod};
ghost use Rattle.wm_decode.specs.Readers.{agrees, module_in, module_at};

use crate::fault::ModuleFault;
use crate::profile::Profile;
use crate::sections::{Section, after_magic, list_of, number_of, sections};
use crate::types::InTable;
use ic_base::ReadError;
use std::alloc::Global;
use wm_tree::{
    Elements, Exports, FuncCodes, FuncTypes, GlobalDefs, Imports, Indices, LimitsList, Module,
    Segments,
};

/// The largest number of bytes of a module.
const LARGEST: usize = 2_097_152;

/// Whether the number of data segments, where it is written, is theirs.
fn is_counted(count: Option<u32>, segments: usize) -> bool
    ensures { result ≡ agrees count segments }
{
    match count {
        Some(count) => count as usize == segments,
        None => true,
    }
}

/// Reads the module of these sections.
#[tactic(auto, unfolding(crate::specs::Readers::module_in))]
fn module_of(alloc: Global, profile: Profile, sections: &[Section]) -> Result<Module, ReadError>
    ensures { Gives (λ m. m) result (module_in profile.float sections.now) }
{
    let types = list_of(alloc, &profile, sections, 1)?;
    let imports = list_of(alloc, &profile, sections, 2)?;
    let functions = list_of(alloc, &profile, sections, 3)?;
    let tables = list_of(alloc, &InTable, sections, 4)?;
    let memories = list_of(alloc, &profile, sections, 5)?;
    let globals = list_of(alloc, &profile, sections, 6)?;
    let exports = list_of(alloc, &profile, sections, 7)?;
    let start = number_of(sections, 8)?;
    let elements = list_of(alloc, &profile, sections, 9)?;
    let count = number_of(sections, 12)?;
    let codes = list_of(alloc, &profile, sections, 10)?;
    let segments = list_of(alloc, &profile, sections, 11)?;
    if functions.len() != codes.len() || !is_counted(count, segments.len()) {
        return Err(ReadError::Refused);
    }
    Ok(Module {
        types: FuncTypes { items: types },
        imports: Imports { items: imports },
        functions: Indices { items: functions },
        tables: LimitsList { items: tables },
        memories: LimitsList { items: memories },
        globals: GlobalDefs { items: globals },
        exports: Exports { items: exports },
        start,
        elements: Elements { items: elements },
        codes: FuncCodes { items: codes },
        segments: Segments { items: segments },
    })
}

/// Reads the module that all of the bytes are.
#[tactic(auto, unfolding(crate::specs::Readers::module_at))]
fn module(alloc: Global, profile: Profile, bytes: &[u8]) -> Result<Module, ReadError>
    ensures { Gives (λ m. m) result (module_at profile.float bytes.now) }
{
    let rest = after_magic(bytes)?;
    let found = sections(alloc, rest)?;
    module_of(alloc, profile, &found)
}

/// Whether the first two bytes are those of gzip.
fn is_compressed(bytes: &[u8]) -> bool
    ensures { MatchBool result (IsCompressed bytes.now) (¬ IsCompressed bytes.now) }
{
    match bytes {
        [0x1F, 0x8B, ..] => true,
        _ => false,
    }
}

/// Why bytes that are no module without floats are refused.
fn refusal(alloc: Global, bytes: &[u8]) -> ModuleFault
    ensures { RefusedAs bytes.now result }
{
    match module(alloc, Profile { float: true }, bytes) {
        Ok(_) => ModuleFault::Float,
        Err(ReadError::Refused) => ModuleFault::NotModule,
        Err(ReadError::NoMemory) => ModuleFault::NoMemory,
    }
}

/// Reads a WebAssembly module (Core 1.0, chapter 5) of at most 2,097,152 bytes, with the sign
/// extensions, `memory.copy`, `memory.fill` and the data count section of Core 2.0. Names are UTF-8,
/// numbers may be padded, and neither custom sections nor the data count are kept. The faults are tried in the order of
/// `ModuleFault`. Time and memory grow with the bytes, whatever counts and sizes they claim, and
/// blocks may nest to any depth.
pub fn decode(alloc: Global, bytes: &[u8]) -> Result<Module, ModuleFault>
    // What is read is the module that the bytes spell.
    ensures found { IfOk result (λ m. IsPlain bytes.now × Mod false m bytes.now) }
    // Whatever the bytes spell is read, unless memory runs out.
    ensures only { (m : AModule) → IsPlain bytes.now → Mod false m bytes.now → MatchResult result (λ n. n ≡ m) (λ e. e ≡ ModuleFault.NoMemory) }
    ensures faults { IfErr result (λ e. Comes bytes.now e) }
    ensures sound { IfOk result (λ m. IsModule m) }
{
    if bytes.len() > LARGEST {
        return Err(ModuleFault::TooLarge);
    }
    if is_compressed(bytes) {
        return Err(ModuleFault::Compressed);
    }
    match module(alloc, Profile { float: false }, bytes) {
        Ok(m) => Ok(m),
        Err(ReadError::Refused) => Err(refusal(alloc, bytes)),
        Err(ReadError::NoMemory) => Err(ModuleFault::NoMemory),
    }
}
