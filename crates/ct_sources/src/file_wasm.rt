ghost use Rattle.std.specs.Prelude.{◌≡◌, ◌↔◌, IfOk, None, is_ok, true};
ghost use Rattle.wm_tree.specs.IsModule.{IsModule};
ghost use Rattle.wm_valid.specs.Checked.{checked};
ghost use Rattle.ct_sources.specs.IsSourceOf.{IsWasm};

use crate::fault::reason;
use crate::quoting::word_or_quoted;
use ic_base::NoMemory;
use ic_principal::Text;
use std::alloc::{AllocError, Global};
use wm_decode::{ModuleFault, decode};
use wm_tree::Module;
use wm_valid::{Invalid, Refused, Valid, validate};

/// A module of more bytes is too large for an argument of a script's line.
const LARGEST: usize = 2_000_000;

// An import by its names, as `env.memcpy`.
fn import_text(alloc: Global, module: &Module, number: u32) -> Result<String, NoMemory> {
    match module.imports.items.get(number as usize) {
        None => format!(in alloc; "module refused: Import {number}"),
        Some(import) => {
            let from = word_or_quoted(alloc, import.module.items.as_str())?;
            let name = word_or_quoted(alloc, import.name.items.as_str())?;
            format!(in alloc; "module refused: Import {number} ({from}.{name})")
        }
    }
}

fn invalid_text(alloc: Global, module: &Module, fault: Invalid) -> Result<String, NoMemory> {
    match fault {
        Invalid::Import { number } => import_text(alloc, module, number),
        Invalid::Index { section } => format!(in alloc; "module refused: Index {section}"),
        Invalid::Size { section } => format!(in alloc; "module refused: Size {section}"),
        Invalid::Entry { export } => format!(in alloc; "module refused: Entry {export}"),
        Invalid::Nesting { function } => format!(in alloc; "module refused: Nesting {function}"),
        Invalid::Untyped { function } => format!(in alloc; "module refused: Untyped {function}"),
        Invalid::NoMemory => Err(AllocError),
    }
}

fn valid_of(alloc: Global, module: Module) -> Result<Result<Valid, Text>, NoMemory>
    requires { IsModule «module» }
    ensures { IfOk result (λ said. (is_ok said ≡ true) ↔ (checked «module» ≡ None)) }
{
    match validate(alloc, module) {
        Ok(valid) => Ok(Ok(valid)),
        Err(
            Refused {
                fault: Invalid::NoMemory,
                ..
            },
        ) => Err(AllocError),
        Err(Refused { module, fault }) => {
            let items = invalid_text(alloc, &module, fault)?;
            Ok(Err(Text { items }))
        }
    }
}

/// The module that bytes are, or why they are none.
pub(crate) fn wasm_of(alloc: Global, bytes: &[u8]) -> Result<Result<Valid, Text>, NoMemory>
    ensures { IfOk result (λ said. (is_ok said ≡ true) ↔ IsWasm bytes.now) }
{
    if bytes.len() > LARGEST {
        return Ok(Err(reason(alloc, "too large")?));
    }
    match decode(alloc, bytes) {
        Ok(module) => valid_of(alloc, module),
        Err(ModuleFault::TooLarge) => Ok(Err(reason(alloc, "too large")?)),
        Err(ModuleFault::Compressed) => Ok(Err(reason(alloc, "module refused: Compressed")?)),
        Err(ModuleFault::Float) => Ok(Err(reason(alloc, "module refused: Float")?)),
        Err(ModuleFault::NotModule) => Ok(Err(reason(alloc, "module refused: NotModule")?)),
        Err(ModuleFault::NoMemory) => Err(AllocError),
    }
}
