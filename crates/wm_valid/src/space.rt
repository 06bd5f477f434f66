ghost use Rattle.std.specs.Prelude.{◌≡◌, ◌++◌, [], IfOk, OnOk};
ghost use Rattle.std.specs.List.{cons_option};
ghost use Rattle.std.specs.Option.{option_copied};
ghost use Rattle.wm_valid.specs.Space.{function_types, imported_type, type_of};

use ic_base::NoMemory;
use std::alloc::Global;
use wm_tree::{FuncType, Import, ImportKind, Module};

/// The index of an imported function's type.
pub(crate) fn imported_type(import: &Import) -> Option<u32>
    ensures { result ≡ imported_type import.now }
{
    match import.kind {
        ImportKind::Function(index) => Some(index),
        _ => None,
    }
}

fn push_imported(types: &mut Vec<u32>, import: &Import) -> Result<(), NoMemory>
    ensures { OnOk result
        (types.new.items ≡ types.old.items ++ cons_option (imported_type import.now) []) }
{
    if let Some(index) = imported_type(import) {
        types.push(index)?;
    }
    Ok(())
}

/// The index of each function's type, the imported functions first.
pub(crate) fn function_types(alloc: Global, module: &Module) -> Result<Vec<u32>, NoMemory>
    ensures { IfOk result (λ types. types.items ≡ function_types «module».now) }
{
    let mut types = Vec::new(alloc);
    for import in &module.imports.items {
        push_imported(&mut types, import)?;
    }
    types.extend_from_slice(&module.functions.items)?;
    Ok(types)
}

/// The type of the function at that index; `functions` has the index of each function's type.
pub(crate) fn type_of<'a>(module: &'a Module, functions: &[u32], index: u32) -> Option<&'a FuncType>
    requires { functions.now ≡ function_types «module».now }
    ensures { option_copied result ≡ type_of «module».now index }
{
    let t = functions.get(index as usize)?;
    module.types.items.get(*t as usize)
}
