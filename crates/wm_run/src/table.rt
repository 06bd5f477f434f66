ghost use Rattle.std.specs.Prelude.{◌≡◌, ◌++◌, List, Some, filter_map, slice_get};
ghost use Rattle.std.specs.Option.{option_copied};
ghost use Rattle.wm_tree.specs.declared.types.FuncType.{FuncType as Kind};
ghost use Rattle.wm_valid.specs.declared.system_api.SystemCall.{SystemCall as Called};
ghost use Rattle.wm_valid.specs.IsValid.{Calls};
ghost use Rattle.wm_valid.specs.Space.{imported_type, type_of};
ghost use Rattle.wm_valid.specs.Types.{same_types};
ghost use Rattle.wm_store.specs.Lists.{Lists};
ghost use Rattle.wm_store.specs.Fits.{Fits};
ghost use Rattle.wm_semantics.specs.Functions.{same_func_type, look_up, callback_type};
ghost use Rattle.wm_run.specs.Activations.{FoundBy};

use wm_semantics::Trap;
use wm_tree::{FuncType, Import, ImportKind, Module, ValType};
use wm_valid::Valid;

fn same_types(these: &[ValType], those: &[ValType]) -> bool
    ensures { result ≡ same_types these.now those.now }
{
    these == those
}

fn same_type(this: &FuncType, that: &FuncType) -> bool
    ensures { result ≡ same_func_type this.now that.now }
{
    same_types(&this.params.items, &that.params.items)
        && same_types(&this.results.items, &that.results.items)
}

/// The index of an imported function's type.
fn imported_type(import: &Import) -> Option<u32>
    ensures { result ≡ imported_type import.now }
{
    match import.kind {
        ImportKind::Function(index) => Some(index),
        _ => None,
    }
}

fn import_at(imports: &[Import], index: u32) -> Option<&Import>
    ensures { option_copied result ≡ slice_get imports.now index }
{
    imports.get(index as usize)
}

fn index_at(functions: &[u32], place: usize) -> Option<u32>
    ensures { result ≡ slice_get functions.now place }
{
    functions.get(place).copied()
}

/// The index of a function's type, where each import is a function.
fn type_index(imports: &[Import], functions: &[u32], function: u32) -> Option<u32>
    requires { (types : List Kind) × (calls : List Called) × Calls types imports.now calls }
    ensures { result ≡ slice_get (filter_map imported_type imports.now ++ functions.now) function }
{
    match import_at(imports, function) {
        Some(import) => imported_type(import),
        None => index_at(functions, function as usize - imports.len()),
    }
}

fn type_at(module: &Module, index: u32) -> Option<&FuncType>
    ensures { option_copied result ≡ slice_get «module».now.types index }
{
    module.types.items.get(index as usize)
}

/// The type of a function, where each import is one.
fn type_of(module: &Module, function: u32) -> Option<&FuncType>
    requires { (calls : List Called) × Calls «module».now.types «module».now.imports calls }
    ensures { option_copied result ≡ type_of «module».now function }
{
    let index = type_index(&module.imports.items, &module.functions.items, function)?;
    type_at(module, index)
}

fn entry(table: &[Option<u32>], place: u64) -> Option<Option<u32>>
    ensures { result ≡ slice_get table.now place }
{
    table.get(place as usize).copied()
}

/// The function of that type at that place of the table.
pub(crate) fn look_up(
    valid: &Valid,
    table: &[Option<u32>],
    index: u32,
    place: u64,
) -> Result<u32, Trap>
    requires index { (expected : Kind) × (slice_get valid.now.«module».types index ≡ Some expected) }
    requires fits { (s : Lists) × (s.table ≡ table.now) × Fits valid.now.«module» s }
    ensures { (expected : Kind) → slice_get valid.now.«module».types index ≡ Some expected → FoundBy (look_up valid.now.«module» table.now expected place) result }
{
    let module = valid.module();
    let expected = type_at(module, index).unwrap();
    match entry(table, place) {
        None => Err(Trap::TableBounds),
        Some(None) => Err(Trap::Uninitialised),
        Some(Some(function)) => {
            let found = type_of(module, function).unwrap();
            if same_type(expected, found) {
                Ok(function)
            } else {
                Err(Trap::Signature)
            }
        }
    }
}

/// Whether a callback has that type.
fn is_callback(found: &FuncType) -> bool
    ensures { result ≡ same_func_type callback_type found.now }
{
    same_types(&[ValType::I32], &found.params.items) && same_types(&[], &found.results.items)
}

/// The callback at that place of the table.
pub(crate) fn look_up_callback(
    valid: &Valid,
    table: &[Option<u32>],
    place: u32,
) -> Result<u32, Trap>
    requires fits { (s : Lists) × (s.table ≡ table.now) × Fits valid.now.«module» s }
    ensures { FoundBy (look_up valid.now.«module» table.now callback_type place) result }
{
    let module = valid.module();
    match entry(table, u64::from(place)) {
        None => Err(Trap::TableBounds),
        Some(None) => Err(Trap::Uninitialised),
        Some(Some(function)) => {
            let found = type_of(module, function).unwrap();
            if is_callback(found) {
                Ok(function)
            } else {
                Err(Trap::Signature)
            }
        }
    }
}
