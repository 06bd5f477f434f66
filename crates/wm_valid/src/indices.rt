ghost use Rattle.std.specs.Prelude.{◌≡◌};
ghost use Rattle.std.specs.Option.{option_copied};
ghost use Rattle.wm_valid.specs.Indices as specs;
ghost use Rattle.wm_valid.specs.Space.{function_types};

use crate::invalid::Invalid;
use crate::space::type_of;
use wm_tree::{Element, ExportKind, FuncType, Instr, Limits, Module, ValType};

fn limits_within(range: u64, limits: &Limits) -> bool
    ensures { result ≡ specs.limits_within range limits.now }
{
    let min = u64::from(limits.min);
    let fits = match limits.max {
        None => true,
        Some(max) => u64::from(max) <= range && limits.min <= max,
    };
    min <= range && fits
}

fn all_within(range: u64, limits: &[Limits]) -> bool
    ensures { result ≡ specs.all_within range limits.now }
{
    limits.iter().all(|limits| limits_within(range, limits))
}

/// The type of the value that a constant instruction gives.
fn constant_type(instr: &Instr) -> Option<ValType>
    ensures { result ≡ specs.constant_type instr.now }
{
    match instr {
        Instr::I32Const(_) => Some(ValType::I32),
        Instr::I64Const(_) => Some(ValType::I64),
        _ => None,
    }
}

/// Whether it is a constant expression of the type.
fn is_constant(t: ValType, words: &[Instr]) -> bool
    ensures { result ≡ specs.is_constant t words.now }
{
    match words {
        [instr] => match constant_type(instr) {
            None => false,
            Some(u) => t == u,
        },
        _ => false,
    }
}

/// Whether there is such a function, table, memory or global.
fn is_defined(module: &Module, functions: &[u32], kind: ExportKind) -> bool
    requires { functions.now ≡ function_types «module».now }
    ensures { result ≡ specs.is_defined «module».now kind }
{
    match kind {
        ExportKind::Function(index) => (index as usize) < functions.len(),
        ExportKind::Table(index) => (index as usize) < module.tables.items.len(),
        ExportKind::Memory(index) => (index as usize) < module.memories.items.len(),
        ExportKind::Global(index) => (index as usize) < module.globals.items.len(),
    }
}

/// Whether there is a type, and it is () -> ().
pub(crate) fn is_procedure(t: Option<&FuncType>) -> bool
    ensures { result ≡ specs.is_procedure (option_copied t.entry) }
{
    match t {
        None => false,
        Some(t) => t.params.items.is_empty() && t.results.items.is_empty(),
    }
}

fn types_in_range(module: &Module) -> bool
    ensures { result ≡ specs.types_in_range «module».now }
{
    module
        .types
        .items
        .iter()
        .all(|t| t.results.items.len() <= 1)
}

fn functions_in_range(module: &Module) -> bool
    ensures { result ≡ specs.functions_in_range «module».now }
{
    let count = module.types.items.len();
    module.functions.items.iter().all(|t| (*t as usize) < count)
}

fn tables_in_range(module: &Module) -> bool
    ensures { result ≡ specs.tables_in_range «module».now }
{
    module.tables.items.len() <= 1 && all_within(1 << 32, &module.tables.items)
}

fn memories_in_range(module: &Module) -> bool
    ensures { result ≡ specs.memories_in_range «module».now }
{
    module.memories.items.len() <= 1 && all_within(65_536, &module.memories.items)
}

fn globals_in_range(module: &Module) -> bool
    ensures { result ≡ specs.globals_in_range «module».now }
{
    let globals = module.globals.items.as_slice();
    globals
        .iter()
        .all(|global| is_constant(global.kind.kind, &global.init.items))
}

fn exports_in_range(module: &Module, functions: &[u32]) -> bool
    requires { functions.now ≡ function_types «module».now }
    ensures { result ≡ specs.exports_in_range «module».now }
{
    let exports = module.exports.items.as_slice();
    exports
        .iter()
        .all(|export| is_defined(module, functions, export.kind))
}

fn starts_procedure(module: &Module, functions: &[u32]) -> bool
    requires { functions.now ≡ function_types «module».now }
    ensures { result ≡ specs.starts_procedure «module».now «module».now.start }
{
    match module.start {
        None => true,
        Some(index) => is_procedure(type_of(module, functions, index)),
    }
}

/// Whether each is the index of a function, of which there are that many.
fn all_below(count: usize, indices: &[u32]) -> bool
    ensures { result ≡ specs.all_below count indices.now }
{
    indices.iter().all(|index| (*index as usize) < count)
}

fn element_in_range(tables: usize, functions: usize, element: &Element) -> bool
    ensures { result ≡ specs.element_in_range tables functions element.now }
{
    (element.table as usize) < tables
        && is_constant(ValType::I32, &element.offset.items)
        && all_below(functions, &element.functions.items)
}

fn elements_in_range(module: &Module, functions: &[u32]) -> bool
    requires { functions.now ≡ function_types «module».now }
    ensures { result ≡ specs.elements_in_range «module».now }
{
    let tables = module.tables.items.len();
    let count = functions.len();
    let elements = module.elements.items.as_slice();
    elements
        .iter()
        .all(|element| element_in_range(tables, count, element))
}

fn segments_in_range(module: &Module) -> bool
    ensures { result ≡ specs.segments_in_range «module».now }
{
    let memories = module.memories.items.len();
    module.segments.items.iter().all(|segment| {
        (segment.memory as usize) < memories && is_constant(ValType::I32, &segment.offset.items)
    })
}

/// The least section with an index or a limit that is out of range.
pub(crate) fn index_fault(module: &Module, functions: &[u32]) -> Option<Invalid>
    requires { functions.now ≡ function_types «module».now }
    ensures { result ≡ specs.index_fault «module».now }
{
    let section = if !types_in_range(module) {
        1
    } else if !functions_in_range(module) {
        3
    } else if !tables_in_range(module) {
        4
    } else if !memories_in_range(module) {
        5
    } else if !globals_in_range(module) {
        6
    } else if !exports_in_range(module, functions) {
        7
    } else if !starts_procedure(module, functions) {
        8
    } else if !elements_in_range(module, functions) {
        9
    } else if !segments_in_range(module) {
        11
    } else {
        return None;
    };
    Some(Invalid::Index { section })
}
