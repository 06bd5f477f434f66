ghost use Rattle.std.specs.Prelude.{◌≡◌, ◌+◌, Some, None, true, slice_get, IfOk, IfErr, OnOk};
ghost use Rattle.std.specs.Option.{option_copied};
ghost use Rattle.wm_tree.specs.IsModule.{IsModule};
ghost use Rattle.wm_tree.specs.Seq.{IsFlat};
ghost use Rattle.wm_valid.specs.Bodies as specs;
ghost use Rattle.wm_valid.specs.IsValid.{Suits, SuitAll};
ghost use Rattle.wm_valid.specs.Checked.{Fails};
ghost use Rattle.wm_valid.specs.Visited.{Visited};

use crate::invalid::Invalid;
use crate::scope::Scope;
use std::alloc::Global;
use wm_tree::{FuncCode, FuncType, ValType};
use wm_typing::{BodyFault, Context, FlatCode, Locals, validate_body};

fn params_of(t: Option<&FuncType>) -> &[ValType]
    ensures { result.now ≡ specs.params_of (option_copied t.entry) }
{
    match t {
        None => &[],
        Some(t) => &t.params.items,
    }
}

fn result_of(t: Option<&FuncType>) -> Option<ValType>
    ensures { result ≡ specs.result_of (option_copied t.entry) }
{
    match t {
        None => None,
        Some(t) => t.results.items.first().copied(),
    }
}

/// A function that a module defines: the index of its type, and its code.
#[derive(Clone, Copy)]
struct Definition<'a> {
    index: u32,
    code: &'a FuncCode,
}

/// Validates the body of a function.
fn validate_function(
    alloc: Global,
    scope: &Scope,
    function: Definition<'_>,
    locals: &Locals,
) -> Result<FlatCode, BodyFault>
    requires flat { IsFlat function.code.now.body }
    requires locals { locals.now ≡ specs.locals_of function.code.now.locals }
    ensures shallow { IfOk result (λ _. specs.nesting_fits (function.entry.index, function.entry.code.now) ≡ true) }
    ensures typed { IfOk result (λ _.
        specs.has_typing scope.now.«module».now (function.entry.index, function.entry.code.now) ≡ true) }
    ensures suits { IfOk result (λ flat. Suits scope.now.«module».now (function.entry.index, function.entry.code.now) flat) }
    ensures faults { IfErr result (λ e.
        specs.BodyFails scope.now.«module».now (function.entry.index, function.entry.code.now) e) }
{
    let module = scope.module;
    let code = function.code;
    let t = module.types.items.get(function.index as usize);
    let context = Context {
        types: &module.types.items,
        functions: scope.functions,
        hosts: scope.hosts,
        globals: scope.globals,
        has_table: !module.tables.items.is_empty(),
        has_memory: !module.memories.items.is_empty(),
        params: params_of(t),
        locals,
        result: result_of(t),
    };
    validate_body(alloc, &context, &code.body.items)
}

/// Visits the function of that number, given what was known before it.
fn visit(
    alloc: Global,
    scope: &Scope,
    number: u32,
    function: Definition<'_>,
    untyped: Option<u32>,
    codes: &mut Vec<FlatCode>,
) -> Result<Option<u32>, Invalid>
    requires flat { IsFlat function.code.now.body }
    requires here { slice_get (specs.definitions scope.now.«module».now) number
        ≡ Some (function.index, function.code.now) }
    requires before { Visited scope.now.«module».now number untyped codes.old.items }
    ensures visited { IfOk result (λ untyped.
        Visited scope.now.«module».now (number + 1) untyped codes.new.items) }
    ensures faults { IfErr result (λ e. Fails e (specs.bodies_fault scope.now.«module».now)) }
{
    let code = function.code;
    let locals = Locals::of(alloc, &code.locals.items)?;
    match validate_function(alloc, scope, function, &locals) {
        Ok(flat) => {
            codes.push(flat)?;
            Ok(untyped)
        }
        Err(BodyFault::Nesting) => Err(Invalid::Nesting { function: number }),
        Err(BodyFault::Untyped) => Ok(untyped.or(Some(number))),
        Err(BodyFault::NoMemory) => Err(Invalid::NoMemory),
    }
}

/// Validates the bodies of all functions. That one nests too deeply counts before that another has
/// no typing.
pub(crate) fn validate_functions(alloc: Global, scope: &Scope) -> Result<Vec<FlatCode>, Invalid>
    requires { IsModule scope.now.«module».now }
    ensures shallow { OnOk result (specs.nesting_fault scope.now.«module».now ≡ None) }
    ensures typed { OnOk result (specs.typing_fault scope.now.«module».now ≡ None) }
    ensures suits { IfOk result (λ codes. SuitAll scope.now.«module».now codes.items) }
    ensures faults { IfErr result (λ e. Fails e (specs.bodies_fault scope.now.«module».now)) }
{
    let module = scope.module;
    let functions = module.functions.items.as_slice();
    let bodies = module.codes.items.as_slice();
    let mut codes = Vec::new(alloc);
    let mut untyped = None;
    for (number, code) in bodies.iter().enumerate() {
        let function = Definition {
            index: functions[number],
            code,
        };
        untyped = visit(alloc, scope, number as u32, function, untyped, &mut codes)?;
    }
    match untyped {
        None => Ok(codes),
        Some(function) => Err(Invalid::Untyped { function }),
    }
}
