ghost use Rattle.std.specs.Prelude.{◌≡◌, None, IfOk, IfErr, map, OnOk, true};
ghost use Rattle.wm_tree.specs.IsModule.{IsModule};
ghost use Rattle.wm_valid.specs.SystemApi.{number_of};
ghost use Rattle.wm_valid.specs.Space.{function_types};
ghost use Rattle.wm_valid.specs.Bodies.{nesting_fault, typing_fault, bodies_fault};
ghost use Rattle.wm_valid.specs.Checked.{checked, Fails};
ghost use Rattle.wm_valid.specs.IsValid.{Calls, SuitAll, IsValid};
ghost use Rattle.wm_valid.specs.Methods.{HasEntries};

use crate::bodies::validate_functions;
use crate::entries::check_exports;
use crate::imports::calls_of;
use crate::indices::index_fault;
use crate::invalid::Invalid;
use crate::methods::Entries;
use crate::refused::Refused;
use crate::scope::Scope;
use crate::sizes::size_fault;
use crate::space::function_types;
use crate::system_api::SystemCall;
use crate::valid::Valid;
use ic_base::NoMemory;
use std::alloc::Global;
use wm_tree::{GlobalDef, GlobalType, Module};
use wm_typing::FlatCode;

/// The places of the calls in the table of the System API.
fn numbers_of(alloc: Global, calls: &[SystemCall]) -> Result<Vec<u32>, NoMemory>
    ensures { IfOk result (λ numbers. numbers.items ≡ map number_of calls.now) }
{
    calls.iter().map(|call| call.number()).collect(alloc)
}

fn global_types(alloc: Global, globals: &[GlobalDef]) -> Result<Vec<GlobalType>, NoMemory>
    ensures { IfOk result (λ types. types.items ≡ map (λ g. g.kind) globals.now) }
{
    let mut types = Vec::new(alloc);
    for global in globals {
        types.push(global.kind)?;
    }
    Ok(types)
}

/// What a machine runs by, for each function that the module defines.
fn codes_of(
    alloc: Global,
    module: &Module,
    functions: &[u32],
    calls: &[SystemCall],
) -> Result<Vec<FlatCode>, Invalid>
    requires grammar { IsModule «module».now }
    requires functions { functions.now ≡ function_types «module».now }
    requires calls { Calls «module».now.types «module».now.imports calls.now }
    ensures shallow { OnOk result (nesting_fault «module».now ≡ None) }
    ensures typed { OnOk result (typing_fault «module».now ≡ None) }
    ensures suits { IfOk result (λ codes. SuitAll «module».now codes.items) }
    ensures faults { IfErr result (λ e. Fails e (bodies_fault «module».now)) }
{
    let hosts = numbers_of(alloc, calls)?;
    let globals = global_types(alloc, &module.globals.items)?;
    let scope = Scope {
        module,
        functions,
        hosts: &hosts,
        globals: &globals,
    };
    validate_functions(alloc, &scope)
}

/// What the checks of a module find out.
#[derive(Drop)]
struct Found {
    calls: Vec<SystemCall>,
    codes: Vec<FlatCode>,
    entries: Entries,
}

/// Tries the checks in their order, and gives what they find out.
fn checks(alloc: Global, module: &Module) -> Result<Found, Invalid>
    requires grammar { IsModule «module».now }
    ensures passes { OnOk result (checked «module».now ≡ None) }
    ensures calls { IfOk result (λ found.
        Calls «module».now.types «module».now.imports found.calls.items) }
    ensures codes { IfOk result (λ found. SuitAll «module».now found.codes.items) }
    ensures entries { IfOk result (λ found. HasEntries found.entries «module».now.exports) }
    ensures fault { IfErr result (λ e. Fails e (checked «module».now)) }
{
    let calls = calls_of(alloc, &module.types.items, &module.imports.items)?;
    let functions = function_types(alloc, module)?;
    if let Some(fault) = index_fault(module, &functions) {
        return Err(fault);
    }
    if let Some(fault) = size_fault(module) {
        return Err(fault);
    }
    let entries = Entries::among(alloc, &module.exports.items)?;
    check_exports(alloc, module, &functions, &entries)?;
    let codes = codes_of(alloc, module, &functions, &calls)?;
    Ok(Found {
        calls,
        codes,
        entries,
    })
}

/// Validates a module (WebAssembly Core 1.0, chapter 3) in this profile. The checks are tried in
/// the order of `Invalid`. Memory is linear in the module, and so is time, but that names of exports
/// are looked up in search trees, and locals in their runs.
pub fn validate(alloc: Global, module: Module) -> Result<Valid, Refused>
    requires { IsModule «module» }
    // The module is kept as it is, and passes every check.
    ensures same { IfOk result (λ v. v.module ≡ «module») }
    ensures passes { OnOk result (checked «module» ≡ None) }
    // It is the first check that fails.
    ensures fault { IfErr result (λ e. Fails e.fault (checked «module»)) }
    ensures back { IfErr result (λ e. e.module ≡ «module») }
{
    match checks(alloc, &module) {
        Ok(found) => Ok(Valid::new(module, found.calls, found.codes, found.entries)),
        Err(fault) => Err(Refused { module, fault }),
    }
}
