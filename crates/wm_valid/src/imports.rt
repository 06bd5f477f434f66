ghost use Rattle.std.specs.Prelude.{◌≡◌, ◌<◌, ◌^◌, None, IfOk, IfErr, length};
ghost use Rattle.wm_valid.specs.Checked.{Fails};
ghost use Rattle.wm_valid.specs.Imports.{has_signature, call_of, least_other, fault_of};
ghost use Rattle.wm_valid.specs.IsValid.{Calls};
ghost use Rattle.wm_valid.specs.SystemApi.{row_of};
ghost use Rattle.wm_valid.specs.Types.{same_types};

use crate::invalid::Invalid;
use crate::space::imported_type;
use crate::system_api::SystemCall;
use std::alloc::Global;
use wm_tree::{FuncType, Import, ValType};

fn same_types(these: &[ValType], those: &[ValType]) -> bool
    ensures { result ≡ same_types these.now those.now }
{
    these == those
}

/// Whether a function of the type is called as the table says.
fn has_signature(t: &FuncType, call: SystemCall) -> bool
    ensures { result ≡ has_signature t.now (row_of call) }
{
    let results = match call.result() {
        None => t.results.items.is_empty(),
        Some(result) => same_types(&t.results.items, &[result]),
    };
    results && same_types(&t.params.items, call.params())
}

/// The call that an import is.
fn call_of(types: &[FuncType], import: &Import) -> Option<SystemCall>
    ensures { result ≡ call_of types.now import.now }
{
    let t = types.get(imported_type(import)? as usize)?;
    let call = SystemCall::named(import.name.items.as_str())?;
    if import.module.items.as_str() == "ic0" && has_signature(t, call) {
        Some(call)
    } else {
        None
    }
}

/// The call that each import is.
pub(crate) fn calls_of(
    alloc: Global,
    types: &[FuncType],
    imports: &[Import],
) -> Result<Vec<SystemCall>, Invalid>
    requires { length imports.now < 2 ^ 32 }
    ensures calls { IfOk result (λ calls. Calls types.now imports.now calls.items) }
    ensures passes { IfOk result (λ _. least_other types.now imports.now ≡ None) }
    ensures fault { IfErr result (λ e. Fails e (fault_of types.now imports.now)) }
{
    let mut calls = Vec::new(alloc);
    for (number, import) in imports.iter().enumerate() {
        match call_of(types, import) {
            Some(call) => calls.push(call)?,
            None => {
                return Err(Invalid::Import {
                    number: number as u32,
                });
            }
        }
    }
    Ok(calls)
}
