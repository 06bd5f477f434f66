ghost use Rattle.std.specs.Prelude.{◌≡◌, [], IfOk};
ghost use Rattle.ct_asked.specs.Requests.{creating, installing};

use ic_base::NoMemory;
use ic_behaviour::Mode;
use ic_mgmt_requests::{creation_argument, installation_argument};
use ic_principal::{Bytes, Principal, Text};
use ic_script::Ask;
use std::alloc::Global;
use std::marker::Model;

/// A module, and the argument that it is installed with.
#[derive(Drop)]
pub(crate) struct Code<'i> {
    pub(crate) wasm: &'i Bytes,
    pub(crate) arg: Bytes,
}

impl<'i> Model for Code<'i> {
    ghost use Rattle.ct_asked.specs.Requests as requests;

    ghost Value = { requests.Code };

    ghost view = { λ c. record { wasm = c.wasm.now; arg = c.arg } };
}

// The principal of the management canister.
fn management() -> Principal
    ensures { result ≡ [] }
{
    match Principal::from_bytes(&[]) {
        Ok(principal) => principal,
        Err(_) => unreachable!(),
    }
}

/// The call that makes a canister with these cycles, or, where none are named, with the amount
/// that the management canister gives.
pub(crate) fn creating(
    alloc: Global,
    sender: Principal,
    cycles: Option<u128>,
) -> Result<Ask, NoMemory>
    ensures { IfOk result (λ ask. ask ≡ creating sender cycles) }
{
    let method = String::from_str(alloc, "provisional_create_canister_with_cycles")?;
    Ok(Ask {
        sender,
        callee: management(),
        method: Text { items: method },
        arg: creation_argument(alloc, cycles)?,
    })
}

/// The call that installs code in a canister.
pub(crate) fn installing(
    alloc: Global,
    sender: Principal,
    canister: Principal,
    mode: Mode,
    code: Code<'_>,
) -> Result<Ask, NoMemory>
    ensures { IfOk result (λ ask. ask ≡ installing sender canister mode code.entry) }
{
    let Code { wasm, arg } = code;
    let method = String::from_str(alloc, "install_code")?;
    Ok(Ask {
        sender,
        callee: management(),
        method: Text { items: method },
        arg: installation_argument(alloc, mode, canister, wasm, arg)?,
    })
}
