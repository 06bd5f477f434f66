ghost use Rattle.std.specs.Prelude.{◌≡◌, None, IfSome};
ghost use Rattle.ic_behaviour.specs.Counted.{dropped};
ghost use Rattle.ic_behaviour.specs.Submitted.{IsNew};
ghost use Rattle.ic_state.specs.Seen.{seen};
ghost use Rattle.ic_state.specs.IsCanister.{IsCanister};

use crate::asking::asking_bytes;
use ic_base::NoMemory;
use ic_exec::place_code;
use ic_principal::{Bytes, Principal};
use ic_state::{Canister, Code, Controllers};
use std::alloc::Global;
use wm_decode::decode;
use wm_encode::{encode, relay_fits};
use wm_tree::samples::relay;
use wm_valid::{Valid, validate};

fn relay_bytes(alloc: Global) -> Result<Bytes, NoMemory> {
    let module = relay(alloc)?;
    relay_fits();
    encode(alloc, &module)
}

fn valid_of(alloc: Global, bytes: &[u8]) -> Option<Valid> {
    match decode(alloc, bytes) {
        Ok(module) => validate(alloc, module).ok(),
        Err(_) => None,
    }
}

// With this code. What is owned is dropped at each exit, which is dear to prove: so there are few.
fn placed(alloc: Global, number: u64, canister: Canister, valid: Valid) -> Option<Canister>
    requires new { IsNew number (dropped (seen canister)) }
    requires keeps { IsCanister canister }
    requires empty { canister.code ≡ None }
    requires balance { canister.balance ≡ 1000000000000 }
    ensures new { IfSome result (λ c. IsNew number (dropped (seen c))) }
    ensures keeps { IfSome result IsCanister }
    ensures balance { IfSome result (λ c. c.balance ≡ 1000000000000) }
{
    let _number = number;
    let mut canister = canister;
    let code = Code {
        valid,
        hash: [0; 32],
    };
    match place_code(alloc, &mut canister, code) {
        Ok(true) => Some(canister),
        _ => None,
    }
}

/// Without code.
pub fn empty_canister(alloc: Global, number: u64) -> Option<Canister>
    ensures new { IfSome result (λ c. IsNew number (dropped (seen c))) }
    ensures keeps { IfSome result IsCanister }
    ensures empty { IfSome result (λ c. c.code ≡ None) }
    ensures balance { IfSome result (λ c. c.balance ≡ 1000000000000) }
{
    let controllers = Controllers {
        items: Vec::new(alloc),
    };
    Canister::new(
        alloc,
        Principal::canister_id(number),
        controllers,
        1_000_000_000_000,
    )
    .ok()
}

fn canister_with(alloc: Global, number: u64, valid: Option<Valid>) -> Option<Canister>
    ensures new { IfSome result (λ c. IsNew number (dropped (seen c))) }
    ensures keeps { IfSome result IsCanister }
    ensures balance { IfSome result (λ c. c.balance ≡ 1000000000000) }
{
    match valid {
        Some(valid) => match empty_canister(alloc, number) {
            Some(canister) => placed(alloc, number, canister, valid),
            None => None,
        },
        None => None,
    }
}

fn running(alloc: Global, number: u64, bytes: Result<Bytes, NoMemory>) -> Option<Canister>
    ensures new { IfSome result (λ c. IsNew number (dropped (seen c))) }
    ensures keeps { IfSome result IsCanister }
    ensures balance { IfSome result (λ c. c.balance ≡ 1000000000000) }
{
    match bytes {
        Ok(bytes) => canister_with(alloc, number, valid_of(alloc, bytes.items.as_slice())),
        Err(_) => None,
    }
}

/// The canister with this number, with 1,000,000,000,000 cycles. It runs the relay module.
pub fn relaying(alloc: Global, number: u64) -> Option<Canister>
    ensures new { IfSome result (λ c. IsNew number (dropped (seen c))) }
    ensures keeps { IfSome result IsCanister }
    ensures balance { IfSome result (λ c. c.balance ≡ 1000000000000) }
{
    running(alloc, number, relay_bytes(alloc))
}

/// The canister with this number, with 1,000,000,000,000 cycles. It runs the module that calls the relay module.
pub fn asking(alloc: Global, number: u64) -> Option<Canister>
    ensures new { IfSome result (λ c. IsNew number (dropped (seen c))) }
    ensures keeps { IfSome result IsCanister }
    ensures balance { IfSome result (λ c. c.balance ≡ 1000000000000) }
{
    running(alloc, number, asking_bytes(alloc))
}
