ghost use Rattle.std.specs.Prelude.{◌≡◌, [], None, IfSome};
ghost use Rattle.ic_state.specs.IsCanister.{IsCanister};

use ic_base::NoMemory;
use ic_exec::place_code;
use ic_principal::{Bytes, Principal};
use ic_state::{Canister, Code, Controllers};
use std::alloc::Global;
use wm_decode::decode;
use wm_encode::{encode, relay_fits};
use wm_tree::samples::relay;
use wm_valid::{Valid, validate};

// The types, imports and memory of a module whose functions are `stable_grow` (0), `stable_write`
// (1), `call_new` (2), `call_cycles_add` (3), `call_perform` (4), `msg_reply_data_append` (5),
// `msg_reply` (6), `accept_message` (7), and six of its own.
static FRONT: &[u8] =
    b"\x00asm\x01\x00\x00\x00\x01'\x07`\x00\x00`\x01\x7f\x01\x7f`\x03\x7f\x7f\x7f\x00`\x08\x7f\x7f\x7f\x7f\x7f\x7f\x7f\x7f\x00`\x01~\x00`\x00\x01\x7f`\x02\x7f\x7f\x00\x02\x9f\x01\x08\x03ic0\x0bstable_grow\x00\x01\x03ic0\x0cstable_write\x00\x02\x03ic0\x08call_new\x00\x03\x03ic0\x0fcall_cycles_add\x00\x04\x03ic0\x0ccall_perform\x00\x05\x03ic0\x15msg_reply_data_append\x00\x06\x03ic0\x09msg_reply\x00\x00\x03ic0\x0eaccept_message\x00\x00\x03\x07\x06\x00\x00\x00\x00\x00\x00\x05\x03\x01\x00\x01";

// `divide` (8), `remainder` (9), `writes` (10), the query `get` (12), and the inspection, whose
// function follows.
static EXPORTS: &[u8] =
    b"\x07\x7f\x05\x16canister_update divide\x00\x08\x19canister_update remainder\x00\x09\x16canister_update writes\x00\x0a\x12canister_query get\x00\x0c\x18canister_inspect_message\x00";

// `divide` divides the least i32 by -1, and `remainder` stores the remainder and replies it. `writes`
// stores 1, lets stable memory grow, writes to it, performs a call with 700 cycles, and traps. Function
// 11 accepts, 12 replies the first four bytes, 13 does nothing.
static CODES: &[u8] =
    b"\x0al\x06\x0c\x00A\x80\x80\x80\x80xA\x7fm\x1a\x0b\x18\x00A\x00A\x80\x80\x80\x80xA\x7fo6\x02\x00A\x00A\x04\x10\x05\x10\x06\x0b1\x00A\x00A\x016\x02\x00A\x01\x10\x00\x1aA\x00A\x00A\x04\x10\x01A\x00A\x00A\x00A\x00A\x00A\x00A\x00A\x00\x10\x02B\xbc\x05\x10\x03\x10\x04\x1a\x00\x0b\x04\x00\x10\x07\x0b\x0a\x00A\x00A\x04\x10\x05\x10\x06\x0b\x02\x00\x0b";

fn bytes_of(alloc: Global, inspection: u8) -> Result<Vec<u8>, NoMemory> {
    let mut bytes = Vec::from_slice(alloc, FRONT)?;
    bytes.extend_from_slice(EXPORTS)?;
    bytes.push(inspection)?;
    bytes.extend_from_slice(CODES)?;
    Ok(bytes)
}

fn relay_bytes(alloc: Global) -> Result<Bytes, NoMemory> {
    let module = relay(alloc)?;
    relay_fits();
    encode(alloc, &module)
}

pub fn valid_of(alloc: Global, bytes: &[u8]) -> Option<Valid> {
    match decode(alloc, bytes) {
        Ok(module) => validate(alloc, module).ok(),
        Err(_) => None,
    }
}

// With this code. What is owned is dropped at each exit, which is dear to prove: so there are few.
fn placed(alloc: Global, canister: Canister, valid: Valid) -> Option<Canister>
    requires keeps { IsCanister canister }
    requires empty { canister.code ≡ None }
    requires fresh { canister.contexts ≡ [] }
    ensures keeps { IfSome result IsCanister }
    ensures fresh { IfSome result (λ c. c.contexts ≡ []) }
{
    let mut canister = canister;
    let code = Code {
        valid,
        hash: [0; 32],
    };
    match place_code(alloc, &mut canister, code) {
        Ok(true) => Some(canister),
        _ => None,
    }
}

/// A canister with 1,000 cycles and without code.
pub fn empty_canister(alloc: Global) -> Option<Canister>
    ensures keeps { IfSome result IsCanister }
    ensures empty { IfSome result (λ c. c.code ≡ None) }
    ensures fresh { IfSome result (λ c. c.contexts ≡ []) }
{
    let controllers = Controllers {
        items: Vec::new(alloc),
    };
    Canister::new(alloc, Principal::canister_id(0), controllers, 1000).ok()
}

fn canister_with(alloc: Global, valid: Option<Valid>) -> Option<Canister>
    ensures keeps { IfSome result IsCanister }
    ensures fresh { IfSome result (λ c. c.contexts ≡ []) }
{
    match valid {
        Some(valid) => match empty_canister(alloc) {
            Some(canister) => placed(alloc, canister, valid),
            None => None,
        },
        None => None,
    }
}

/// A canister with 1,000 cycles, which runs the relay module.
pub fn relaying(alloc: Global) -> Option<Canister>
    ensures keeps { IfSome result IsCanister }
    ensures fresh { IfSome result (λ c. c.contexts ≡ []) }
{
    match relay_bytes(alloc) {
        Ok(bytes) => canister_with(alloc, valid_of(alloc, bytes.items.as_slice())),
        Err(_) => None,
    }
}

/// A canister with 1,000 cycles, which runs the module above, with this function for inspection.
pub fn probing(alloc: Global, inspection: u8) -> Option<Canister>
    ensures keeps { IfSome result IsCanister }
    ensures fresh { IfSome result (λ c. c.contexts ≡ []) }
{
    match bytes_of(alloc, inspection) {
        Ok(bytes) => canister_with(alloc, valid_of(alloc, bytes.as_slice())),
        Err(_) => None,
    }
}
