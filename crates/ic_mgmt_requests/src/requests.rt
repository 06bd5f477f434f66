ghost use Rattle.std.specs.Prelude.{◌≡◌, ◌<◌, ◌^◌, length, IfOk, IfSome};
ghost use Rattle.cd_codec.specs.View.{view};
ghost use Rattle.ic_mgmt_requests.specs.Requests.{amount_value, creation_value, creation_argument, skipping, mode_value, installation_value, installation_argument};

use crate::ids::{AMOUNT, ARG, CANISTER_ID, MODE, SETTINGS, SKIP_PRE_UPGRADE, WASM_MODULE};
use crate::types::{creation_type, installation_type};
use cd_codec::{Value, encode};
use ic_base::NoMemory;
use ic_behaviour::Mode;
use ic_principal::{Bytes, Principal};
use std::alloc::Global;

#[tactic(auto, using(cd_codec::proofs::Views::layers))]
fn amount_value(alloc: Global, cycles: Option<u128>) -> Result<Value, NoMemory>
    ensures value { IfOk result (λ v. view v ≡ amount_value cycles) }
    ensures fits { IfOk result (λ v. IfSome cycles (λ n. n < 2 ^ 128)) }
{
    match cycles {
        None => Ok(Value::none()),
        Some(cycles) => Value::some(alloc, Value::Nat(cycles)),
    }
}

fn creation_value(alloc: Global, cycles: Option<u128>) -> Result<Value, NoMemory>
    ensures value { IfOk result (λ v. view v ≡ creation_value cycles) }
    ensures fits { IfOk result (λ v. IfSome cycles (λ n. n < 2 ^ 128)) }
{
    let mut fields = Vec::new(alloc);
    fields.push((SETTINGS, Value::none()))?;
    fields.push((AMOUNT, amount_value(alloc, cycles)?))?;
    Ok(Value::of_fields(fields))
}

/// The argument of `provisional_create_canister_with_cycles` for a canister with these cycles, or, where none are named,
/// with 100,000,000,000,000, and without settings.
#[tactic(auto, unfolding(crate::specs::Requests::creation_argument))]
pub fn creation_argument(alloc: Global, cycles: Option<u128>) -> Result<Bytes, NoMemory>
    ensures { IfOk result (λ arg. arg ≡ creation_argument cycles) }
{
    let types = creation_type(alloc)?;
    let mut values = Vec::new(alloc);
    values.push(creation_value(alloc, cycles)?)?;
    encode(alloc, types.table(), types.types(), &values)
}

// The options of an upgrade that skips `canister_pre_upgrade`.
#[tactic(auto, using(cd_codec::proofs::Views::layers))]
fn skipping(alloc: Global) -> Result<Value, NoMemory>
    ensures { IfOk result (λ v. view v ≡ skipping) }
{
    let mut fields = Vec::new(alloc);
    fields.push((SKIP_PRE_UPGRADE, Value::some(alloc, Value::Bool(true))?))?;
    Ok(Value::of_fields(fields))
}

#[tactic(auto, using(cd_codec::proofs::Views::layers))]
fn mode_value(alloc: Global, mode: Mode) -> Result<Value, NoMemory>
    ensures { IfOk result (λ v. view v ≡ mode_value mode) }
{
    match mode {
        Mode::Reinstall => Value::of_case(alloc, 0, Value::Null),
        Mode::Upgrade {
            skip_pre_upgrade: false,
        } => Value::of_case(alloc, 1, Value::none()),
        Mode::Upgrade {
            skip_pre_upgrade: true,
        } => {
            let options = Value::some(alloc, skipping(alloc)?)?;
            Value::of_case(alloc, 1, options)
        }
        Mode::Install => Value::of_case(alloc, 2, Value::Null),
    }
}

// Fields are in rising order of ids.
#[tactic(auto, using(cd_codec::proofs::Views::layers))]
fn installation_value(
    alloc: Global,
    mode: Mode,
    canister: Principal,
    wasm: Bytes,
    arg: Bytes,
) -> Result<Value, NoMemory>
    ensures value { IfOk result (λ v. view v ≡ installation_value mode canister wasm arg) }
    ensures wasm { IfOk result (λ v. length wasm < 2 ^ 64) }
    ensures arg { IfOk result (λ v. length arg < 2 ^ 64) }
{
    let _wasm_bytes = wasm.items.len();
    let _arg_bytes = arg.items.len();
    let mut fields = Vec::new(alloc);
    fields.push((ARG, Value::Blob(arg)))?;
    fields.push((WASM_MODULE, Value::Blob(wasm)))?;
    fields.push((MODE, mode_value(alloc, mode)?))?;
    fields.push((CANISTER_ID, Value::Principal(canister)))?;
    Ok(Value::of_fields(fields))
}

/// The argument of `install_code`.
#[tactic(auto, unfolding(crate::specs::Requests::installation_argument))]
pub fn installation_argument(
    alloc: Global,
    mode: Mode,
    canister: Principal,
    wasm: &Bytes,
    arg: Bytes,
) -> Result<Bytes, NoMemory>
    ensures { IfOk result (λ bytes. bytes ≡ installation_argument mode canister wasm.now arg) }
{
    let types = installation_type(alloc)?;
    let _bytes = canister.bytes();
    let wasm = wasm.copy()?;
    let mut values = Vec::new(alloc);
    values.push(installation_value(alloc, mode, canister, wasm, arg)?)?;
    encode(alloc, types.table(), types.types(), &values)
}
