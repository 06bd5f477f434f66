ghost use Rattle.std.specs.Prelude.{◌≡◌, IfOk};
ghost use Rattle.std.specs.Option.{option_map};
ghost use Rattle.cd_codec.specs.Answers.{contents};
ghost use Rattle.cd_codec.specs.View.{view, views};
ghost use Rattle.ic_mgmt_candid.specs.Picks.{as_principals};
ghost use Rattle.ic_mgmt_candid.specs.Demands.{argument, canister_id, optional_amount, principals, controllers_of, optional_settings, flag, skips, mode_at, mode_in, create, with_cycles, provisional_create, top_up, with_settings, update, from_fields, install, picked, demand_of};

use crate::demand::{Demand, InstallCode};
use crate::method::Method;
use crate::picks::{
    as_bool, as_bytes, as_case, as_list, as_nat, as_opt, as_principal, one_field, only_field,
    only_four, only_two,
};
use crate::types::type_of;
use cd_codec::{Value, Values};
use cd_coerce::{DidlFault, Expected, decode};
use ic_base::NoMemory;
use ic_behaviour::{Controllers, Mode};
use ic_principal::{Bytes, Principal};
use std::alloc::{AllocError, Global};

/// What the bytes are read as at the expected types, where they decode.
fn argument(alloc: Global, expected: &Expected, bytes: &[u8]) -> Result<Option<Values>, NoMemory>
    ensures { IfOk result (λ found. option_map contents found ≡ argument expected.now bytes.now) }
{
    match decode(alloc, expected, bytes) {
        Ok(values) => Ok(Some(values)),
        Err(DidlFault::NoMemory) => Err(AllocError),
        Err(DidlFault::NotHeader) => Ok(None),
        Err(DidlFault::Float) => Ok(None),
        Err(DidlFault::NotSubtype { .. }) => Ok(None),
        Err(DidlFault::BadValue) => Ok(None),
    }
}

fn canister_id(values: Values) -> Option<Principal>
    ensures { result ≡ canister_id (contents values) }
{
    as_principal(&only_field(values)?)
}

fn optional_amount(value: Value) -> Option<Option<u128>>
    ensures { result ≡ optional_amount (view value) }
{
    match as_opt(value)? {
        None => Some(None),
        Some(amount) => Some(Some(as_nat(&amount)?)),
    }
}

/// The principals that the values are.
#[tactic(auto, using(crate::proofs::Fronts::one_more, crate::proofs::Fronts::no_more_read))]
fn all_principals(alloc: Global, values: &[Value]) -> Result<Option<Controllers>, NoMemory>
    ensures { IfOk result (λ found. found ≡ as_principals (views values.now)) }
{
    let mut items = Vec::new(alloc);
    for value in values {
        match as_principal(value) {
            Some(id) => items.push(id)?,
            None => return Ok(None),
        }
    }
    Ok(Some(Controllers { items }))
}

fn principals(alloc: Global, value: Value) -> Result<Option<Controllers>, NoMemory>
    ensures { IfOk result (λ found. found ≡ principals (view value)) }
{
    match as_list(value) {
        Some(values) => all_principals(alloc, &values),
        None => Ok(None),
    }
}

/// The controllers that settings have; none where they are left out.
fn controllers_of(alloc: Global, settings: Value) -> Result<Option<Option<Controllers>>, NoMemory>
    ensures { IfOk result (λ found. found ≡ controllers_of (view settings)) }
{
    let Some(controllers) = one_field(settings) else {
        return Ok(None);
    };
    match as_opt(controllers) {
        None => Ok(None),
        Some(None) => Ok(Some(None)),
        Some(Some(ids)) => Ok(principals(alloc, ids)?.map(Some)),
    }
}

fn optional_settings(alloc: Global, value: Value) -> Result<Option<Option<Controllers>>, NoMemory>
    ensures { IfOk result (λ found. found ≡ optional_settings (view value)) }
{
    match as_opt(value) {
        None => Ok(None),
        Some(None) => Ok(Some(None)),
        Some(Some(settings)) => controllers_of(alloc, settings),
    }
}

fn flag(value: Value) -> Option<bool>
    ensures { result ≡ flag (view value) }
{
    match as_opt(value)? {
        None => Some(false),
        Some(flag) => as_bool(&flag),
    }
}

fn skips(value: Value) -> Option<bool>
    ensures { result ≡ skips (view value) }
{
    match as_opt(value)? {
        None => Some(false),
        Some(options) => flag(one_field(options)?),
    }
}

/// The mode of the case at a place: reinstall, upgrade, install.
fn mode_at(place: u32, value: Value) -> Option<Mode>
    ensures { result ≡ mode_at place (view value) }
{
    if place == 0 {
        return Some(Mode::Reinstall);
    }
    if place == 1 {
        let skip_pre_upgrade = skips(value)?;
        return Some(Mode::Upgrade { skip_pre_upgrade });
    }
    if place == 2 {
        Some(Mode::Install)
    } else {
        None
    }
}

fn mode_in(value: Value) -> Option<Mode>
    ensures { result ≡ mode_in (view value) }
{
    let (place, part) = as_case(value)?;
    mode_at(place, part)
}

fn create(alloc: Global, values: Values) -> Result<Option<Demand>, NoMemory>
    ensures { IfOk result (λ found. found ≡ create (contents values)) }
{
    let Some(settings) = only_field(values) else {
        return Ok(None);
    };
    match optional_settings(alloc, settings)? {
        Some(controllers) => Ok(Some(Demand::CreateCanister { controllers })),
        None => Ok(None),
    }
}

fn with_cycles(
    amount: Option<Option<u128>>,
    controllers: Option<Option<Controllers>>,
) -> Option<Demand>
    ensures { result ≡ with_cycles amount controllers }
{
    Some(Demand::ProvisionalCreateCanisterWithCycles {
        amount: amount?,
        controllers: controllers?,
    })
}

fn provisional_create(alloc: Global, values: Values) -> Result<Option<Demand>, NoMemory>
    ensures { IfOk result (λ found. found ≡ provisional_create (contents values)) }
{
    let Some((settings, amount)) = only_two(values) else {
        return Ok(None);
    };
    let amount = optional_amount(amount);
    Ok(with_cycles(amount, optional_settings(alloc, settings)?))
}

fn top_up(values: Values) -> Option<Demand>
    ensures { result ≡ top_up (contents values) }
{
    let (canister_id, amount) = only_two(values)?;
    Some(Demand::ProvisionalTopUpCanister {
        canister_id: as_principal(&canister_id)?,
        amount: as_nat(&amount)?,
    })
}

fn with_settings(
    canister_id: Option<Principal>,
    controllers: Option<Option<Controllers>>,
) -> Option<Demand>
    ensures { result ≡ with_settings canister_id controllers }
{
    Some(Demand::UpdateSettings {
        canister_id: canister_id?,
        controllers: controllers?,
    })
}

fn update(alloc: Global, values: Values) -> Result<Option<Demand>, NoMemory>
    ensures { IfOk result (λ found. found ≡ update (contents values)) }
{
    let Some((canister_id, settings)) = only_two(values) else {
        return Ok(None);
    };
    let canister_id = as_principal(&canister_id);
    Ok(with_settings(canister_id, controllers_of(alloc, settings)?))
}

fn from_fields(
    arg: Option<Bytes>,
    wasm_module: Option<Bytes>,
    mode: Option<Mode>,
    canister_id: Option<Principal>,
) -> Option<InstallCode>
    ensures { result ≡ from_fields arg wasm_module mode canister_id }
{
    Some(InstallCode {
        arg: arg?,
        wasm_module: wasm_module?,
        mode: mode?,
        canister_id: canister_id?,
    })
}

/// The fields are moved out of the values, without a copy.
fn install(values: Values) -> Option<InstallCode>
    ensures { result ≡ install (contents values) }
{
    let (arg, wasm_module, mode, canister_id) = only_four(values)?;
    let canister_id = as_principal(&canister_id);
    from_fields(
        as_bytes(arg),
        as_bytes(wasm_module),
        mode_in(mode),
        canister_id,
    )
}

/// What the values of a method's argument demand.
fn picked(alloc: Global, method: Method, values: Values) -> Result<Option<Demand>, NoMemory>
    ensures { IfOk result (λ found. found ≡ picked method (contents values)) }
{
    match method {
        Method::CreateCanister => create(alloc, values),
        Method::ProvisionalCreateCanisterWithCycles => provisional_create(alloc, values),
        Method::ProvisionalTopUpCanister => Ok(top_up(values)),
        Method::UpdateSettings => update(alloc, values),
        Method::InstallCode => Ok(install(values).map(Demand::InstallCode)),
        Method::DepositCycles => {
            Ok(canister_id(values).map(|canister_id| Demand::DepositCycles { canister_id }))
        }
        Method::UninstallCode => {
            Ok(canister_id(values).map(|canister_id| Demand::UninstallCode { canister_id }))
        }
        Method::StartCanister => {
            Ok(canister_id(values).map(|canister_id| Demand::StartCanister { canister_id }))
        }
        Method::StopCanister => {
            Ok(canister_id(values).map(|canister_id| Demand::StopCanister { canister_id }))
        }
        Method::DeleteCanister => {
            Ok(canister_id(values).map(|canister_id| Demand::DeleteCanister { canister_id }))
        }
        Method::CanisterStatus => {
            Ok(canister_id(values).map(|canister_id| Demand::CanisterStatus { canister_id }))
        }
    }
}

/// What a method demands with this argument (Candid, DIDL); none where the argument does not decode
/// at the method's type. Other fields are skipped, and an optional field of another type is read as
/// one that is left out.
#[tactic(auto, unfolding(crate::specs::Demands::demand_of))]
pub fn demand_of(alloc: Global, method: Method, arg: &[u8]) -> Result<Option<Demand>, NoMemory>
    ensures { IfOk result (λ found. found ≡ demand_of method arg.now) }
{
    match argument(alloc, &type_of(alloc, method)?, arg)? {
        Some(values) => picked(alloc, method, values),
        None => Ok(None),
    }
}
