ghost use Rattle.std.specs.Prelude.{◌≡◌, [], ◌∷◌, ◌≤◌, ◌<◌, ◌^◌, IfOk, IfSome, All, map, length};
ghost use Rattle.cd_codec.specs.Content.{list, contents_of};
ghost use Rattle.cd_codec.specs.View.{view, views};
ghost use Rattle.ic_mgmt_candid.specs.Replies.{canister_value, canister_reply, phase_case, principal_value, settings_value, hash_value, status_value, status_told};

use crate::ids::{CANISTER_ID, CONTROLLERS, CYCLES, MEMORY_SIZE, MODULE_HASH, SETTINGS, STATUS};
use crate::types::{canister_type, status_type};
use cd_codec::{Value, encode};
use ic_base::NoMemory;
use ic_behaviour::{Controllers, Phase};
use ic_principal::{Bytes, Principal};
use std::alloc::Global;

#[tactic(auto, using(cd_codec::proofs::Views::layers))]
fn canister_value(alloc: Global, id: Principal) -> Result<Value, NoMemory>
    ensures { IfOk result (λ v. view v ≡ canister_value id) }
{
    let mut fields = Vec::new(alloc);
    fields.push((CANISTER_ID, Value::Principal(id)))?;
    Ok(Value::of_fields(fields))
}

/// The reply that names a canister (Candid, DIDL).
#[tactic(auto, unfolding(crate::specs::Replies::canister_reply))]
pub fn canister_reply(alloc: Global, id: Principal) -> Result<Bytes, NoMemory>
    ensures { IfOk result (λ reply. reply ≡ canister_reply id) }
{
    let types = canister_type(alloc)?;
    let _bytes = id.bytes();
    let mut values = Vec::new(alloc);
    values.push(canister_value(alloc, id)?)?;
    encode(alloc, types.table(), types.types(), &values)
}

/// A principal as a value; it has at most 29 bytes.
#[tactic(auto, using(cd_codec::proofs::Views::layers))]
fn principal_value(id: &Principal) -> Value
    ensures value { view result ≡ principal_value id.now }
    ensures short { length id.now ≤ 29 }
{
    let _bytes = id.bytes();
    Value::Principal(*id)
}

/// The principals as values.
#[tactic(auto, using(crate::proofs::Fronts::one_more_value, crate::proofs::Fronts::one_more_short))]
fn principal_values(alloc: Global, ids: &[Principal]) -> Result<Vec<Value>, NoMemory>
    ensures values { IfOk result (λ values. views values.items ≡ map principal_value ids.now) }
    ensures short { IfOk result (λ values. All (λ id. length id ≤ 29) ids.now) }
    ensures few { IfOk result (λ values. length ids.now < 2 ^ 64) }
{
    let mut values = Vec::with_capacity(alloc, ids.len())?;
    for id in ids {
        values.push(principal_value(id))?;
    }
    Ok(values)
}

fn settings_value(alloc: Global, controllers: &Controllers) -> Result<Value, NoMemory>
    ensures value { IfOk result (λ v. view v ≡ settings_value controllers.now) }
    ensures short { IfOk result (λ v. All (λ id. length id ≤ 29) controllers.now) }
    ensures few { IfOk result (λ v. length controllers.now < 2 ^ 64) }
{
    let ids = principal_values(alloc, &controllers.items)?;
    let mut fields = Vec::new(alloc);
    fields.push((CONTROLLERS, Value::of_items(ids)))?;
    Ok(Value::of_fields(fields))
}

fn hash_value(alloc: Global, hash: Option<[u8; 32]>) -> Result<Value, NoMemory>
    ensures value { IfOk result (λ v. view v ≡ hash_value hash) }
    ensures few { IfOk result (λ v. IfSome hash (λ h. length h < 2 ^ 64)) }
{
    match hash {
        None => Ok(Value::none()),
        Some(hash) => {
            let mut bytes = Vec::with_capacity(alloc, hash.len())?;
            bytes.extend_from_slice(&hash)?;
            Value::some(alloc, Value::of_bytes(bytes))
        }
    }
}

/// The place of the case: stopped, stopping, running.
fn phase_case(phase: &Phase) -> u32
    ensures { result ≡ phase_case phase.now }
{
    match phase {
        Phase::Stopped => 0,
        Phase::Stopping(_) => 1,
        Phase::Running => 2,
    }
}

/// A record's fields stand by rising ids.
#[tactic(auto, using(cd_codec::proofs::Views::layers))]
fn status_value(
    alloc: Global,
    phase: &Phase,
    controllers: &Controllers,
    module_hash: Option<[u8; 32]>,
    memory_size: u64,
    cycles: u128,
) -> Result<Value, NoMemory>
    ensures value { IfOk result (λ v. view v ≡ status_value phase.now controllers.now module_hash memory_size cycles) }
    ensures short { IfOk result (λ v. All (λ id. length id ≤ 29) controllers.now) }
    ensures few { IfOk result (λ v. length controllers.now < 2 ^ 64) }
    ensures hash { IfOk result (λ v. IfSome module_hash (λ h. length h < 2 ^ 64)) }
{
    let mut fields = Vec::new(alloc);
    fields.push((
        STATUS,
        Value::of_case(alloc, phase_case(phase), Value::Null)?,
    ))?;
    fields.push((MEMORY_SIZE, Value::Nat(u128::from(memory_size))))?;
    fields.push((CYCLES, Value::Nat(cycles)))?;
    fields.push((SETTINGS, settings_value(alloc, controllers)?))?;
    fields.push((MODULE_HASH, hash_value(alloc, module_hash)?))?;
    Ok(Value::of_fields(fields))
}

/// What `canister_status` replies (Candid, DIDL): of a canister with this phase, these controllers,
/// the hash of its module where it has one, the bytes of its memory and its stable memory, and its
/// balance.
#[tactic(auto, unfolding(crate::specs::Replies::status_told))]
pub fn status_reply(
    alloc: Global,
    phase: &Phase,
    controllers: &Controllers,
    module_hash: Option<[u8; 32]>,
    memory_size: u64,
    cycles: u128,
) -> Result<Bytes, NoMemory>
    ensures { IfOk result (λ reply. reply ≡ status_told phase.now controllers.now module_hash memory_size cycles) }
{
    let types = status_type(alloc)?;
    let mut values = Vec::new(alloc);
    values.push(status_value(alloc, phase, controllers, module_hash, memory_size, cycles)?)?;
    encode(alloc, types.table(), types.types(), &values)
}
