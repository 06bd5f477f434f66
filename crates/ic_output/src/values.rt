ghost use Rattle.std.specs.Prelude.{◌≡◌, List, IfOk, length, map, option_map};
ghost use Rattle.ic_behaviour.specs.declared.call.Message.{Message};
ghost use Rattle.ic_state.specs.IsWorld.{IsWorld};
ghost use Rattle.sha2.specs.Sha256.{sha256};
ghost use Rattle.serde_json.specs.View.{view};
ghost use Rattle.ic_state.specs.Seen.{code_of, entry_of, state_of};
ghost use Rattle.ic_output.specs.StateLine.{canister_data, hex_data, list_of, module_hash, principal_data, state_data, state_text, status_text};

use crate::members::{decimal, decimals, hex_text, principal, principals, with};
use ic_base::NoMemory;
use ic_principal::{Bytes, Principal};
use ic_state::{Canister, CanisterPlace, CodePlace, Contexts, Controllers, Parts, Phase};
use serde_json::{Map, Value};
use sha2::{Digest, Sha256};
use std::alloc::Global;
use std::collections::BTreeMap;

/// The state in one line, without its end.
#[tactic(auto, unfolding(crate::specs::StateLine::state_text))]
pub fn state_text(alloc: Global, parts: &Parts, messages: usize) -> Result<Bytes, NoMemory>
    requires keeps { (list : List Message) × IsWorld (record parts.now { messages = list }) }
    ensures { IfOk result (λ text. (list : List Message) → IsWorld (record parts.now { messages = list }) → length list ≡ messages
        → text ≡ state_text (state_of (record parts.now { messages = list }))) }
{
    let value = state_value(alloc, parts, messages)?;
    Ok(Bytes {
        items: value.to_vec(alloc)?,
    })
}

fn state_value(alloc: Global, parts: &Parts, messages: usize) -> Result<Value, NoMemory>
    requires keeps { (list : List Message) × IsWorld (record parts.now { messages = list }) }
    ensures { IfOk result (λ value. (list : List Message) → IsWorld (record parts.now { messages = list }) → length list ≡ messages
        → view value ≡ state_data (state_of (record parts.now { messages = list }))) }
{
    let map = Map::new(alloc);
    let burned = decimal(alloc, parts.burned)?;
    let map = with(alloc, map, "burned", burned)?;
    let canisters = canister_values(alloc, &parts.canisters)?;
    let map = with(alloc, map, "canisters", canisters)?;
    let created = decimal(alloc, parts.created)?;
    let map = with(alloc, map, "created", created)?;
    let held = decimal(alloc, parts.created - parts.burned)?;
    let map = with(alloc, map, "held", held)?;
    let messages = Value::from(messages);
    let map = with(alloc, map, "messages", messages)?;
    let time = decimal(alloc, parts.time as u128)?;
    let map = with(alloc, map, "time", time)?;
    Ok(Value::Object(map))
}

fn canister_values(
    alloc: Global,
    canisters: &BTreeMap<Principal, CanisterPlace>,
) -> Result<Value, NoMemory>
    ensures { IfOk result (λ value. view value ≡ list_of canister_data (map entry_of canisters.now.entries)) }
{
    let mut values = Vec::new(alloc);
    for (id, canister) in canisters {
        values.push(canister_value(alloc, id, canister.get())?)?;
    }
    Ok(Value::Array(values))
}

fn count(contexts: &Contexts) -> usize
    ensures { result ≡ length contexts.now }
{
    contexts.items.len()
}

fn canister_value(alloc: Global, id: &Principal, canister: &Canister) -> Result<Value, NoMemory>
    ensures { IfOk result (λ value. view value ≡ canister_data (entry_of (id.now, canister.now))) }
{
    let map = Map::new(alloc);
    let balance = decimal(alloc, canister.balance)?;
    let map = with(alloc, map, "balance", balance)?;
    let certified = bytes_text(alloc, &canister.certified)?;
    let map = with(alloc, map, "certified", certified)?;
    let contexts = Value::from(count(&canister.contexts));
    let map = with(alloc, map, "contexts", contexts)?;
    let controllers = controllers_value(alloc, &canister.controllers)?;
    let map = with(alloc, map, "controllers", controllers)?;
    let store = canister.store.get();
    let globals = decimals(alloc, store.globals())?;
    let map = with(alloc, map, "globals", globals)?;
    let id = principal(alloc, id)?;
    let map = with(alloc, map, "id", id)?;
    let memory = Value::from(store.pages());
    let map = with(alloc, map, "memory", memory)?;
    let memory_hash = hash_text(alloc, store.memory())?;
    let map = with(alloc, map, "memory_hash", memory_hash)?;
    let module = module_text(alloc, &canister.code)?;
    let map = with(alloc, map, "module", module)?;
    let stable = Value::from(store.stable_pages());
    let map = with(alloc, map, "stable", stable)?;
    let stable_hash = hash_text(alloc, store.stable())?;
    let map = with(alloc, map, "stable_hash", stable_hash)?;
    let status = Value::try_from_str(alloc, status(&canister.phase))?;
    let map = with(alloc, map, "status", status)?;
    Ok(Value::Object(map))
}

fn bytes_text(alloc: Global, bytes: &Bytes) -> Result<Value, NoMemory>
    ensures { IfOk result (λ value. view value ≡ hex_data bytes.now) }
{
    hex_text(alloc, &bytes.items)
}

fn controllers_value(alloc: Global, controllers: &Controllers) -> Result<Value, NoMemory>
    ensures { IfOk result (λ value. view value ≡ list_of principal_data controllers.now) }
{
    principals(alloc, &controllers.items)
}

fn hash_text(alloc: Global, bytes: &[u8]) -> Result<Value, NoMemory>
    ensures { IfOk result (λ value. view value ≡ hex_data (sha256 bytes.now)) }
{
    let hash: [u8; 32] = Sha256::digest(bytes);
    hex_text(alloc, hash.as_slice())
}

// The hash of the code, and the empty text where there is none.
fn module_text(alloc: Global, code: &Option<CodePlace>) -> Result<Value, NoMemory>
    ensures { IfOk result (λ value. view value ≡ hex_data (module_hash (option_map code_of code.now))) }
{
    match code {
        Some(code) => hex_text(alloc, code.get().hash.as_slice()),
        None => hex_text(alloc, b"".as_slice()),
    }
}

fn status(phase: &Phase) -> &'static str
    ensures { result.now ≡ status_text phase.now }
{
    match phase {
        Phase::Running => "running",
        Phase::Stopping(_) => "stopping",
        Phase::Stopped => "stopped",
    }
}
