ghost use Rattle.std.specs.Prelude.{◌≡◌, IfOk};
ghost use Rattle.serde_json.specs.Data.{put};
ghost use Rattle.serde_json.specs.View.{members_view, view};
ghost use Rattle.ic_output.specs.StateLine.{count_data, decimal_data, hex_data, list_of, principal_data};

use ic_base::NoMemory;
use ic_principal::Principal;
use serde_json::{Map, Value};
use std::alloc::Global;

/// The members of an object, and one more.
pub fn with(
    alloc: Global,
    members: Map<String, Value>,
    key: &str,
    value: Value,
) -> Result<Map<String, Value>, NoMemory>
    ensures { IfOk result (λ all. members_view all.entries ≡ put key.now (view value) (members_view members.entries)) }
{
    let mut members = members;
    serde_json::put(&mut members, alloc, key, value)?;
    Ok(members)
}

/// A number that may be too large for a number of JSON.
pub fn decimal(alloc: Global, number: u128) -> Result<Value, NoMemory>
    ensures { IfOk result (λ value. view value ≡ decimal_data number) }
{
    Ok(Value::String(format!(in alloc; "{number}")?))
}

/// Bytes in hexadecimal digits.
pub fn hex_text(alloc: Global, bytes: &[u8]) -> Result<Value, NoMemory>
    ensures { IfOk result (λ value. view value ≡ hex_data bytes.now) }
{
    Ok(Value::String(hex::encode(alloc, bytes)?))
}

/// A principal by its text.
pub fn principal(alloc: Global, principal: &Principal) -> Result<Value, NoMemory>
    ensures { IfOk result (λ value. view value ≡ principal_data principal.now) }
{
    Ok(Value::String(principal.to_text(alloc)?.items))
}

/// Principals by their texts.
pub fn principals(alloc: Global, principals: &[Principal]) -> Result<Value, NoMemory>
    ensures { IfOk result (λ value. view value ≡ list_of principal_data principals.now) }
{
    let mut values = Vec::new(alloc);
    for one in principals {
        values.push(principal(alloc, one)?)?;
    }
    Ok(Value::Array(values))
}

/// Numbers, each of which may be too large for a number of JSON.
pub fn decimals(alloc: Global, numbers: &[u64]) -> Result<Value, NoMemory>
    ensures { IfOk result (λ value. view value ≡ list_of decimal_data numbers.now) }
{
    let mut values = Vec::new(alloc);
    for number in numbers {
        values.push(decimal(alloc, *number as u128)?)?;
    }
    Ok(Value::Array(values))
}
