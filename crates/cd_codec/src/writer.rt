ghost use Rattle.std.specs.Prelude.{◌≡◌, ◌≤◌, ◌++◌, ◌∷◌, length, OnOk, IfOk};
ghost use Rattle.std.specs.List.{flat_map};
ghost use Rattle.cd_codec.specs.AreValues.{HasTypes};
ghost use Rattle.cd_codec.specs.Message.{message_spelling, IsMessage};
ghost use Rattle.cd_codec.specs.Spelling.{counted, principal_spelling, spelling};
ghost use Rattle.cd_codec.specs.View.{view, views, views_of_fields};

use crate::header_writer::{write_counted, write_header};
use crate::value::Value;
use cd_types::{TyRef, TypeTable};
use ic_base::NoMemory;
use ic_leb::{write_s, write_u};
use ic_principal::{Bytes, Principal, Text};
use std::alloc::Global;

fn write_text(text: &Text, out: &mut Vec<u8>) -> Result<(), NoMemory>
    ensures { OnOk result (out.new.items ≡ out.old.items ++ counted text.now) }
{
    write_counted(text.items.as_bytes(), out)?;
    Ok(())
}

fn write_principal(principal: &Principal, out: &mut Vec<u8>) -> Result<(), NoMemory>
    ensures { OnOk result (out.new.items ≡ out.old.items ++ principal_spelling principal.now) }
{
    out.push(1)?;
    write_counted(principal.bytes(), out)?;
    Ok(())
}

fn write_func(service: &Principal, method: &Text, out: &mut Vec<u8>) -> Result<(), NoMemory>
    ensures { OnOk result (out.new.items ≡ out.old.items ++ (1 ∷ (principal_spelling service.now ++ counted method.now))) }
{
    out.push(1)?;
    write_principal(service, out)?;
    write_text(method, out)?;
    Ok(())
}

#[cycle(writer)]
#[tactic(auto, using(crate::proofs::Views::layers), unfolding(crate::specs::Spelling::spelling, crate::specs::Spelling::plain_spelling))]
fn write_value(value: &Value, out: &mut Vec<u8>) -> Result<(), NoMemory>
    ensures { OnOk result (out.new.items ≡ out.old.items ++ spelling (view value.now)) }
{
    match value {
        Value::Null | Value::Reserved => {}
        Value::Bool(b) => out.push(u8::from(*b))?,
        Value::Nat(n) => write_u(*n, out)?,
        Value::Int(z) => write_s(*z, out)?,
        Value::Nat8(n) => out.extend_from_slice(&n.to_le_bytes())?,
        Value::Nat16(n) => out.extend_from_slice(&n.to_le_bytes())?,
        Value::Nat32(n) => out.extend_from_slice(&n.to_le_bytes())?,
        Value::Nat64(n) => out.extend_from_slice(&n.to_le_bytes())?,
        Value::Int8(z) => out.extend_from_slice(&z.to_le_bytes())?,
        Value::Int16(z) => out.extend_from_slice(&z.to_le_bytes())?,
        Value::Int32(z) => out.extend_from_slice(&z.to_le_bytes())?,
        Value::Int64(z) => out.extend_from_slice(&z.to_le_bytes())?,
        Value::Text(text) => write_text(text, out)?,
        Value::Opt(part) => match part {
            None => out.push(0)?,
            Some(part) => {
                out.push(1)?;
                write_value(part, out)?;
            }
        },
        Value::Blob(bytes) => write_counted(&bytes.items, out)?,
        Value::Seq(values) => {
            write_u(values.items.len() as u128, out)?;
            write_values(&values.items, out)?;
        }
        Value::Rec(fields) => write_fields(&fields.items, out)?,
        Value::Var { position, part } => {
            write_u(u128::from(*position), out)?;
            write_value(part, out)?;
        }
        Value::Func { service, method } => write_func(service, method, out)?,
        Value::Service(id) | Value::Principal(id) => write_principal(id, out)?,
    }
    Ok(())
}

#[cycle(writer)]
fn write_values(values: &[Value], out: &mut Vec<u8>) -> Result<(), NoMemory>
    ensures { OnOk result (out.new.items ≡ out.old.items ++ flat_map spelling (views values.now)) }
{
    for value in values {
        write_value(value, out)?;
    }
    Ok(())
}

#[cycle(writer)]
fn write_fields(fields: &[(u32, Value)], out: &mut Vec<u8>) -> Result<(), NoMemory>
    ensures { OnOk result (out.new.items ≡ out.old.items ++ flat_map (λ f. spelling f.1) (views_of_fields fields.now)) }
{
    for (_, value) in fields {
        write_value(value, out)?;
    }
    Ok(())
}

/// Writes a message (Candid specification, "Binary Format", B): the table as it is, and each number
/// in its shortest spelling. Values may nest deeper and be more than `read_values` takes; the call
/// recurses as deep as they nest. Time grows with the bytes, and memory is taken for them alone.
pub fn encode(
    alloc: Global,
    table: &TypeTable,
    types: &[TyRef],
    values: &[Value],
) -> Result<Bytes, NoMemory>
    requires typed { HasTypes table.now types.now (views values.now) }
    requires few { length types.now ≤ 10000 }
    // The bytes are this function of the table, the types and the values.
    ensures bytes { IfOk result (λ out. out ≡ message_spelling table.now types.now (views values.now)) }
    // A front of them is a header, and the rest the values at its types.
    ensures grammar { IfOk result (IsMessage table.now types.now (views values.now)) }
{
    let mut items = Vec::new(alloc);
    write_header(table, types, &mut items)?;
    write_values(values, &mut items)?;
    Ok(Bytes { items })
}
