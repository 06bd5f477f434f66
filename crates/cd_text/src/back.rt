ghost use Rattle.std.specs.Prelude.{◌≡◌, ◌≤◌, ◌<◌, IfOk};
ghost use Rattle.std.specs.List.{AllByRecursion};
ghost use Rattle.ic_principal.specs.IsPrincipal.{IsPrincipal};
ghost use Rattle.cd_codec.specs.Answers.{contents};
ghost use Rattle.cd_codec.specs.AreValues.{HasTypes};
ghost use Rattle.cd_codec.specs.Content.{contents_of, parts_of};
ghost use Rattle.cd_codec.specs.Measure.{nesting_each, number_each};
ghost use Rattle.cd_codec.specs.View.{view, views, views_of_fields};
ghost use Rattle.cd_text.specs.HoldsBytes.{HoldsBytes, HoldsBytesAll, HoldsBytesParts};
ghost use Rattle.cd_text.specs.Whole.{Said};

use crate::fault::TextFault;
use crate::whole::read;
use cd_codec::{Expected, Value, Values};
use cd_names::FieldNames;
use cd_plain::{print, print_named};
use ic_base::NoMemory;
use ic_principal::Principal;
use std::alloc::{AllocError, Global};

// What a text that was printed of the values is read as.
fn said_back(
    alloc: Global,
    expected: &Expected,
    _values: &[Value],
    text: &[u8],
) -> Result<Values, NoMemory>
    requires { Said expected.now.0 expected.now.1 (views _values.now) text.now }
    ensures { IfOk result (λ again. contents again ≡ views _values.now) }
{
    match read(alloc, expected, text) {
        Ok(values) => Ok(values),
        Err(TextFault::NoMemory) => Err(AllocError),
        Err(TextFault::NotText) => unreachable!(),
    }
}

/// Prints values and reads what was printed: the values are the same, unless memory runs out.
pub fn read_back(alloc: Global, expected: &Expected, values: &[Value]) -> Result<Values, NoMemory>
    requires typed { HasTypes expected.now.0 expected.now.1 (views values.now) }
    requires deep { nesting_each (views values.now) ≤ 128 }
    requires many { number_each (views values.now) ≤ 1000000 }
    ensures { IfOk result (λ again. contents again ≡ views values.now) }
{
    let _entries = expected.table().len();
    hold_bytes(values);
    let text = print(alloc, expected.table(), expected.types(), values)?;
    said_back(alloc, expected, values, &text.items)
}

/// Prints values with names and reads what was printed: the values are the same, unless memory runs
/// out.
pub fn read_named_back(
    alloc: Global,
    expected: &Expected,
    values: &[Value],
    names: &FieldNames,
) -> Result<Values, NoMemory>
    requires typed { HasTypes expected.now.0 expected.now.1 (views values.now) }
    requires deep { nesting_each (views values.now) ≤ 128 }
    requires many { number_each (views values.now) ≤ 1000000 }
    ensures { IfOk result (λ again. contents again ≡ views values.now) }
{
    let _entries = expected.table().len();
    let _name = names.name(0);
    hold_bytes(values);
    let text = print_named(alloc, expected.table(), expected.types(), values, names)?;
    said_back(alloc, expected, values, &text.items)
}

// What the types say of a value: bytes are below 256, and principals are at most 29 of them.

#[cycle(holding)]
#[tactic(auto, using(cd_codec::proofs::Views::layers))]
fn holds_bytes(value: &Value)
    ensures { HoldsBytes (view value.now) }
{
    match value {
        Value::Null | Value::Bool(_) | Value::Nat(_) | Value::Int(_) | Value::Reserved => {}
        Value::Nat8(_) | Value::Nat16(_) | Value::Nat32(_) | Value::Nat64(_) => {}
        Value::Int8(_) | Value::Int16(_) | Value::Int32(_) | Value::Int64(_) => {}
        Value::Text(_) => {}
        Value::Opt(part) => match part {
            None => {}
            Some(part) => holds_bytes(part),
        },
        Value::Blob(bytes) => are_bytes(&bytes.items),
        Value::Seq(values) => hold_bytes(&values.items),
        Value::Rec(fields) => fields_hold_bytes(&fields.items),
        Value::Var { part, .. } => holds_bytes(part),
        Value::Func { service, .. } => is_principal(service),
        Value::Service(id) => is_principal(id),
        Value::Principal(id) => is_principal(id),
    }
}

#[cycle(holding)]
fn hold_bytes(values: &[Value])
    ensures { HoldsBytesAll (contents_of (views values.now)) }
{
    for value in values {
        holds_bytes(value);
    }
}

#[cycle(holding)]
fn fields_hold_bytes(fields: &[(u32, Value)])
    ensures { HoldsBytesParts (parts_of (views_of_fields fields.now)) }
{
    for (_, value) in fields {
        holds_bytes(value);
    }
}

fn are_bytes(_bytes: &[u8])
    ensures { AllByRecursion (λ b. b < 256) _bytes.now }
{}

fn is_principal(principal: &Principal)
    ensures { IsPrincipal principal.now }
{
    let _bytes = principal.bytes();
}
