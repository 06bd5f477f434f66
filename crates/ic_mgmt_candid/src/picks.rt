ghost use Rattle.std.specs.Prelude.{◌≡◌};
ghost use Rattle.std.specs.Option.{option_map};
ghost use Rattle.cd_codec.specs.Content.{parts_of};
ghost use Rattle.cd_codec.specs.Answers.{contents};
ghost use Rattle.cd_codec.specs.View.{view, views, views_of_fields};
ghost use Rattle.ic_mgmt_candid.specs.Picks.{only, as_record, one_part, two_parts, four_parts, one_field, only_field, only_two, only_four, view_two, view_four, view_case, as_principal, as_nat, as_bool, as_bytes, as_opt, as_list, as_case};

use cd_codec::{Value, Values};
use ic_principal::{Bytes, Principal};

/// The one value of a list.
#[tactic(auto, using(cd_codec::proofs::Views::layers))]
fn only(values: Values) -> Option<Value>
    ensures { option_map view result ≡ only (contents values) }
{
    let mut items = values.items.into_iter();
    let value = items.next()?;
    match items.next() {
        None => Some(value),
        Some(_) => None,
    }
}

/// The value of a record's one field.
fn one_part(fields: Vec<(u32, Value)>) -> Option<Value>
    ensures { option_map view result ≡ one_part (parts_of (views_of_fields fields.items)) }
{
    let mut items = fields.into_iter();
    let (_, value) = items.next()?;
    match items.next() {
        None => Some(value),
        Some(_) => None,
    }
}

/// The values of a record's two fields.
#[tactic(auto, using(crate::proofs::Fields::not_two))]
fn two_parts(fields: Vec<(u32, Value)>) -> Option<(Value, Value)>
    ensures { option_map view_two result ≡ two_parts (parts_of (views_of_fields fields.items)) }
{
    if fields.len() != 2 {
        return None;
    }
    let mut items = fields.into_iter();
    let (_, first) = items.next().unwrap();
    let (_, second) = items.next().unwrap();
    Some((first, second))
}

/// The values of a record's four fields.
#[tactic(auto, using(crate::proofs::Fields::not_four))]
fn four_parts(fields: Vec<(u32, Value)>) -> Option<(Value, Value, Value, Value)>
    ensures { option_map view_four result ≡ four_parts (parts_of (views_of_fields fields.items)) }
{
    if fields.len() != 4 {
        return None;
    }
    let mut items = fields.into_iter();
    let (_, first) = items.next().unwrap();
    let (_, second) = items.next().unwrap();
    let (_, third) = items.next().unwrap();
    let (_, fourth) = items.next().unwrap();
    Some((first, second, third, fourth))
}

/// The fields of a record.
#[tactic(auto, using(cd_codec::proofs::Views::layers))]
fn as_record(value: Value) -> Option<Vec<(u32, Value)>>
    ensures { option_map (λ fields. parts_of (views_of_fields fields.items)) result ≡ as_record (view value) }
{
    match value {
        Value::Null => None,
        Value::Bool(_) => None,
        Value::Nat(_) => None,
        Value::Int(_) => None,
        Value::Nat8(_) => None,
        Value::Nat16(_) => None,
        Value::Nat32(_) => None,
        Value::Nat64(_) => None,
        Value::Int8(_) => None,
        Value::Int16(_) => None,
        Value::Int32(_) => None,
        Value::Int64(_) => None,
        Value::Text(_) => None,
        Value::Reserved => None,
        Value::Opt(_) => None,
        Value::Blob(_) => None,
        Value::Seq(_) => None,
        Value::Rec(fields) => Some(fields.items),
        Value::Var { .. } => None,
        Value::Func { .. } => None,
        Value::Service(_) => None,
        Value::Principal(_) => None,
    }
}

/// The value in an opt.
#[tactic(auto, using(cd_codec::proofs::Views::layers))]
pub(crate) fn as_opt(value: Value) -> Option<Option<Value>>
    ensures { option_map (option_map view) result ≡ as_opt (view value) }
{
    match value {
        Value::Null => None,
        Value::Bool(_) => None,
        Value::Nat(_) => None,
        Value::Int(_) => None,
        Value::Nat8(_) => None,
        Value::Nat16(_) => None,
        Value::Nat32(_) => None,
        Value::Nat64(_) => None,
        Value::Int8(_) => None,
        Value::Int16(_) => None,
        Value::Int32(_) => None,
        Value::Int64(_) => None,
        Value::Text(_) => None,
        Value::Reserved => None,
        Value::Opt(inner) => match inner {
            None => Some(None),
            Some(value) => Some(Some(Box::into_inner(value))),
        },
        Value::Blob(_) => None,
        Value::Seq(_) => None,
        Value::Rec(_) => None,
        Value::Var { .. } => None,
        Value::Func { .. } => None,
        Value::Service(_) => None,
        Value::Principal(_) => None,
    }
}

/// The place of a variant's case, and its value.
#[tactic(auto, using(cd_codec::proofs::Views::layers))]
pub(crate) fn as_case(value: Value) -> Option<(u32, Value)>
    ensures { option_map view_case result ≡ as_case (view value) }
{
    match value {
        Value::Null => None,
        Value::Bool(_) => None,
        Value::Nat(_) => None,
        Value::Int(_) => None,
        Value::Nat8(_) => None,
        Value::Nat16(_) => None,
        Value::Nat32(_) => None,
        Value::Nat64(_) => None,
        Value::Int8(_) => None,
        Value::Int16(_) => None,
        Value::Int32(_) => None,
        Value::Int64(_) => None,
        Value::Text(_) => None,
        Value::Reserved => None,
        Value::Opt(_) => None,
        Value::Blob(_) => None,
        Value::Seq(_) => None,
        Value::Rec(_) => None,
        Value::Var { position, part } => Some((position, Box::into_inner(part))),
        Value::Func { .. } => None,
        Value::Service(_) => None,
        Value::Principal(_) => None,
    }
}

/// Bytes, moved out.
#[tactic(auto, using(cd_codec::proofs::Views::layers))]
pub(crate) fn as_bytes(value: Value) -> Option<Bytes>
    ensures { result ≡ as_bytes (view value) }
{
    match value {
        Value::Null => None,
        Value::Bool(_) => None,
        Value::Nat(_) => None,
        Value::Int(_) => None,
        Value::Nat8(_) => None,
        Value::Nat16(_) => None,
        Value::Nat32(_) => None,
        Value::Nat64(_) => None,
        Value::Int8(_) => None,
        Value::Int16(_) => None,
        Value::Int32(_) => None,
        Value::Int64(_) => None,
        Value::Text(_) => None,
        Value::Reserved => None,
        Value::Opt(_) => None,
        Value::Blob(bytes) => Some(bytes),
        Value::Seq(_) => None,
        Value::Rec(_) => None,
        Value::Var { .. } => None,
        Value::Func { .. } => None,
        Value::Service(_) => None,
        Value::Principal(_) => None,
    }
}

/// A principal.
#[tactic(auto, using(cd_codec::proofs::Views::layers))]
pub(crate) fn as_principal(value: &Value) -> Option<Principal>
    ensures { result ≡ as_principal (view value.now) }
{
    match value {
        Value::Null => None,
        Value::Bool(_) => None,
        Value::Nat(_) => None,
        Value::Int(_) => None,
        Value::Nat8(_) => None,
        Value::Nat16(_) => None,
        Value::Nat32(_) => None,
        Value::Nat64(_) => None,
        Value::Int8(_) => None,
        Value::Int16(_) => None,
        Value::Int32(_) => None,
        Value::Int64(_) => None,
        Value::Text(_) => None,
        Value::Reserved => None,
        Value::Opt(_) => None,
        Value::Blob(_) => None,
        Value::Seq(_) => None,
        Value::Rec(_) => None,
        Value::Var { .. } => None,
        Value::Func { .. } => None,
        Value::Service(_) => None,
        Value::Principal(id) => Some(*id),
    }
}

/// A truth value.
#[tactic(auto, using(cd_codec::proofs::Views::layers))]
pub(crate) fn as_bool(value: &Value) -> Option<bool>
    ensures { result ≡ as_bool (view value.now) }
{
    match value {
        Value::Null => None,
        Value::Bool(b) => Some(*b),
        Value::Nat(_) => None,
        Value::Int(_) => None,
        Value::Nat8(_) => None,
        Value::Nat16(_) => None,
        Value::Nat32(_) => None,
        Value::Nat64(_) => None,
        Value::Int8(_) => None,
        Value::Int16(_) => None,
        Value::Int32(_) => None,
        Value::Int64(_) => None,
        Value::Text(_) => None,
        Value::Reserved => None,
        Value::Opt(_) => None,
        Value::Blob(_) => None,
        Value::Seq(_) => None,
        Value::Rec(_) => None,
        Value::Var { .. } => None,
        Value::Func { .. } => None,
        Value::Service(_) => None,
        Value::Principal(_) => None,
    }
}

/// The items of a vec that is no `vec nat8`.
#[tactic(auto, using(cd_codec::proofs::Views::layers, crate::proofs::Fields::listed))]
pub(crate) fn as_list(value: Value) -> Option<Vec<Value>>
    ensures { option_map (λ items. views items.items) result ≡ as_list (view value) }
{
    match value {
        Value::Null => None,
        Value::Bool(_) => None,
        Value::Nat(_) => None,
        Value::Int(_) => None,
        Value::Nat8(_) => None,
        Value::Nat16(_) => None,
        Value::Nat32(_) => None,
        Value::Nat64(_) => None,
        Value::Int8(_) => None,
        Value::Int16(_) => None,
        Value::Int32(_) => None,
        Value::Int64(_) => None,
        Value::Text(_) => None,
        Value::Reserved => None,
        Value::Opt(_) => None,
        Value::Blob(_) => None,
        Value::Seq(values) => Some(values.items),
        Value::Rec(_) => None,
        Value::Var { .. } => None,
        Value::Func { .. } => None,
        Value::Service(_) => None,
        Value::Principal(_) => None,
    }
}

/// A number.
#[tactic(auto, using(cd_codec::proofs::Views::layers))]
pub(crate) fn as_nat(value: &Value) -> Option<u128>
    ensures { result ≡ as_nat (view value.now) }
{
    match value {
        Value::Null => None,
        Value::Bool(_) => None,
        Value::Nat(n) => Some(*n),
        Value::Int(_) => None,
        Value::Nat8(_) => None,
        Value::Nat16(_) => None,
        Value::Nat32(_) => None,
        Value::Nat64(_) => None,
        Value::Int8(_) => None,
        Value::Int16(_) => None,
        Value::Int32(_) => None,
        Value::Int64(_) => None,
        Value::Text(_) => None,
        Value::Reserved => None,
        Value::Opt(_) => None,
        Value::Blob(_) => None,
        Value::Seq(_) => None,
        Value::Rec(_) => None,
        Value::Var { .. } => None,
        Value::Func { .. } => None,
        Value::Service(_) => None,
        Value::Principal(_) => None,
    }
}

/// The value of a record's one field.
pub(crate) fn one_field(value: Value) -> Option<Value>
    ensures { option_map view result ≡ one_field (view value) }
{
    one_part(as_record(value)?)
}

/// The value of the one field of the one record.
pub(crate) fn only_field(values: Values) -> Option<Value>
    ensures { option_map view result ≡ only_field (contents values) }
{
    one_field(only(values)?)
}

/// The values of its two fields.
pub(crate) fn only_two(values: Values) -> Option<(Value, Value)>
    ensures { option_map view_two result ≡ only_two (contents values) }
{
    two_parts(as_record(only(values)?)?)
}

/// The values of its four fields.
pub(crate) fn only_four(values: Values) -> Option<(Value, Value, Value, Value)>
    ensures { option_map view_four result ≡ only_four (contents values) }
{
    four_parts(as_record(only(values)?)?)
}
