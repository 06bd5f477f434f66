ghost use Rattle.std.specs.Prelude.{◌≡◌, Some, None, if◌then◌else◌};
ghost use Rattle.ic_base.specs.Gives.{Gives};
ghost use Rattle.cd_types.specs.Shape.{shape};
ghost use Rattle.cd_codec.specs.Content.{plain, nat};
ghost use Rattle.cd_codec.specs.View.{view};
ghost use Rattle.cd_coerce.specs.Step.{opt_rule, plain_part, view_within, answer_of_plain};

use crate::shapes::{is_func, is_primitive, is_service};
use cd_codec::Value;
use cd_types::{Prim, TyRef, TypeTable};
use ic_base::ReadError;

/// Which of the rules for opt takes a value.
#[derive(Clone, Copy)]
pub(crate) enum OptRule {
    /// null, reserved or none
    ToNone,
    /// some of a value
    Inner,
    /// any other value
    Constituent,
}

#[tactic(auto, using(cd_codec::proofs::Views::layers))]
pub(crate) fn opt_rule_of(value: &Value) -> OptRule
    ensures { result ≡ opt_rule (view value.now) }
{
    match value {
        Value::Null => OptRule::ToNone,
        Value::Reserved => OptRule::ToNone,
        Value::Opt(inner) => match inner {
            None => OptRule::ToNone,
            Some(_) => OptRule::Inner,
        },
        Value::Bool(_) => OptRule::Constituent,
        Value::Nat(_) => OptRule::Constituent,
        Value::Int(_) => OptRule::Constituent,
        Value::Nat8(_) => OptRule::Constituent,
        Value::Nat16(_) => OptRule::Constituent,
        Value::Nat32(_) => OptRule::Constituent,
        Value::Nat64(_) => OptRule::Constituent,
        Value::Int8(_) => OptRule::Constituent,
        Value::Int16(_) => OptRule::Constituent,
        Value::Int32(_) => OptRule::Constituent,
        Value::Int64(_) => OptRule::Constituent,
        Value::Text(_) => OptRule::Constituent,
        Value::Blob(_) => OptRule::Constituent,
        Value::Seq(_) => OptRule::Constituent,
        Value::Rec(_) => OptRule::Constituent,
        Value::Var { .. } => OptRule::Constituent,
        Value::Func { .. } => OptRule::Constituent,
        Value::Service(_) => OptRule::Constituent,
        Value::Principal(_) => OptRule::Constituent,
    }
}

/// The value, if its type is the one that is expected.
#[inline(always)]
fn keep(fits: bool, value: Value) -> Result<Option<Value>, ReadError>
    ensures { Gives view_within result (answer_of_plain (if fits then Some (view value) else None)) }
{
    if fits {
        Ok(Some(value))
    } else {
        Err(ReadError::Refused)
    }
}

/// A nat at nat, or at int where it is below 2^127.
#[tactic(auto, using(cd_codec::proofs::Views::layers))]
fn keep_nat(table: &TypeTable, ty: TyRef, n: u128) -> Result<Option<Value>, ReadError>
    ensures { Gives view_within result (plain_part (plain (nat n)) (shape table.now ty)) }
{
    if is_primitive(table, ty, Prim::Nat) {
        return Ok(Some(Value::Nat(n)));
    }
    if is_primitive(table, ty, Prim::Int) && n < 1 << 127 {
        return Ok(Some(Value::Int(n as i128)));
    }
    Err(ReadError::Refused)
}

/// A value without parts, read at a type that is no opt; no value where it has parts.
#[inline(always)]
#[tactic(auto, using(cd_codec::proofs::Views::layers))]
pub(crate) fn plain_of(
    table: &TypeTable,
    value: &Value,
    ty: TyRef,
) -> Result<Option<Value>, ReadError>
    ensures { Gives view_within result (plain_part (view value.now) (shape table.now ty)) }
{
    match value {
        Value::Null => keep(is_primitive(table, ty, Prim::Null), Value::Null),
        Value::Reserved => keep(is_primitive(table, ty, Prim::Reserved), Value::Reserved),
        Value::Bool(b) => keep(is_primitive(table, ty, Prim::Bool), Value::Bool(*b)),
        Value::Nat(n) => keep_nat(table, ty, *n),
        Value::Int(n) => keep(is_primitive(table, ty, Prim::Int), Value::Int(*n)),
        Value::Nat8(n) => keep(is_primitive(table, ty, Prim::Nat8), Value::Nat8(*n)),
        Value::Nat16(n) => keep(is_primitive(table, ty, Prim::Nat16), Value::Nat16(*n)),
        Value::Nat32(n) => keep(is_primitive(table, ty, Prim::Nat32), Value::Nat32(*n)),
        Value::Nat64(n) => keep(is_primitive(table, ty, Prim::Nat64), Value::Nat64(*n)),
        Value::Int8(n) => keep(is_primitive(table, ty, Prim::Int8), Value::Int8(*n)),
        Value::Int16(n) => keep(is_primitive(table, ty, Prim::Int16), Value::Int16(*n)),
        Value::Int32(n) => keep(is_primitive(table, ty, Prim::Int32), Value::Int32(*n)),
        Value::Int64(n) => keep(is_primitive(table, ty, Prim::Int64), Value::Int64(*n)),
        Value::Text(text) => keep(
            is_primitive(table, ty, Prim::Text),
            Value::Text(text.copy()?),
        ),
        Value::Func { service, method } => {
            let method = method.copy()?;
            keep(
                is_func(table, ty),
                Value::Func {
                    service: *service,
                    method,
                },
            )
        }
        Value::Service(service) => keep(is_service(table, ty), Value::Service(*service)),
        Value::Principal(principal) => keep(
            is_primitive(table, ty, Prim::Principal),
            Value::Principal(*principal),
        ),
        Value::Opt(None) => Ok(None),
        Value::Opt(Some(_)) => Ok(None),
        Value::Blob(_) => Ok(None),
        Value::Seq(_) => Ok(None),
        Value::Rec(_) => Ok(None),
        Value::Var { .. } => Ok(None),
    }
}
