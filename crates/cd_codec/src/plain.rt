ghost use Rattle.std.specs.Prelude.{◌≡◌, true, false, MatchOption};
ghost use Rattle.std.specs.Str.{is_utf8};
ghost use Rattle.std.specs.Int.{w8, w16, w32, w64};
ghost use Rattle.ic_base.specs.Reader.{byte_at, both_at, filter_map_at, filter_at};
ghost use Rattle.ic_base.specs.Gives.{Gives};
ghost use Rattle.ic_leb.specs.declared.width.Width.TheVariants.{Candid};
ghost use Rattle.ic_leb.specs.Reading.{unsigned_reader, signed_reader};
ghost use Rattle.cd_codec.specs.Content.{plain, func, service};
ghost use Rattle.cd_codec.specs.View.{view};
ghost use Rattle.cd_codec.specs.ReadValue.{alone};
ghost use Rattle.cd_codec.specs.ReadPlain.{is_short, bool_of, natural_at, integer_at, counted_at, text_at, principal_at, func_at, primitive_at};

use crate::value::Value;
use cd_types::Prim;
use ic_base::ReadError;
use ic_leb::{Width, take_s, take_u};
use ic_principal::{Bytes, Principal, Text};
use std::alloc::Global;

pub(crate) fn unsigned_of(bytes: &[u8]) -> Result<(u128, &[u8]), ReadError>
    ensures { Gives (λ x. (x.0, x.1.now)) result (unsigned_reader Candid bytes.now) }
{
    match take_u(bytes, Width::Candid) {
        Ok((n, rest)) => Ok((n, rest)),
        Err(_) => Err(ReadError::Refused),
    }
}

pub(crate) fn signed_of(bytes: &[u8]) -> Result<(i128, &[u8]), ReadError>
    ensures { Gives (λ x. (x.0, x.1.now)) result (signed_reader Candid bytes.now) }
{
    match take_s(bytes, Width::Candid) {
        Ok((z, rest)) => Ok((z, rest)),
        Err(_) => Err(ReadError::Refused),
    }
}

#[tactic(auto, unfolding(crate::specs::ReadPlain::counted_at))]
pub(crate) fn counted_of(bytes: &[u8]) -> Result<(&[u8], &[u8]), ReadError>
    ensures { Gives (λ x. (x.0.now, x.1.now)) result (counted_at bytes.now) }
{
    let (count, rest) = unsigned_of(bytes)?;
    if count > rest.len() as u128 {
        return Err(ReadError::Refused);
    }
    Ok(rest.split_at(count as usize))
}

#[tactic(auto, unfolding(crate::specs::ReadPlain::text_at))]
pub(crate) fn text_of(alloc: Global, bytes: &[u8]) -> Result<(Text, &[u8]), ReadError>
    ensures { Gives (λ x. (x.0, x.1.now)) result (text_at bytes.now) }
{
    let (text, rest) = counted_of(bytes)?;
    match utf8_of(text) {
        Some(text) => {
            let items = String::from_str(alloc, text)?;
            Ok((Text { items }, rest))
        }
        None => Err(ReadError::Refused),
    }
}

fn utf8_of(bytes: &[u8]) -> Option<&str>
    ensures { MatchOption result (is_utf8 bytes.now ≡ false) (λ s. (s.now ≡ bytes.now) × (is_utf8 bytes.now ≡ true)) }
{
    match str::from_utf8(bytes) {
        Ok(text) => Some(text),
        Err(_) => None,
    }
}

fn principal_in(bytes: &[u8]) -> Result<(Principal, &[u8]), ReadError>
    ensures { Gives (λ x. (x.0, x.1.now)) result (filter_at is_short counted_at bytes.now) }
{
    let (principal, rest) = counted_of(bytes)?;
    match Principal::from_bytes(principal) {
        Ok(principal) => Ok((principal, rest)),
        Err(_) => Err(ReadError::Refused),
    }
}

#[tactic(auto, unfolding(crate::specs::ReadPlain::principal_at))]
pub(crate) fn principal_of(bytes: &[u8]) -> Result<(Principal, &[u8]), ReadError>
    ensures { Gives (λ x. (x.0, x.1.now)) result (principal_at bytes.now) }
{
    match bytes {
        [] => Err(ReadError::Refused),
        [0, ..] => Err(ReadError::Refused),
        [1, rest @ ..] => principal_in(rest),
        [_, ..] => Err(ReadError::Refused),
    }
}

fn method_in(alloc: Global, bytes: &[u8]) -> Result<(Principal, Text, &[u8]), ReadError>
    ensures { Gives (λ x. ((x.0, x.1), x.2.now)) result (both_at principal_at (λ _. text_at) bytes.now) }
{
    match principal_of(bytes) {
        Ok((service, rest)) => {
            let (method, rest) = text_of(alloc, rest)?;
            Ok((service, method, rest))
        }
        Err(error) => Err(error),
    }
}

#[tactic(auto, unfolding(crate::specs::ReadPlain::func_at))]
pub(crate) fn func_of(alloc: Global, bytes: &[u8]) -> Result<(Principal, Text, &[u8]), ReadError>
    ensures { Gives (λ x. ((x.0, x.1), x.2.now)) result (func_at bytes.now) }
{
    match bytes {
        [] => Err(ReadError::Refused),
        [0, ..] => Err(ReadError::Refused),
        [1, rest @ ..] => method_in(alloc, rest),
        [_, ..] => Err(ReadError::Refused),
    }
}

#[tactic(auto, unfolding(crate::specs::ReadPlain::natural_at))]
fn nat8_of(bytes: &[u8]) -> Result<(u8, &[u8]), ReadError>
    ensures { Gives (λ x. (x.0, x.1.now)) result (natural_at w8 bytes.now) }
{
    if bytes.len() < 1 {
        return Err(ReadError::Refused);
    }
    let (front, rest) = bytes.split_at(1);
    Ok((front[0], rest))
}

#[tactic(auto, unfolding(crate::specs::ReadPlain::natural_at))]
fn nat16_of(bytes: &[u8]) -> Result<(u16, &[u8]), ReadError>
    ensures { Gives (λ x. (x.0, x.1.now)) result (natural_at w16 bytes.now) }
{
    if bytes.len() < 2 {
        return Err(ReadError::Refused);
    }
    let (front, rest) = bytes.split_at(2);
    Ok((u16::from_le_bytes([front[0], front[1]]), rest))
}

#[tactic(auto, unfolding(crate::specs::ReadPlain::natural_at))]
fn nat32_of(bytes: &[u8]) -> Result<(u32, &[u8]), ReadError>
    ensures { Gives (λ x. (x.0, x.1.now)) result (natural_at w32 bytes.now) }
{
    if bytes.len() < 4 {
        return Err(ReadError::Refused);
    }
    let (front, rest) = bytes.split_at(4);
    let n = u32::from_le_bytes([front[0], front[1], front[2], front[3]]);
    Ok((n, rest))
}

#[tactic(auto, unfolding(crate::specs::ReadPlain::natural_at))]
fn nat64_of(bytes: &[u8]) -> Result<(u64, &[u8]), ReadError>
    ensures { Gives (λ x. (x.0, x.1.now)) result (natural_at w64 bytes.now) }
{
    if bytes.len() < 8 {
        return Err(ReadError::Refused);
    }
    let (front, rest) = bytes.split_at(8);
    let n = u64::from_le_bytes([
        front[0], front[1], front[2], front[3], front[4], front[5], front[6], front[7],
    ]);
    Ok((n, rest))
}

fn bool_of(bytes: &[u8]) -> Result<(bool, &[u8]), ReadError>
    ensures { Gives (λ x. (x.0, x.1.now)) result (filter_map_at bool_of byte_at bytes.now) }
{
    match bytes {
        [] => Err(ReadError::Refused),
        [0, rest @ ..] => Ok((false, rest)),
        [1, rest @ ..] => Ok((true, rest)),
        [_, ..] => Err(ReadError::Refused),
    }
}

/// A value of a primitive type. `left` is answered as it is.
#[inline(always)]
#[tactic(auto, using(crate::proofs::Views::layers), unfolding(crate::specs::ReadPlain::primitive_at, crate::specs::ReadPlain::integer_at))]
pub(crate) fn primitive_of(
    alloc: Global,
    prim: Prim,
    left: u32,
    bytes: &[u8],
) -> Result<(Value, u32, &[u8]), ReadError>
    ensures { Gives (λ x. (view x.0, x.1, x.2.now)) result (alone plain (primitive_at prim) left bytes.now) }
{
    match prim {
        Prim::Null => Ok((Value::Null, left, bytes)),
        Prim::Reserved => Ok((Value::Reserved, left, bytes)),
        Prim::Empty => Err(ReadError::Refused),
        Prim::Bool => {
            let (b, rest) = bool_of(bytes)?;
            Ok((Value::Bool(b), left, rest))
        }
        Prim::Nat => {
            let (n, rest) = unsigned_of(bytes)?;
            Ok((Value::Nat(n), left, rest))
        }
        Prim::Int => {
            let (z, rest) = signed_of(bytes)?;
            Ok((Value::Int(z), left, rest))
        }
        Prim::Text => {
            let (text, rest) = text_of(alloc, bytes)?;
            Ok((Value::Text(text), left, rest))
        }
        Prim::Principal => match principal_of(bytes) {
            Ok((principal, rest)) => Ok((Value::Principal(principal), left, rest)),
            Err(error) => Err(error),
        },
        Prim::Nat8 => {
            let (n, rest) = nat8_of(bytes)?;
            Ok((Value::Nat8(n), left, rest))
        }
        Prim::Nat16 => {
            let (n, rest) = nat16_of(bytes)?;
            Ok((Value::Nat16(n), left, rest))
        }
        Prim::Nat32 => {
            let (n, rest) = nat32_of(bytes)?;
            Ok((Value::Nat32(n), left, rest))
        }
        Prim::Nat64 => {
            let (n, rest) = nat64_of(bytes)?;
            Ok((Value::Nat64(n), left, rest))
        }
        Prim::Int8 => {
            let (n, rest) = nat8_of(bytes)?;
            Ok((Value::Int8(n.cast_signed()), left, rest))
        }
        Prim::Int16 => {
            let (n, rest) = nat16_of(bytes)?;
            Ok((Value::Int16(n.cast_signed()), left, rest))
        }
        Prim::Int32 => {
            let (n, rest) = nat32_of(bytes)?;
            Ok((Value::Int32(n.cast_signed()), left, rest))
        }
        Prim::Int64 => {
            let (n, rest) = nat64_of(bytes)?;
            Ok((Value::Int64(n.cast_signed()), left, rest))
        }
    }
}
