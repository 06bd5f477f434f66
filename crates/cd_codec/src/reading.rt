ghost use Rattle.std.specs.Prelude.{◌≡◌, ◌≤◌, ◌^◌, Some, List, true, false, length, drop, IfOk};
ghost use Rattle.ic_base.specs.Gives.{Gives};
ghost use Rattle.cd_types.specs.IsOrdered.{is_ordered};
ghost use Rattle.cd_codec.specs.AreValues.{AreValues};
ghost use Rattle.cd_codec.specs.Answers.{contents, ReadsValues};
ghost use Rattle.cd_codec.specs.Content.{Content, plain, func, service, blob, none, some, list, record_of, variant, contents_of, parts_of};
ghost use Rattle.cd_codec.specs.View.{view, views, views_of_fields};
ghost use Rattle.cd_codec.specs.ReadPlain.{counted_at, principal_at, func_at};
ghost use Rattle.cd_codec.specs.ReadValue.{alone, opt_at, items_at, seq_at, each_at, field_at, record_at, variant_at, entry_at, value_at, values_at};

use crate::fault::ValueFault;
use crate::header::Header;
use crate::plain::{counted_of, func_of, primitive_of, principal_of, unsigned_of};
use crate::value::{Value, Values};
use cd_types::{Entry, Prim, TyRef, TypeTable};
use ic_base::{ReadError, room_claimed, room_for};
use std::alloc::Global;

/// How deep the values of a message may nest: a value has nesting 1, and a part one more.
const MAX_NESTING: u32 = 128;

/// How many values a message may have. A `vec nat8` is one value.
const MAX_VALUES: u32 = 1_000_000;

// Part of each loop that calls it, so that a value is made where it is kept.
#[inline(always)]
#[cycle(reader)]
#[tactic(auto, unfolding(crate::specs::ReadValue::value_at))]
fn value_of<'a>(
    alloc: Global,
    table: &TypeTable,
    ty: TyRef,
    depth: u32,
    left: u32,
    bytes: &'a [u8],
) -> Result<(Value, u32, &'a [u8]), ReadError>
    ensures { Gives (λ x. (view x.0, x.1, x.2.now)) result (value_at table.now depth ty left bytes.now) }
{
    if depth == 0 {
        return Err(ReadError::Refused);
    }
    if left == 0 {
        return Err(ReadError::Refused);
    }
    match ty {
        TyRef::Prim(prim) => primitive_of(alloc, prim, left - 1, bytes),
        TyRef::Index(index) => match table.entry(index) {
            None => Err(ReadError::Refused),
            Some(entry) => entry_of(alloc, table, entry, depth - 1, left - 1, bytes),
        },
    }
}

#[inline(never)]
#[cycle(reader)]
#[tactic(auto, unfolding(crate::specs::ReadValue::entry_at, crate::specs::ReadValue::seq_at))]
fn entry_of<'a>(
    alloc: Global,
    table: &TypeTable,
    entry: &Entry,
    depth: u32,
    left: u32,
    bytes: &'a [u8],
) -> Result<(Value, u32, &'a [u8]), ReadError>
    requires { is_ordered entry.now ≡ true }
    ensures { Gives (λ x. (view x.0, x.1, x.2.now)) result (entry_at (value_at table.now depth) entry.now left bytes.now) }
{
    match entry {
        Entry::Opt(ty) => opt_of(alloc, table, *ty, depth, left, bytes),
        Entry::Seq(TyRef::Prim(Prim::Nat8)) => blob_of(alloc, left, bytes),
        Entry::Seq(ty) => list_of(alloc, table, *ty, depth, left, bytes),
        Entry::Rec(fields) => record_of(alloc, table, &fields.items, depth, left, bytes),
        Entry::Var(cases) => variant_of(alloc, table, &cases.items, depth, left, bytes),
        Entry::Func { .. } => method_of(alloc, left, bytes),
        Entry::Service(_) => service_of(left, bytes),
    }
}

fn blob_of(alloc: Global, left: u32, bytes: &[u8]) -> Result<(Value, u32, &[u8]), ReadError>
    ensures { Gives (λ x. (view x.0, x.1, x.2.now)) result (alone blob counted_at left bytes.now) }
{
    let (blob, rest) = counted_of(bytes)?;
    let items = Vec::from_slice(alloc, blob)?;
    Ok((Value::of_bytes(items), left, rest))
}

#[tactic(auto, using(crate::proofs::Views::layers))]
fn method_of(alloc: Global, left: u32, bytes: &[u8]) -> Result<(Value, u32, &[u8]), ReadError>
    ensures { Gives (λ x. (view x.0, x.1, x.2.now)) result (alone (λ f. plain (func f.0 f.1)) func_at left bytes.now) }
{
    match func_of(alloc, bytes) {
        Ok((service, method, rest)) => Ok((Value::Func { service, method }, left, rest)),
        Err(error) => Err(error),
    }
}

#[tactic(auto, using(crate::proofs::Views::layers))]
fn service_of(left: u32, bytes: &[u8]) -> Result<(Value, u32, &[u8]), ReadError>
    ensures { Gives (λ x. (view x.0, x.1, x.2.now)) result (alone (λ p. plain (service p)) principal_at left bytes.now) }
{
    match principal_of(bytes) {
        Ok((service, rest)) => Ok((Value::Service(service), left, rest)),
        Err(error) => Err(error),
    }
}

#[cycle(reader)]
#[tactic(auto, unfolding(crate::specs::ReadValue::opt_at))]
fn opt_of<'a>(
    alloc: Global,
    table: &TypeTable,
    ty: TyRef,
    depth: u32,
    left: u32,
    bytes: &'a [u8],
) -> Result<(Value, u32, &'a [u8]), ReadError>
    ensures { Gives (λ x. (view x.0, x.1, x.2.now)) result (opt_at (value_at table.now depth ty) left bytes.now) }
{
    match bytes {
        [] => Err(ReadError::Refused),
        [0, rest @ ..] => Ok((Value::none(), left, rest)),
        [1, rest @ ..] => {
            let (part, left, rest) = value_of(alloc, table, ty, depth, left, rest)?;
            let value = Value::some(alloc, part)?;
            Ok((value, left, rest))
        }
        [_, ..] => Err(ReadError::Refused),
    }
}

#[cycle(reader)]
#[tactic(auto, unfolding(crate::specs::ReadValue::seq_at))]
fn list_of<'a>(
    alloc: Global,
    table: &TypeTable,
    ty: TyRef,
    depth: u32,
    left: u32,
    bytes: &'a [u8],
) -> Result<(Value, u32, &'a [u8]), ReadError>
    ensures { Gives (λ x. (view x.0, x.1, x.2.now)) result (seq_at false (value_at table.now depth ty) left bytes.now) }
{
    let counted = unsigned_of(bytes)?;
    let (items, left, rest) = items_of(alloc, table, ty, depth, left, counted)?;
    Ok((Value::of_items(items), left, rest))
}

// The values of a `vec`, as many as the count says that was read with the bytes after it.
#[cycle(reader)]
fn items_of<'a>(
    alloc: Global,
    table: &TypeTable,
    ty: TyRef,
    depth: u32,
    left: u32,
    counted: (u128, &'a [u8]),
) -> Result<(Vec<Value>, u32, &'a [u8]), ReadError>
    ensures { Gives (λ x. (views x.0.items, x.1, x.2.now)) result (items_at (value_at table.now depth ty) counted.entry.0 left counted.entry.1.now) }
{
    let mut items = Vec::with_capacity(alloc, room_claimed(counted.0, counted.1))?;
    let mut unread = left;
    let mut rest = counted.1;
    for _ in 0..counted.0 {
        let (value, left, after) = value_of(alloc, table, ty, depth, unread, rest)?;
        items.push(value)?;
        unread = left;
        rest = after;
    }
    Ok((items, unread, rest))
}

#[cycle(reader)]
#[tactic(auto, unfolding(crate::specs::ReadValue::record_at))]
fn record_of<'a>(
    alloc: Global,
    table: &TypeTable,
    fields: &[(u32, TyRef)],
    depth: u32,
    left: u32,
    bytes: &'a [u8],
) -> Result<(Value, u32, &'a [u8]), ReadError>
    ensures { Gives (λ x. (view x.0, x.1, x.2.now)) result (record_at (value_at table.now depth) fields.now left bytes.now) }
{
    let (parts, left, rest) = parts_of(alloc, table, fields, depth, left, bytes)?;
    Ok((Value::of_fields(parts), left, rest))
}

#[cycle(reader)]
fn parts_of<'a>(
    alloc: Global,
    table: &TypeTable,
    fields: &[(u32, TyRef)],
    depth: u32,
    left: u32,
    bytes: &'a [u8],
) -> Result<(Vec<(u32, Value)>, u32, &'a [u8]), ReadError>
    ensures { Gives (λ x. (views_of_fields x.0.items, x.1, x.2.now)) result (each_at (field_at (value_at table.now depth)) fields.now left bytes.now) }
{
    let mut parts = Vec::with_capacity(alloc, room_for(fields.len()))?;
    let mut unread = left;
    let mut rest = bytes;
    for (id, ty) in fields {
        let (value, left, after) = value_of(alloc, table, *ty, depth, unread, rest)?;
        parts.push((*id, value))?;
        unread = left;
        rest = after;
    }
    Ok((parts, unread, rest))
}

#[cycle(reader)]
#[tactic(auto, unfolding(crate::specs::ReadValue::variant_at))]
fn variant_of<'a>(
    alloc: Global,
    table: &TypeTable,
    cases: &[(u32, TyRef)],
    depth: u32,
    left: u32,
    bytes: &'a [u8],
) -> Result<(Value, u32, &'a [u8]), ReadError>
    requires { length cases.now ≤ 2 ^ 32 }
    ensures { Gives (λ x. (view x.0, x.1, x.2.now)) result (variant_at (value_at table.now depth) cases.now left bytes.now) }
{
    let (place, rest) = unsigned_of(bytes)?;
    if place >= cases.len() as u128 {
        return Err(ReadError::Refused);
    }
    let (_, ty) = cases[place as usize];
    let (part, left, rest) = value_of(alloc, table, ty, depth, left, rest)?;
    let value = Value::of_case(alloc, place as u32, part)?;
    Ok((value, left, rest))
}

fn each_of<'a>(
    alloc: Global,
    table: &TypeTable,
    types: &[TyRef],
    bytes: &'a [u8],
) -> Result<(Vec<Value>, u32, &'a [u8]), ReadError>
    ensures { Gives (λ x. (views x.0.items, x.1, x.2.now)) result (each_at (value_at table.now 128) types.now 1000000 bytes.now) }
{
    let mut values = Vec::with_capacity(alloc, room_for(types.len()))?;
    let mut unread = MAX_VALUES;
    let mut rest = bytes;
    for ty in types {
        let (value, left, after) = value_of(alloc, table, *ty, MAX_NESTING, unread, rest)?;
        values.push(value)?;
        unread = left;
        rest = after;
    }
    Ok((values, unread, rest))
}

#[tactic(auto, unfolding(crate::specs::ReadValue::values_at))]
fn all_of(
    alloc: Global,
    table: &TypeTable,
    types: &[TyRef],
    bytes: &[u8],
) -> Result<Vec<Value>, ReadError>
    ensures { Gives (λ x. views x.items) result (values_at table.now types.now bytes.now) }
{
    let (values, _, after) = each_of(alloc, table, types, bytes)?;
    match after {
        [] => Ok(values),
        [_, ..] => Err(ReadError::Refused),
    }
}

fn message_of(
    alloc: Global,
    header: &Header,
    bytes: &[u8],
    at: usize,
) -> Result<Vec<Value>, ReadError>
    requires { at ≤ length bytes.now }
    ensures { Gives (λ x. views x.items) result (values_at header.now.table header.now.types (drop at bytes.now)) }
{
    let (_, rest) = bytes.split_at(at);
    all_of(alloc, &header.table, &header.types.items, rest)
}

/// Reads the values of a message: the bytes from `at` to the end, at the header's types
/// (Candid specification, "Binary Format", M).
pub fn read_values(
    alloc: Global,
    header: &Header,
    bytes: &[u8],
    at: usize,
) -> Result<Values, ValueFault>
    requires { at ≤ length bytes.now }

    // What is read is spelled so.
    ensures found { IfOk result (λ values. AreValues header.now.table header.now.types (contents values) (drop at bytes.now)) }
    // What is spelled so is read, unless memory runs out; so a `BadValue` is no values.
    ensures only { (values : List Content) → AreValues header.now.table header.now.types values (drop at bytes.now) → ReadsValues result values }
{
    match message_of(alloc, header, bytes, at) {
        Ok(items) => Ok(Values { items }),
        Err(ReadError::Refused) => Err(ValueFault::BadValue),
        Err(ReadError::NoMemory) => Err(ValueFault::NoMemory),
    }
}
