ghost use Rattle.std.specs.Prelude.{◌≡◌, ◌<◌, ◌≤◌, ◌^◌, None, Some, true, false, is_some, get_or, set, length, map, IfSome, MatchOption, List, ◌-◌, ◌&&◌, nat_le, option_map};
ghost use Rattle.std.specs.Option.{option_or};
ghost use Rattle.ic_base.specs.Gives.{Gives};
ghost use Rattle.cd_types.specs.IsOrdered.{ids_rise_from};
ghost use Rattle.cd_types.specs.Shape.{shape};
ghost use Rattle.cd_codec.specs.View.{view, views_of_fields};
ghost use Rattle.cd_text.specs.Said.{type_of, place_of, left_out};
ghost use Rattle.cd_text.specs.ReadSaid.{made, slots_at, slot_view, filled_slots};

use cd_codec::Value;
use cd_types::{TyRef, TypeTable};
use ic_base::ReadError;
use std::alloc::Global;

/// The place of the field or case with an id, and the field; time grows with the logarithm of their
/// number.
pub fn find(fields: &[(u32, TyRef)], id: u64) -> Option<(usize, (u32, TyRef))>
    requires { ids_rise_from 0 (map (λ f. f.0) fields.now) ≡ true }
    ensures place { MatchOption result (place_of fields.now id ≡ None) (λ f. place_of fields.now id ≡ Some f.0) }
    ensures field { MatchOption result (type_of fields.now id ≡ None) (λ f. (type_of fields.now id ≡ Some f.1.1) × (f.1.0 ≡ id)) }
    ensures bound { IfSome result (λ f. f.0 < length fields.now) }
    ensures small { IfSome result (λ f. f.0 < 2 ^ 32) }
{
    match fields.binary_search_by_key(&id, |field| u64::from(field.0)) {
        Ok(place) => Some((place, fields[place])),
        Err(_) => None,
    }
}

// Puts a value into its slot, if that is free.
fn put(slots: &mut Vec<Option<Value>>, place: usize, value: Value) -> bool
    requires { place < length slots.old.items }
    ensures taken { result ≡ false → is_some (get_or (map slot_view slots.old.items) place None) ≡ true }
    ensures free { result ≡ true → (get_or (map slot_view slots.old.items) place None ≡ None) × (map slot_view slots.new.items ≡ set (map slot_view slots.old.items) place (Some (view value))) }
{
    if slots[place].is_some() {
        return false;
    }
    slots[place] = Some(value);
    true
}

// The fields' values, each at its field's place; `Refused`: one is said twice.
fn slots_of(
    alloc: Global,
    fields: &[(u32, TyRef)],
    said: Vec<(u32, Value)>,
) -> Result<Vec<Option<Value>>, ReadError>
    requires { ids_rise_from 0 (map (λ f. f.0) fields.now) ≡ true }
    ensures { Gives (λ slots. map slot_view slots.items) result (slots_at fields.now (views_of_fields said.items)) }
{
    let mut said = said;
    let mut slots = Vec::with_capacity(alloc, fields.len())?;
    for _ in fields {
        slots.push(None)?;
    }
    while let Some((id, value)) = said.pop() {
        match find(fields, u64::from(id)) {
            None => return Err(ReadError::Refused),
            Some((place, _)) => {
                if !put(&mut slots, place, value) {
                    return Err(ReadError::Refused);
                }
            }
        }
    }
    Ok(slots)
}

// What is said, or what stands for a field that is left out.
fn said_or_left_out(table: &TypeTable, depth: u32, ty: TyRef, slot: Option<Value>) -> Option<Value>
    ensures { option_map view result ≡ option_or (slot_view slot) (left_out depth (shape table.now ty)) }
{
    match slot {
        Some(value) => Some(value),
        None => {
            if depth == 0 {
                return None;
            }
            Value::missing(table, ty)
        }
    }
}

// The fields in their order.
fn parts_of(
    alloc: Global,
    table: &TypeTable,
    depth: u32,
    fields: &[(u32, TyRef)],
    slots: Vec<Option<Value>>,
) -> Result<Vec<(u32, Value)>, ReadError>
    requires { length slots.items ≡ length fields.now }
    ensures { Gives (λ parts. views_of_fields parts.items) result (filled_slots depth table.now fields.now (map slot_view slots.items)) }
{
    let mut slots = slots;
    let mut parts = Vec::with_capacity(alloc, fields.len())?;
    while let Some(slot) = slots.pop() {
        let (id, ty) = fields[slots.len()];
        let value = said_or_left_out(table, depth, ty, slot).ok_or(ReadError::Refused)?;
        parts.push((id, value))?;
    }
    parts.reverse();
    Ok(parts)
}

fn is_room(said: usize, fields: usize, left: u32) -> bool
    ensures { result ≡ (nat_le said fields && nat_le (fields - said) left) }
{
    said <= fields && fields - said <= left as usize
}

/// The record of the fields that were said, and what is left of the number of values. What is left
/// out is counted before it takes memory.
#[tactic(auto, unfolding(crate::specs::ReadSaid::made))]
pub(crate) fn record_made(
    alloc: Global,
    table: &TypeTable,
    depth: u32,
    fields: &[(u32, TyRef)],
    said: Vec<(u32, Value)>,
    left: u32,
) -> Result<(Value, u32), ReadError>
    requires { ids_rise_from 0 (map (λ f. f.0) fields.now) ≡ true }
    ensures { Gives (λ x. (view x.0, x.1)) result (made depth table.now fields.now (views_of_fields said.items) left) }
{
    if !is_room(said.len(), fields.len(), left) {
        return Err(ReadError::Refused);
    }
    let left = left - (fields.len() - said.len()) as u32;
    let slots = slots_of(alloc, fields, said)?;
    let parts = parts_of(alloc, table, depth, fields, slots)?;
    Ok((Value::of_fields(parts), left))
}
