ghost use Rattle.std.specs.Prelude.{◌≡◌, ℕ, suc, ◌+◌, IfOk, Option, List, Some, None, map, true};
ghost use Rattle.ic_base.specs.Gives.{Gives};
ghost use Rattle.cd_types.specs.declared.entry.TyRef.{TyRef};
ghost use Rattle.cd_types.specs.IsOrdered.{ids_rise_from};
ghost use Rattle.cd_types.specs.Shape.{shape};
ghost use Rattle.cd_codec.specs.Content.{Content, blob, list, record_of, variant, contents_of, parts_of};
ghost use Rattle.cd_codec.specs.Measure.{number, number_each};
ghost use Rattle.cd_codec.specs.View.{view, views, views_of_fields};
ghost use Rattle.cd_coerce.specs.Parts.{byte_value, under, with_fields, case_from};
ghost use Rattle.cd_codec.specs.declared.value.Value.{Value};
ghost use Rattle.cd_coerce.specs.Read.{Coercions, coercions, empty_blob, field_at, coerced};
ghost use Rattle.cd_coerce.specs.Missing.{missing};
ghost use Rattle.cd_coerce.specs.Step.{setting, target, inner_at, parts_at, made, each_by, part_values, expected_at};

use crate::shapes::{cases_of, fields_of, is_nat8, item_of, missing_value};
use crate::step::{Coercion, Step, some_read};
use cd_codec::Value;
use cd_types::TyRef;
use ic_base::ReadError;
use std::alloc::Global;

impl<'a> Coercion<'a> {
    /// A value without parts, at a type.
    fn leaf(&mut self, value: &Value, t: TyRef, u: TyRef) -> Result<Value, ReadError>
        requires parts { (t w : TyRef) → parts_at (setting self.old.0.0 self.old.0.1) (view value.now) t w ≡ None }
        requires whole { (t w : TyRef) → inner_at (setting self.old.0.0 self.old.0.1) (view value.now) t w ≡ None }
        ensures tables { self.new.0 ≡ self.old.0 }
        ensures value { Gives view result (coerced (setting self.old.0.0 self.old.0.1) (view value.now) t u) }
        ensures counted { IfOk result (λ v. number (view v) + self.new.1 ≡ self.old.1) }
    {
        self.count()?;
        match self.settle(value, t, u)? {
            Step::Done(done) => Ok(done),
            Step::Inner(_, _) => Err(ReadError::Refused),
            Step::Parts(_, _) => Err(ReadError::Refused),
        }
    }

    /// A byte of a blob, at a type.
    #[tactic(auto, using(cd_codec::proofs::Views::layers))]
    fn byte(&mut self, byte: u8, t: TyRef, u: TyRef) -> Result<Value, ReadError>
        ensures tables { self.new.0 ≡ self.old.0 }
        ensures value { Gives view result (coerced (setting self.old.0.0 self.old.0.1) (byte_value byte) t u) }
        ensures counted { IfOk result (λ v. number (view v) + self.new.1 ≡ self.old.1) }
    {
        let value = Value::Nat8(byte);
        self.leaf(&value, t, u)
    }

    fn bytes(&mut self, bytes: &[u8], t: TyRef, u: TyRef) -> Result<Vec<Value>, ReadError>
        ensures tables { self.new.0 ≡ self.old.0 }
        ensures values { Gives (λ vs. views vs.items) result (each_by (λ b. coerced (setting self.old.0.0 self.old.0.1) (byte_value b) t u) bytes.now) }
        ensures counted { IfOk result (λ vs. number_each (views vs.items) + self.new.1 ≡ self.old.1) }
    {
        let mut items = Vec::with_capacity(self.alloc, bytes.len())?;
        for byte in bytes {
            let value = self.byte(*byte, t, u)?;
            items.push(value)?;
        }
        Ok(items)
    }

    /// A blob, at a type that is no opt.
    fn blob(&mut self, bytes: &[u8], t: TyRef, u: TyRef) -> Result<Value, ReadError>
        ensures tables { self.new.0 ≡ self.old.0 }
        ensures value { Gives view result (parts_at (setting self.old.0.0 self.old.0.1) (blob bytes.now) t u) }
        ensures counted { IfOk result (λ v. number (view v) + self.new.1 ≡ suc self.old.1) }
    {
        match (item_of(self.wire, t), item_of(self.expected, u)) {
            (Some(from), Some(to)) => {
                if is_nat8(to) {
                    let items = Vec::from_slice(self.alloc, bytes)?;
                    return Ok(Value::of_bytes(items));
                }
                list_read(self.bytes(bytes, from, to))
            }
            (Some(_), None) => Err(ReadError::Refused),
            (None, _) => Err(ReadError::Refused),
        }
    }

    /// What stands for a missing field of this type.
    pub(crate) fn missing(&mut self, u: TyRef) -> Result<Value, ReadError>
        ensures tables { self.new.0 ≡ self.old.0 }
        ensures value { Gives view result (missing (shape self.old.0.1 u)) }
        ensures counted { IfOk result (λ v. number (view v) + self.new.1 ≡ self.old.1) }
    {
        self.count()?;
        missing_value(self.expected, u)
    }

    /// The type of the case at this place, and the place and type of the expected case with its id.
    fn target(&self, position: u32, t: TyRef, u: TyRef) -> Option<(TyRef, u32, TyRef)>
        ensures { result ≡ target (shape self.now.0.0 t) (shape self.now.0.1 u) position }
    {
        match (cases_of(self.wire, t), cases_of(self.expected, u)) {
            (Some(cases), Some(expected)) => {
                let (id, from) = *cases.get(position as usize)?;
                let (place, to) = find(expected, id)?;
                Some((from, place as u32, to))
            }
            (Some(_), None) => None,
            (None, _) => None,
        }
    }

    /// Each of the values, at a type.
    #[cycle(reader)]
    fn items(&mut self, values: &[Value], t: TyRef, u: TyRef) -> Result<Vec<Value>, ReadError>
        ensures tables { self.new.0 ≡ self.old.0 }
        ensures values { Gives (λ vs. views vs.items) result (each_by (λ v. coerced (setting self.old.0.0 self.old.0.1) (view v) t u) values.now) }
        ensures counted { IfOk result (λ vs. number_each (views vs.items) + self.new.1 ≡ self.old.1) }
    {
        let mut items = Vec::with_capacity(self.alloc, values.len())?;
        for value in values {
            let value = self.read(value, t, u)?;
            items.push(value)?;
        }
        Ok(items)
    }

    /// A vec that is no blob, at a type that is no opt.
    #[cycle(reader)]
    fn list(&mut self, values: &[Value], t: TyRef, u: TyRef) -> Result<Value, ReadError>
        ensures tables { self.new.0 ≡ self.old.0 }
        ensures value { Gives view result (parts_at (setting self.old.0.0 self.old.0.1) (list (contents_of (views values.now))) t u) }
        ensures counted { IfOk result (λ v. number (view v) + self.new.1 ≡ suc self.old.1) }
    {
        match (item_of(self.wire, t), item_of(self.expected, u)) {
            (Some(from), Some(to)) => {
                if is_nat8(to) {
                    return no_bytes(self.alloc, values);
                }
                list_read(self.items(values, from, to))
            }
            (Some(_), None) => Err(ReadError::Refused),
            (None, _) => Err(ReadError::Refused),
        }
    }

    /// The value of a case, at a type that is no opt.
    #[cycle(reader)]
    fn case(&mut self, position: u32, part: &Value, t: TyRef, u: TyRef) -> Result<Value, ReadError>
        ensures tables { self.new.0 ≡ self.old.0 }
        ensures value { Gives view result (parts_at (setting self.old.0.0 self.old.0.1) (variant position (view part.now)) t u) }
        ensures counted { IfOk result (λ v. number (view v) + self.new.1 ≡ suc self.old.1) }
    {
        match self.target(position, t, u) {
            None => Err(ReadError::Refused),
            Some((from, place, to)) => {
                let read = self.read(part, from, to);
                variant_read(self.alloc, place, read)
            }
        }
    }

    /// An expected field, read from the field with its id, or missing.
    #[cycle(reader)]
    fn field(
        &mut self,
        fields: &[(u32, TyRef)],
        parts: &[(u32, Value)],
        id: u32,
        u: TyRef,
    ) -> Result<Value, ReadError>
        requires { ids_rise_from 0 (map (λ f. f.0) fields.now) ≡ true }
        ensures tables { self.new.0 ≡ self.old.0 }
        ensures value { Gives view result (field_at (setting self.old.0.0 self.old.0.1) (under id (with_fields fields.now (map (coercions (setting self.old.0.0 self.old.0.1)) (part_values parts.now)))) u) }
        ensures counted { IfOk result (λ v. number (view v) + self.new.1 ≡ self.old.1) }
    {
        match find(fields, id) {
            Some((place, t)) => match parts.get(place) {
                Some((_, part)) => self.read(part, t, u),
                None => self.missing(u),
            },
            None => self.missing(u),
        }
    }

    /// The expected fields, each read from the field with its id, or missing.
    #[cycle(reader)]
    fn fields(
        &mut self,
        fields: &[(u32, TyRef)],
        parts: &[(u32, Value)],
        expected: &[(u32, TyRef)],
    ) -> Result<Vec<(u32, Value)>, ReadError>
        requires { ids_rise_from 0 (map (λ f. f.0) fields.now) ≡ true }
        ensures tables { self.new.0 ≡ self.old.0 }
        ensures values { Gives (λ vs. views_of_fields vs.items) result (each_by (expected_at (setting self.old.0.0 self.old.0.1) fields.now (part_values parts.now)) expected.now) }
        ensures counted { IfOk result (λ vs. number_each (part_values vs.items) + self.new.1 ≡ self.old.1) }
    {
        let mut items = Vec::with_capacity(self.alloc, expected.len())?;
        for (id, ty) in expected {
            let value = self.field(fields, parts, *id, *ty)?;
            items.push((*id, value))?;
        }
        Ok(items)
    }

    /// A record, at a type that is no opt.
    #[cycle(reader)]
    fn record(&mut self, parts: &[(u32, Value)], t: TyRef, u: TyRef) -> Result<Value, ReadError>
        ensures tables { self.new.0 ≡ self.old.0 }
        ensures value { Gives view result (parts_at (setting self.old.0.0 self.old.0.1) (record_of (parts_of (views_of_fields parts.now))) t u) }
        ensures counted { IfOk result (λ v. number (view v) + self.new.1 ≡ suc self.old.1) }
    {
        match (fields_of(self.wire, t), fields_of(self.expected, u)) {
            (Some(fields), Some(expected)) => record_read(self.fields(fields, parts, expected)),
            (Some(_), None) => Err(ReadError::Refused),
            (None, _) => Err(ReadError::Refused),
        }
    }

    /// The value of the type t, read at the type u.
    #[cycle(reader)]
    pub(crate) fn read(&mut self, value: &Value, t: TyRef, u: TyRef) -> Result<Value, ReadError>
        ensures tables { self.new.0 ≡ self.old.0 }
        ensures value { Gives view result (coerced (setting self.old.0.0 self.old.0.1) (view value.now) t u) }
        ensures counted { IfOk result (λ v. number (view v) + self.new.1 ≡ self.old.1) }
    {
        self.count()?;
        match self.settle(value, t, u)? {
            Step::Done(done) => Ok(done),
            Step::Inner(x, w) => match value {
                Value::Opt(inner) => match inner {
                    Some(part) => {
                        let read = self.read(part, x, w);
                        some_read(self.alloc, read)
                    }
                    None => Err(ReadError::Refused),
                },
                _ => Err(ReadError::Refused),
            },
            Step::Parts(w, lift) => match value {
                Value::Blob(bytes) => {
                    let read = self.blob(&bytes.items, t, w);
                    self.wrap(lift, read)
                }
                Value::Seq(values) => {
                    let read = self.list(&values.items, t, w);
                    self.wrap(lift, read)
                }
                Value::Rec(parts) => {
                    let read = self.record(&parts.items, t, w);
                    self.wrap(lift, read)
                }
                Value::Var { position, part } => {
                    let read = self.case(*position, part, t, w);
                    self.wrap(lift, read)
                }
                _ => Err(ReadError::Refused),
            },
        }
    }
}

/// The place and the type of the field or case with this id.
fn find(fields: &[(u32, TyRef)], id: u32) -> Option<(usize, TyRef)>
    requires { ids_rise_from 0 (map (λ f. f.0) fields.now) ≡ true }
    ensures { result ≡ case_from 0 id fields.now }
{
    match fields.binary_search_by_key(&id, |field| field.0) {
        Ok(place) => Some((place, fields[place].1)),
        Err(_) => None,
    }
}

/// An empty blob, for a list without items.
fn no_bytes(alloc: Global, values: &[Value]) -> Result<Value, ReadError>
    ensures value { (coercions : Value → Coercions) → Gives view result (empty_blob (map coercions values.now)) }
    ensures counted { IfOk result (λ v. number (view v) ≡ 1) }
{
    match values {
        [] => Ok(Value::of_bytes(Vec::new(alloc))),
        [_, ..] => Err(ReadError::Refused),
    }
}

/// The list of the items that were read.
#[tactic(auto, using(crate::proofs::CountLemmas::number_items))]
fn list_read(items: Result<Vec<Value>, ReadError>) -> Result<Value, ReadError>
    ensures value { (values : Option (List Content)) → Gives (λ vs. views vs.items) items values → Gives view result (made (λ rs. list (contents_of rs)) values) }
    ensures counted { (left total : ℕ) → IfOk items (λ vs. suc (number_each (views vs.items)) + left ≡ total) → IfOk result (λ v. number (view v) + left ≡ total) }
{
    let items = items?;
    Ok(Value::of_items(items))
}

/// The record of the fields that were read.
#[tactic(auto, using(crate::proofs::CountLemmas::number_fields))]
fn record_read(items: Result<Vec<(u32, Value)>, ReadError>) -> Result<Value, ReadError>
    ensures value { (fields : Option (List (ℕ × Content))) → Gives (λ vs. views_of_fields vs.items) items fields → Gives view result (made (λ rs. record_of (parts_of rs)) fields) }
    ensures counted { (left total : ℕ) → IfOk items (λ vs. suc (number_each (part_values vs.items)) + left ≡ total) → IfOk result (λ v. number (view v) + left ≡ total) }
{
    let items = items?;
    Ok(Value::of_fields(items))
}

/// The case at this place, whose value was read.
fn variant_read(
    alloc: Global,
    position: u32,
    part: Result<Value, ReadError>,
) -> Result<Value, ReadError>
    ensures value { (content : Option Content) → Gives view part content → Gives view result (made (variant position) content) }
    ensures counted { (left total : ℕ) → IfOk part (λ v. suc (number (view v)) + left ≡ total) → IfOk result (λ v. number (view v) + left ≡ total) }
{
    let part = part?;
    Ok(Value::of_case(alloc, position, part)?)
}
