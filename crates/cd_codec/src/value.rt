ghost use Rattle.std.specs.Prelude.{◌≡◌, IfOk, option_map};
ghost use Rattle.cd_types.specs.Shape.{shape};
ghost use Rattle.cd_codec.specs.Content.{blob, none, some, list, record_of, variant, contents_of, parts_of};
ghost use Rattle.cd_codec.specs.Missing.{missing};
ghost use Rattle.cd_codec.specs.View.{view, views, views_of_fields};

use cd_types::{Entry, Prim, TyRef, TypeTable};
use ic_base::NoMemory;
use ic_principal::{Bytes, Principal, Text};
use std::alloc::Global;

/// A Candid value (Candid specification, "Values"). A value of type `vec nat8` is always a
/// `Blob`.
#[cycle(value)]
#[derive(Drop)]
pub enum Value {
    Null,
    Bool(bool),
    Nat(u128),
    Int(i128),
    Nat8(u8),
    Nat16(u16),
    Nat32(u32),
    Nat64(u64),
    Int8(i8),
    Int16(i16),
    Int32(i32),
    Int64(i64),
    Text(Text),
    Reserved,
    Opt(Option<Box<Value>>),
    /// `vec nat8`
    Blob(Bytes),
    /// Any other `vec`.
    Seq(Values),
    /// `record`
    Rec(FieldValues),
    /// `variant`: the place of the case among the cases of the type, and its value.
    Var { position: u32, part: Box<Value> },
    Func { service: Principal, method: Text },
    Service(Principal),
    Principal(Principal),
}

/// A list of values.
#[cycle(value)]
#[derive(Drop)]
pub struct Values {
    pub items: Vec<Value>,
}

/// The fields of a record: ids and values.
#[cycle(value)]
#[derive(Drop)]
pub struct FieldValues {
    pub items: Vec<(u32, Value)>,
}

impl Value {
    /// What stands for a missing field or argument of this type, if it may be missing: null,
    /// reserved or none.
    #[tactic(auto, using(crate::proofs::Views::layers))]
    pub fn missing(table: &TypeTable, ty: TyRef) -> Option<Value>
        ensures { option_map view result ≡ missing (shape table.now ty) }
    {
        match ty {
            TyRef::Prim(Prim::Null) => Some(Value::Null),
            TyRef::Prim(Prim::Reserved) => Some(Value::Reserved),
            TyRef::Prim(_) => None,
            TyRef::Index(index) => match table.entry(index) {
                Some(Entry::Opt(_)) => Some(Value::Opt(None)),
                _ => None,
            },
        }
    }

    /// An `opt` without a value.
    #[tactic(auto, using(crate::proofs::Views::layers))]
    pub fn none() -> Value
        ensures { view result ≡ none }
    {
        Value::Opt(None)
    }

    /// An `opt` with a value.
    #[tactic(auto, using(crate::proofs::Views::layers))]
    pub fn some(alloc: Global, part: Value) -> Result<Value, NoMemory>
        ensures { IfOk result (λ value. view value ≡ some (view part)) }
    {
        Ok(Value::Opt(Some(Box::new(alloc, part)?)))
    }

    /// A `vec nat8`.
    #[tactic(auto, using(crate::proofs::Views::layers))]
    pub fn of_bytes(items: Vec<u8>) -> Value
        ensures { view result ≡ blob items.items }
    {
        Value::Blob(Bytes { items })
    }

    /// A `vec` of another type.
    #[tactic(auto, using(crate::proofs::Views::layers))]
    pub fn of_items(items: Vec<Value>) -> Value
        ensures { view result ≡ list (contents_of (views items.items)) }
    {
        Value::Seq(Values { items })
    }

    /// A `record` with these fields.
    #[tactic(auto, using(crate::proofs::Views::layers))]
    pub fn of_fields(items: Vec<(u32, Value)>) -> Value
        ensures { view result ≡ record_of (parts_of (views_of_fields items.items)) }
    {
        Value::Rec(FieldValues { items })
    }

    /// A `variant` with the case at this place.
    #[tactic(auto, using(crate::proofs::Views::layers))]
    pub fn of_case(alloc: Global, position: u32, part: Value) -> Result<Value, NoMemory>
        ensures { IfOk result (λ value. view value ≡ variant position (view part)) }
    {
        let part = Box::new(alloc, part)?;
        Ok(Value::Var { position, part })
    }
}
