ghost use Rattle.std.specs.Prelude.{◌≡◌, Some, None, IsTrue, MatchOption, length, map, true};
ghost use Rattle.cd_types.specs.IsTable.{is_table};
ghost use Rattle.cd_types.specs.IsOrdered.{ids_rise_from};
ghost use Rattle.ic_base.specs.Gives.{Gives};
ghost use Rattle.cd_types.specs.Shape.{shape};
ghost use Rattle.cd_codec.specs.View.{view};
ghost use Rattle.cd_codec.specs.Wire.{is_nat8};
ghost use Rattle.cd_coerce.specs.Missing.{missing};
ghost use Rattle.cd_coerce.specs.BelowOutside.{below_outside};
ghost use Rattle.cd_coerce.specs.Read.{way, is_primitive, is_func, is_service, opt_of, seq_of, fields_of, cases_of};

use cd_codec::Value;
use cd_sub::is_top;
use cd_types::{Entry, Prim, TyRef, TypeTable};
use ic_base::ReadError;

/// How a type takes values: anything as reserved, at an opt of a type, or by a rule of its own.
#[derive(Clone, Copy)]
pub(crate) enum Way {
    Reserved,
    Opt(TyRef),
    Own,
}

/// What holds of each table. It does nothing when it is called.
pub(crate) fn well_formed_table(table: &TypeTable)
    ensures { IsTrue (is_table table.now) }
{
    let _entries = table.len();
}

/// Whether the type is a subtype of the other, where one of them is outside its table.
pub(crate) fn is_outside_subtype(expected: &TypeTable, t: TyRef, u: TyRef) -> bool
    ensures { result ≡ below_outside t (shape expected.now u) }
{
    match t {
        TyRef::Prim(prim) => prim == Prim::Empty,
        TyRef::Index(_) => is_top(expected, u),
    }
}

pub(crate) fn way_of(table: &TypeTable, ty: TyRef) -> Way
    ensures { result ≡ way (shape table.now ty) }
{
    match ty {
        TyRef::Prim(Prim::Reserved) => Way::Reserved,
        TyRef::Prim(_) => Way::Own,
        TyRef::Index(index) => match table.entry(index) {
            Some(Entry::Opt(inner)) => Way::Opt(*inner),
            _ => Way::Own,
        },
    }
}

/// What stands for a missing field or argument of this type.
pub(crate) fn missing_value(table: &TypeTable, ty: TyRef) -> Result<Value, ReadError>
    ensures { Gives view result (missing (shape table.now ty)) }
{
    Value::missing(table, ty).ok_or(ReadError::Refused)
}

pub(crate) fn is_primitive(table: &TypeTable, ty: TyRef, prim: Prim) -> bool
    ensures { result ≡ is_primitive prim (shape table.now ty) }
{
    match ty {
        TyRef::Prim(own) => prim == own,
        TyRef::Index(index) => match table.entry(index) {
            Some(_) => false,
            None => false,
        },
    }
}

pub(crate) fn is_func(table: &TypeTable, ty: TyRef) -> bool
    ensures { result ≡ is_func (shape table.now ty) }
{
    match ty {
        TyRef::Prim(_) => false,
        TyRef::Index(index) => matches!(table.entry(index), Some(Entry::Func { .. })),
    }
}

pub(crate) fn is_service(table: &TypeTable, ty: TyRef) -> bool
    ensures { result ≡ is_service (shape table.now ty) }
{
    match ty {
        TyRef::Prim(_) => false,
        TyRef::Index(index) => matches!(table.entry(index), Some(Entry::Service(_))),
    }
}

/// The type in an opt.
pub(crate) fn opt_of(table: &TypeTable, ty: TyRef) -> Option<TyRef>
    ensures { result ≡ opt_of (shape table.now ty) }
{
    match ty {
        TyRef::Prim(_) => None,
        TyRef::Index(index) => match table.entry(index) {
            Some(Entry::Opt(inner)) => Some(*inner),
            _ => None,
        },
    }
}

/// The type in a vec.
pub(crate) fn item_of(table: &TypeTable, ty: TyRef) -> Option<TyRef>
    ensures { result ≡ seq_of (shape table.now ty) }
{
    match ty {
        TyRef::Prim(_) => None,
        TyRef::Index(index) => match table.entry(index) {
            Some(Entry::Seq(item)) => Some(*item),
            _ => None,
        },
    }
}

/// The fields of a record.
pub(crate) fn fields_of(table: &TypeTable, ty: TyRef) -> Option<&[(u32, TyRef)]>
    ensures { MatchOption result (fields_of (shape table.now ty) ≡ None) (λ fields. (fields_of (shape table.now ty) ≡ Some fields.now) × (ids_rise_from 0 (map (λ f. f.0) fields.now) ≡ true)) }
{
    match ty {
        TyRef::Prim(_) => None,
        TyRef::Index(index) => match table.entry(index) {
            Some(Entry::Rec(fields)) => Some(&fields.items),
            _ => None,
        },
    }
}

/// The cases of a variant.
pub(crate) fn cases_of(table: &TypeTable, ty: TyRef) -> Option<&[(u32, TyRef)]>
    ensures { MatchOption result (cases_of (shape table.now ty) ≡ None) (λ cases. (cases_of (shape table.now ty) ≡ Some cases.now) × (ids_rise_from 0 (map (λ f. f.0) cases.now) ≡ true)) }
{
    match ty {
        TyRef::Prim(_) => None,
        TyRef::Index(index) => match table.entry(index) {
            Some(Entry::Var(cases)) => Some(&cases.items),
            _ => None,
        },
    }
}

pub(crate) fn is_nat8(ty: TyRef) -> bool
    ensures { result ≡ is_nat8 ty }
{
    match ty {
        TyRef::Prim(Prim::Nat8) => true,
        TyRef::Prim(_) => false,
        TyRef::Index(_) => false,
    }
}
