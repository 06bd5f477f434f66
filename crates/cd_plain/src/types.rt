ghost use Rattle.std.specs.Prelude.{◌≡◌};
ghost use Rattle.cd_types.specs.Shape.{shape};
ghost use Rattle.cd_plain.specs.Types.{inner_of, item_of, fields_of, nth_field, nth_type};

use cd_types::{Entry, Prim, TyRef, TypeTable};

pub(crate) fn inner_of(table: &TypeTable, ty: TyRef) -> TyRef
    ensures { result ≡ inner_of (shape table.now ty) }
{
    match ty {
        TyRef::Prim(_) => TyRef::Prim(Prim::Null),
        TyRef::Index(index) => match table.entry(index) {
            Some(Entry::Opt(inner)) => *inner,
            _ => TyRef::Prim(Prim::Null),
        },
    }
}

pub(crate) fn item_of(table: &TypeTable, ty: TyRef) -> TyRef
    ensures { result ≡ item_of (shape table.now ty) }
{
    match ty {
        TyRef::Prim(_) => TyRef::Prim(Prim::Null),
        TyRef::Index(index) => match table.entry(index) {
            Some(Entry::Seq(item)) => *item,
            _ => TyRef::Prim(Prim::Null),
        },
    }
}

/// The fields of a record, or the cases of a variant.
pub(crate) fn fields_of(table: &TypeTable, ty: TyRef) -> &[(u32, TyRef)]
    ensures { result.now ≡ fields_of (shape table.now ty) }
{
    match ty {
        TyRef::Prim(_) => &[],
        TyRef::Index(index) => match table.entry(index) {
            Some(Entry::Rec(fields)) => &fields.items,
            Some(Entry::Var(cases)) => &cases.items,
            _ => &[],
        },
    }
}

pub(crate) fn nth_field(fields: &[(u32, TyRef)], place: usize) -> (u32, TyRef)
    ensures { result ≡ nth_field fields.now place }
{
    match fields.get(place) {
        Some(field) => *field,
        None => (0, TyRef::Prim(Prim::Null)),
    }
}

pub(crate) fn nth_type(types: &[TyRef], place: usize) -> TyRef
    ensures { result ≡ nth_type types.now place }
{
    match types.get(place) {
        Some(ty) => *ty,
        None => TyRef::Prim(Prim::Null),
    }
}
