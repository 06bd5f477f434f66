ghost use Rattle.std.specs.Prelude.{◌≡◌};
ghost use Rattle.cd_types.specs.Shape.{shape};
ghost use Rattle.cd_sub.specs.MayMiss.{may_miss};
ghost use Rattle.cd_sub.specs.PartFree.{is_top, primitive_below, part_free};

use cd_types::{Entry, Prim, TyRef, TypeTable};

/// Whether every type is a subtype of this one: it is `reserved` or an `opt`.
pub fn is_top(table: &TypeTable, ty: TyRef) -> bool
    ensures { result ≡ is_top (shape table.now ty) }
{
    match ty {
        TyRef::Prim(prim) => prim == Prim::Reserved,
        TyRef::Index(index) => matches!(table.entry(index), Some(Entry::Opt(_))),
    }
}

/// Whether a field or an argument of this type may be missing: it is `null`, `reserved` or an
/// `opt`.
pub fn may_miss(table: &TypeTable, ty: TyRef) -> bool
    ensures { result ≡ may_miss (shape table.now ty) }
{
    match ty {
        TyRef::Prim(Prim::Null) => true,
        _ => is_top(table, ty),
    }
}

fn is_primitive_subtype(p: Prim, q: Prim) -> bool
    ensures { result ≡ primitive_below p q }
{
    match (p, q) {
        (_, Prim::Reserved) | (Prim::Empty, _) | (Prim::Nat, Prim::Int) => true,
        _ => p == q,
    }
}

/// Whether a rule that has no parts fits.
pub(crate) fn is_part_free_subtype(lower: &TypeTable, a: TyRef, upper: &TypeTable, b: TyRef) -> bool
    ensures { result ≡ part_free (shape lower.now a) (shape upper.now b) }
{
    match (a, b) {
        (TyRef::Prim(p), TyRef::Prim(q)) => is_primitive_subtype(p, q),
        (TyRef::Prim(p), TyRef::Index(_)) => p == Prim::Empty || is_top(upper, b),
        (TyRef::Index(_), _) => is_top(upper, b),
    }
}
