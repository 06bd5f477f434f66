ghost use Rattle.std.specs.Prelude.{◌≡◌, ◌≤◌, ℕ, List, length, drop};
ghost use Rattle.std.specs.Ordering.{nat_cmp};
ghost use Rattle.std.specs.declared.cmp.Ordering.TheVariants.{Less};
ghost use Rattle.std.specs.Cmp.Lexicographic.{slice_cmp};
ghost use Rattle.cd_sub.specs.Rising.{Rising};
ghost use Rattle.cd_sub.specs.TypeUnder.{type_under};

use cd_types::TyRef;
use ic_principal::Text;
use std::cmp::Ordering;

/// The type under an id among the fields from a place on, and a place from which each greater id
/// is found as it is from here.
#[inline(always)]
pub(crate) fn type_of_field(fields: &[(u32, TyRef)], from: usize, id: u32) -> (usize, Option<TyRef>)
    requires inside { from ≤ length fields.now }
    requires rising { Rising nat_cmp fields.now }
    ensures inside { result.0 ≤ length fields.now }
    ensures found { result.1 ≡ type_under nat_cmp id (drop from fields.now) }
    ensures greater { (label : ℕ) → nat_cmp id label ≡ Less → type_under nat_cmp label (drop result.0 fields.now) ≡ type_under nat_cmp label (drop from fields.now) }
{
    let mut at = from;
    while at < fields.len() {
        let (label, ty) = fields[at];
        if label == id {
            return (at + 1, Some(ty));
        }
        if label > id {
            return (at, None);
        }
        at += 1;
    }
    (at, None)
}

pub(crate) fn method_name(method: &(Text, TyRef)) -> &str
    ensures { result.now ≡ method.now.0 }
{
    let name = &method.0;
    name.items.as_str()
}

/// The type under a name among the methods from a place on, and a place from which each greater
/// name is found as it is from here.
pub(crate) fn type_of_method(
    methods: &[(Text, TyRef)],
    from: usize,
    name: &str,
) -> (usize, Option<TyRef>)
    requires inside { from ≤ length methods.now }
    requires rising { Rising (slice_cmp nat_cmp) methods.now }
    ensures inside { result.0 ≤ length methods.now }
    ensures found { result.1 ≡ type_under (slice_cmp nat_cmp) name.now (drop from methods.now) }
    ensures greater { (label : List ℕ) → slice_cmp nat_cmp name.now label ≡ Less → type_under (slice_cmp nat_cmp) label (drop result.0 methods.now) ≡ type_under (slice_cmp nat_cmp) label (drop from methods.now) }
{
    let mut at = from;
    while at < methods.len() {
        let method = &methods[at];
        match method_name(method).cmp(name) {
            Ordering::Less => at += 1,
            Ordering::Equal => return (at + 1, Some(method.1)),
            Ordering::Greater => return (at, None),
        }
    }
    (at, None)
}
