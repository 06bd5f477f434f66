ghost use Rattle.std.specs.Prelude.{◌≡◌, ◌-◌, ◌^◌, nat_lt, slice_get, option_map, Some, None, pos, negsuc, ◌<ℤ◌, if◌then◌else◌};
ghost use Rattle.std.specs.Option.{option_flatten};
ghost use Rattle.cd_types.specs.PrimitiveCode.{primitive_code};
ghost use Rattle.cd_codec.specs.Codes.{primitive_numbers, kind_numbers, is_float, primitive_named, reference_named, kind_named, kind_of, reference_number, kind_code};

use cd_types::{Entry, Prim, TyRef};

/// The kinds of entries of a type table.
#[derive(Clone, Copy, Debug, PartialEq, Eq)]
pub enum Kind {
    Opt,
    Seq,
    Rec,
    Var,
    Func,
    Service,
}

/// The primitive types from -1 downward.
const PRIMITIVES: [Option<Prim>; 24] = [
    Some(Prim::Null),
    Some(Prim::Bool),
    Some(Prim::Nat),
    Some(Prim::Int),
    Some(Prim::Nat8),
    Some(Prim::Nat16),
    Some(Prim::Nat32),
    Some(Prim::Nat64),
    Some(Prim::Int8),
    Some(Prim::Int16),
    Some(Prim::Int32),
    Some(Prim::Int64),
    None,
    None,
    Some(Prim::Text),
    Some(Prim::Reserved),
    Some(Prim::Empty),
    None,
    None,
    None,
    None,
    None,
    None,
    Some(Prim::Principal),
];

/// The kinds of entries from -18 downward.
const KINDS: [Kind; 6] = [
    Kind::Opt,
    Kind::Seq,
    Kind::Rec,
    Kind::Var,
    Kind::Func,
    Kind::Service,
];

fn listed(code: usize) -> Option<Prim>
    ensures { result ≡ option_flatten (slice_get primitive_numbers code) }
{
    match PRIMITIVES.get(code) {
        Some(prim) => *prim,
        None => None,
    }
}

fn is_float(code: usize) -> bool
    ensures { result ≡ is_float code }
{
    code == 12 || code == 13
}

fn primitive_named(floats: bool, code: usize) -> Option<Prim>
    ensures { result ≡ primitive_named floats code }
{
    let stands_for_null = floats && is_float(code);
    if stands_for_null {
        Some(Prim::Null)
    } else {
        listed(code)
    }
}

/// How many below -1 a number is.
fn below(z: i128) -> u128
    requires { z <ℤ pos 0 }
    ensures { z ≡ negsuc result }
{
    (-1 - z) as u128
}

fn reference_to(prim: Option<Prim>) -> Option<TyRef>
    ensures { result ≡ option_map (λ p. TyRef.Prim p) prim }
{
    match prim {
        Some(prim) => Some(TyRef::Prim(prim)),
        None => None,
    }
}

/// The type that a number refers to.
pub(crate) fn reference_named(floats: bool, z: i128) -> Option<TyRef>
    ensures { result ≡ reference_named floats z }
{
    if z >= 0 {
        return place_named(z as u128);
    }
    reference_to(primitive_below(floats, below(z)))
}

fn place_named(place: u128) -> Option<TyRef>
    ensures { result ≡ (if nat_lt place (2 ^ 32) then Some (TyRef.Index place) else None) }
{
    if place < 4_294_967_296 {
        Some(TyRef::Index(place as u32))
    } else {
        None
    }
}

#[tactic(auto, using(crate::proofs::CodeLaws::none_beyond))]
fn primitive_below(floats: bool, code: u128) -> Option<Prim>
    ensures { result ≡ primitive_named floats code }
{
    if code < 24 {
        primitive_named(floats, code as usize)
    } else {
        None
    }
}

/// The kind of entry that a number names.
pub(crate) fn kind_named(z: i128) -> Option<Kind>
    ensures { result ≡ kind_named z }
{
    if z >= 0 {
        return None;
    }
    kind_below(below(z))
}

fn kind_below(code: u128) -> Option<Kind>
    ensures { result ≡ (if nat_lt code 17 then None else slice_get kind_numbers (code - 17)) }
{
    if code < 17 || code >= 23 {
        return None;
    }
    KINDS.get(code as usize - 17).copied()
}

/// The kind of an entry.
pub(crate) fn kind_of(entry: &Entry) -> Kind
    ensures { result ≡ kind_of entry.now }
{
    match entry {
        Entry::Opt(_) => Kind::Opt,
        Entry::Seq(_) => Kind::Seq,
        Entry::Rec(_) => Kind::Rec,
        Entry::Var(_) => Kind::Var,
        Entry::Func { .. } => Kind::Func,
        Entry::Service(_) => Kind::Service,
    }
}

fn primitive_code(prim: Prim) -> u8
    ensures { result ≡ primitive_code prim }
{
    match prim {
        Prim::Null => 0,
        Prim::Bool => 1,
        Prim::Nat => 2,
        Prim::Int => 3,
        Prim::Nat8 => 4,
        Prim::Nat16 => 5,
        Prim::Nat32 => 6,
        Prim::Nat64 => 7,
        Prim::Int8 => 8,
        Prim::Int16 => 9,
        Prim::Int32 => 10,
        Prim::Int64 => 11,
        Prim::Text => 14,
        Prim::Reserved => 15,
        Prim::Empty => 16,
        Prim::Principal => 23,
    }
}

fn kind_code(kind: Kind) -> u8
    ensures { result ≡ kind_code kind }
{
    match kind {
        Kind::Opt => 17,
        Kind::Seq => 18,
        Kind::Rec => 19,
        Kind::Var => 20,
        Kind::Func => 21,
        Kind::Service => 22,
    }
}

/// The number that refers to a type.
pub(crate) fn number_of_reference(ty: TyRef) -> i128
    ensures { result ≡ reference_number ty }
{
    match ty {
        TyRef::Prim(prim) => -1 - i128::from(primitive_code(prim)),
        TyRef::Index(place) => i128::from(place),
    }
}

/// The number of a kind of entry.
pub(crate) fn number_of_kind(kind: Kind) -> i128
    ensures { result ≡ negsuc (kind_code kind) }
{
    -1 - i128::from(kind_code(kind))
}
