/// A type that has no parts, other than the floats (Candid specification, "Primitive Types",
/// with `principal`).
#[derive(Clone, Copy, Debug, PartialEq, Eq)]
pub enum Primitive {
    Null,
    Bool,
    Nat,
    Int,
    Nat8,
    Nat16,
    Nat32,
    Nat64,
    Int8,
    Int16,
    Int32,
    Int64,
    Text,
    Reserved,
    Empty,
    Principal,
}

/// `Primitive`, by the name that most code uses.
pub type Prim = Primitive;
