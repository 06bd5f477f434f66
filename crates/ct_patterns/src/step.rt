use cd_codec::Value;
use cd_tokens::Piece;
use cd_types::TyRef;

/// The places of fields.
#[derive(Drop)]
pub struct Places {
    pub items: Vec<u32>,
}

/// A step of a pattern: what the next value must be.
#[derive(Drop)]
pub enum Step<'a> {
    /// `_`: any value.
    Any,
    /// `let NAME`: any value. The name is bound to it, at this type.
    Bound { name: Piece<'a>, ty: TyRef },
    /// This value, which has no parts.
    Is(Value),
    /// `opt`. Its value is next.
    Opt,
    /// A `vec` of this many values. They are next; a byte of a `vec nat8` is a value.
    Seq(usize),
    /// A `record`. The values of the fields at these places are next, and the others may be any.
    Rec(Places),
    /// A `variant` with the case at this place. Its value is next.
    Var(u32),
}

/// A value, or a byte of a `vec nat8`.
#[derive(Clone, Copy)]
pub enum Part<'v> {
    Value(&'v Value),
    Byte(u8),
}

/// A name, and the value of a type that it is bound to.
#[derive(Drop)]
pub struct Binding<'a, 'v> {
    pub name: Piece<'a>,
    pub ty: TyRef,
    pub part: Part<'v>,
}

/// What names are bound to, in the order of the pattern.
#[derive(Drop)]
pub struct Bindings<'a, 'v> {
    pub items: Vec<Binding<'a, 'v>>,
}
