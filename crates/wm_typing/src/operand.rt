ghost use Rattle.std.specs.Prelude.{◌≡◌};
ghost use Rattle.wm_typing.specs.Points as points;

use wm_tree::ValType;

/// The type of an operand as far as it is known. After an instruction that never goes on, an
/// operand that nothing gave is of any type. The definitions of typing speak of it.
#[derive(Clone, Copy, Debug, PartialEq, Eq)]
pub enum Operand {
    Known(ValType),
    Any,
}

impl Operand {
    /// Whether it may be where one of the type is wanted.
    pub(crate) fn fits(self, t: ValType) -> bool
        ensures { result ≡ points.fits t self }
    {
        match self {
            Operand::Any => true,
            Operand::Known(u) => t == u,
        }
    }

    /// The one type that both have.
    pub(crate) fn common(self, other: Operand) -> Option<Operand>
        ensures { result ≡ points.common self other }
    {
        match self {
            Operand::Any => Some(other),
            Operand::Known(t) if other.fits(t) => Some(self),
            Operand::Known(_) => None,
        }
    }
}
