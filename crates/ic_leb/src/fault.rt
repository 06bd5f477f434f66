ghost use Rattle.std.specs.Prelude.{◌≡◌};
ghost use Rattle.ic_base.specs.declared.read_error.ReadError.TheVariants.{Refused};

use ic_base::ReadError;

/// Why no number is at the front of the bytes.
#[derive(Clone, Copy, Debug, PartialEq, Eq)]
pub enum LebFault {
    /// The bytes end before the number does.
    Short,
    /// The number has more bytes than its width allows.
    Long,
    /// The value does not fit the width. For WebAssembly this is the same as an unused bit of the
    /// last permitted byte that is not zero, or for a signed number not a copy of the sign.
    Wide,
}

/// For the readers that are made of this crate's, and answer with an error of their own.
impl From<LebFault> for ReadError {
    ghost from_gives = { λ _ e. e ≡ Refused };

    fn from(_fault: LebFault) -> ReadError {
        ReadError::Refused
    }
}
