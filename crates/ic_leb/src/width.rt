ghost use Rattle.std.specs.Prelude.{◌≡◌, ◌+◌, ◌-◌, ◌^◌};

/// Which numbers there are, and how many bytes one may take.
#[derive(Clone, Copy, Debug, PartialEq, Eq)]
pub enum Width {
    /// Numbers of 32 bits in a WebAssembly module, of at most 5 bytes.
    Wasm32,
    /// Numbers of 64 bits in a WebAssembly module, of at most 10 bytes.
    Wasm64,
    /// Numbers of a Candid message, of 128 bits and at most 24 bytes. Candid has no limit of its
    /// own on either.
    Candid,
}

impl Width {
    ghost use Rattle.ic_leb.specs.Width.{bits, most_bytes};

    /// The most bytes of one number, padding included.
    pub(crate) fn most_bytes(self) -> usize
        ensures { result ≡ most_bytes self }
    {
        match self {
            Width::Wasm32 => 5,
            Width::Wasm64 => 10,
            Width::Candid => 24,
        }
    }

    /// The largest unsigned number.
    pub(crate) fn largest_unsigned(self) -> u128
        ensures { result + 1 ≡ 2 ^ bits self }
    {
        match self {
            Width::Wasm32 => u32::MAX as u128,
            Width::Wasm64 => u64::MAX as u128,
            Width::Candid => u128::MAX,
        }
    }

    /// The largest signed number.
    pub(crate) fn largest_signed(self) -> u128
        ensures { result + 1 ≡ 2 ^ (bits self - 1) }
    {
        match self {
            Width::Wasm32 => i32::MAX as u128,
            Width::Wasm64 => i64::MAX as u128,
            Width::Candid => i128::MAX as u128,
        }
    }
}
