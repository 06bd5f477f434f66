ghost use Rattle.std.specs.Prelude.{◌≡◌, ℕ, Bool, false, List, ◌∷◌, ◌++◌, replicate, reverse};
ghost use Rattle.ic_principal.specs.Bits.{bits_of};
ghost use Rattle.ic_principal.specs.Checksum.{checksum as checksum_bits, flipped, remainder, turned};

// The polynomial's coefficients from x^0 at the highest bit down to x^31: a register's lowest bit
// is the one that is divided next.
const POLYNOMIAL: u32 = 0xEDB8_8320;

/// The CRC-32 of `bytes`.
pub fn checksum(bytes: &[u8]) -> u32
    ensures { bits_of 32 result ≡ checksum_bits bytes.now }
{
    let mut register = u32::MAX;
    for byte in bytes {
        register = divided_by_byte(register ^ *byte as u32);
    }
    register ^ u32::MAX
}

// Divides eight more bits. A register stands, from its lowest bit up, flipped onto the next 32.
fn divided_by_byte(register: u32) -> u32
    ensures { (bits : List Bool)
        → remainder 8 (flipped (reverse (bits_of 32 register)) (replicate 8 false ++ bits))
        ≡ flipped (reverse (bits_of 32 result)) bits }
{
    let mut rest = register;
    for _ in 0..8_u32 {
        rest = divided_by_bit(rest);
    }
    rest
}

fn divided_by_bit(register: u32) -> u32
    ensures { (bits : List Bool)
        → turned (flipped (reverse (bits_of 32 register)) (false ∷ bits))
        ≡ flipped (reverse (bits_of 32 result)) bits }
{
    if register & 1 == 1 {
        (register >> 1) ^ POLYNOMIAL
    } else {
        register >> 1
    }
}
