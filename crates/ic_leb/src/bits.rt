ghost use Rattle.std.specs.Prelude.{◌≡◌, ◌<◌};
ghost use Rattle.ic_leb.specs.Magnitude.{low_bits};

// The lowest seven bits, complemented where the sign is set.
pub(crate) fn low_bits(negative: bool, n: u128) -> u8
    ensures exact { result ≡ low_bits negative n }
    ensures bound { result < 128 }
{
    let low = (n % 128) as u8;
    if negative { 127 - low } else { low }
}
