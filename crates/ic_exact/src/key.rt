ghost use Rattle.std.specs.Prelude.{◌≡◌, length};
ghost use Rattle.std.specs.Int.{w64, from_le_bytes};
ghost use Rattle.ic_exact.specs.Key.{key_of_range, mix};

/// The prime of FNV-1a, by which a key is multiplied.
const PRIME: u64 = 1_099_511_628_211;

/// The key that is made of this one and of one number more.
pub fn mix(key: u64, n: u64) -> u64
    ensures { result ≡ mix key n }
{
    key.wrapping_mul(PRIME).wrapping_add(n)
}

// The number of eight bytes, the lowest first.
fn word_of(bytes: &[u8]) -> u64
    requires { length bytes.now ≡ 8 }
    ensures { result ≡ from_le_bytes w64 bytes.now }
{
    u64::from_le_bytes([
        bytes[0], bytes[1], bytes[2], bytes[3], bytes[4], bytes[5], bytes[6], bytes[7],
    ])
}

/// The key of a range, of its words one after another.
pub(crate) fn key_of_range(bytes: &[u8]) -> u64
    ensures { result ≡ key_of_range bytes.now }
{
    let mut key = 0;
    let mut rest = bytes;
    while rest.len() >= 8 {
        let (word, others) = rest.split_at(8);
        key = mix(key, word_of(word));
        rest = others;
    }
    key
}
