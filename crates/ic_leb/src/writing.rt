ghost use Rattle.std.specs.Prelude.{◌≡◌, ◌<◌, ◌≤◌, ◌++◌, suc, take, length, OnOk, OnErr};
ghost use Rattle.ic_leb.specs.Spelling.{seven_bits_each, unsigned_spelling, signed_spelling};

use crate::bits::low_bits;
use ic_base::NoMemory;

/// Appends the shortest spelling of an unsigned number. After an error `out` is as it was.
#[tactic(auto, unfolding(crate::specs::Spelling::unsigned_spelling))]
pub fn write_u(n: u128, out: &mut Vec<u8>) -> Result<(), NoMemory>
    ensures written { OnOk result (out.new.items ≡ out.old.items ++ unsigned_spelling n) }
    ensures unchanged { OnErr result (out.new.items ≡ out.old.items) }
{
    write(n, false, 128, out)
}

/// Appends the shortest spelling of a signed number. After an error `out` is as it was.
#[tactic(auto, unfolding(crate::specs::Spelling::signed_spelling))]
pub fn write_s(z: i128, out: &mut Vec<u8>) -> Result<(), NoMemory>
    ensures written { OnOk result (out.new.items ≡ out.old.items ++ signed_spelling z) }
    ensures unchanged { OnErr result (out.new.items ≡ out.old.items) }
{
    if z < 0 {
        write((-1 - z) as u128, true, 64, out)
    } else {
        write(z as u128, false, 64, out)
    }
}

/// How many bytes `write_u` appends.
#[tactic(auto, unfolding(crate::specs::Spelling::unsigned_spelling))]
pub fn size_u(n: u128) -> usize
    ensures { result ≡ length (unsigned_spelling n) }
{
    size(n, false, 128)
}

/// How many bytes `write_s` appends.
#[tactic(auto, unfolding(crate::specs::Spelling::signed_spelling))]
pub fn size_s(z: i128) -> usize
    ensures { result ≡ length (signed_spelling z) }
{
    if z < 0 {
        size((-1 - z) as u128, true, 64)
    } else {
        size(z as u128, false, 64)
    }
}

// Appends n, seven bits a byte, up to a last byte below `end`: a signed number keeps bit 6 of it for
// the sign. After an error nothing is appended.
fn write(n: u128, negative: bool, end: u128, out: &mut Vec<u8>) -> Result<(), NoMemory>
    requires { (0 < end) × (end ≤ 128) }
    ensures written { OnOk result (out.new.items ≡ out.old.items ++ seven_bits_each end negative (suc n) n) }
    ensures unchanged { OnErr result (out.new.items ≡ out.old.items) }
{
    if n < end {
        out.push(low_bits(negative, n))?;
        return Ok(());
    }
    let before = out.len();
    let written = push_each(n, negative, end, out);
    if written.is_err() {
        out.truncate(before);
    }
    written
}

// Appends the bytes of a number one by one: after an error some of them may be appended.
fn push_each(n: u128, negative: bool, end: u128, out: &mut Vec<u8>) -> Result<(), NoMemory>
    requires { (0 < end) × (end ≤ 128) }
    ensures written { OnOk result (out.new.items ≡ out.old.items ++ seven_bits_each end negative (suc n) n) }
    ensures kept { take (length out.old.items) out.new.items ≡ out.old.items }
{
    let mut left = n;
    while left >= end {
        out.push(128 + low_bits(negative, left))?;
        left /= 128;
    }
    out.push(low_bits(negative, left))?;
    Ok(())
}

// How many bytes n has, seven bits a byte.
fn size(n: u128, negative: bool, end: u128) -> usize
    requires { (0 < end) × (end ≤ 128) }
    ensures { result ≡ length (seven_bits_each end negative (suc n) n) }
{
    let mut left = n;
    let mut size = 1;
    while left >= end {
        left /= 128;
        size += 1;
    }
    size
}
