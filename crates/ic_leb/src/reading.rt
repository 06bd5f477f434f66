ghost use Rattle.std.specs.Prelude.{◌≡◌, ◌↔◌, ℕ, ℤ, [], ◌∷◌, ◌+◌, ◌%◌, ◌^◌, ◌<◌, ◌≤◌, length, drop, take, nat_lt, slice_range, IfOk, IfErr, IfSome, MatchResult, FitsSigned};
ghost use Rattle.std.specs.Int.{complement_if};
ghost use Rattle.std.specs.List.{position_from};
ghost use Rattle.ic_leb.specs.Width.{bits, int_width, most_bytes};
ghost use Rattle.ic_leb.specs.Value.{is_negative, signed_value};
ghost use Rattle.ic_leb.specs.Spells.{SpellsUnsigned, SpellsSigned};
ghost use Rattle.ic_leb.specs.Faults.{IsCutShort, RunsOn, IsTooWideUnsigned, IsTooWideSigned};
ghost use Rattle.ic_leb.specs.Magnitude.{magnitude_of, up_to};
ghost use Rattle.ic_leb.specs.Reading.{size_at, unsigned_at, signed_at, unsigned_reader, signed_reader, read_from};

use crate::bits::low_bits;
use crate::fault::LebFault;
use crate::width::Width;

/// Reads the unsigned number that begins at `at`: the value, and the place after it.
pub fn read_u(bytes: &[u8], at: usize, width: Width) -> Result<(u128, usize), LebFault>
    requires { at ≤ length bytes.now }

    // The bytes from `at` to the place spell the value, and whatever spells one is read.
    ensures value { (n place : ℕ) → (result ≡ Ok (n, place)) ↔ ((place ≤ length bytes.now) × SpellsUnsigned width n (slice_range bytes.now at place)) }
    ensures short { (result ≡ Err LebFault.Short) ↔ IsCutShort (most_bytes width) (drop at bytes.now) }
    ensures long { (result ≡ Err LebFault.Long) ↔ RunsOn (most_bytes width) (drop at bytes.now) }
    ensures wide { (result ≡ Err LebFault.Wide) ↔ IsTooWideUnsigned width (drop at bytes.now) }

    // What is read as a function of the bytes, for the readers that are made of this one.
    ensures exact { result ≡ read_from at (unsigned_at width (drop at bytes.now)) }
    ensures inside { IfOk result (λ x. (at < x.1) × (x.1 ≤ length bytes.now)) }
    ensures fits { IfOk result (λ x. x.0 < 2 ^ bits width) }
{
    unsigned(bytes, at, width)
}

/// Reads the signed number that begins at `at`: the value, and the place after it.
pub fn read_s(bytes: &[u8], at: usize, width: Width) -> Result<(i128, usize), LebFault>
    requires { at ≤ length bytes.now }

    // The bytes from `at` to the place spell the value, and whatever spells one is read.
    ensures value { (z : ℤ) (place : ℕ) → (result ≡ Ok (z, place)) ↔ ((place ≤ length bytes.now) × SpellsSigned width z (slice_range bytes.now at place)) }
    ensures short { (result ≡ Err LebFault.Short) ↔ IsCutShort (most_bytes width) (drop at bytes.now) }
    ensures long { (result ≡ Err LebFault.Long) ↔ RunsOn (most_bytes width) (drop at bytes.now) }
    ensures wide { (result ≡ Err LebFault.Wide) ↔ IsTooWideSigned width (drop at bytes.now) }

    // What is read as a function of the bytes, for the readers that are made of this one.
    ensures exact { result ≡ read_from at (signed_at width (drop at bytes.now)) }
    ensures inside { IfOk result (λ x. (at < x.1) × (x.1 ≤ length bytes.now)) }
    ensures fits { IfOk result (λ x. FitsSigned (int_width width) x.0) }
{
    signed(bytes, at, width)
}

/// Takes the unsigned number off the front: the value, and the bytes after it.
pub fn take_u(bytes: &[u8], width: Width) -> Result<(u128, &[u8]), LebFault>
    ensures exact { MatchResult result (λ x. unsigned_reader width bytes.now ≡ Some (x.0, x.1.now)) (λ _. unsigned_reader width bytes.now ≡ None) }
    // The fault that `read_u` answers.
    ensures fault { IfErr result (λ fault. unsigned_at width bytes.now ≡ Err fault) }
    ensures fits { IfOk result (λ x. x.0 < 2 ^ bits width) }
{
    let (n, place) = unsigned(bytes, 0, width)?;
    Ok((n, &bytes[place..]))
}

/// Takes the signed number off the front: the value, and the bytes after it.
pub fn take_s(bytes: &[u8], width: Width) -> Result<(i128, &[u8]), LebFault>
    ensures exact { MatchResult result (λ x. signed_reader width bytes.now ≡ Some (x.0, x.1.now)) (λ _. signed_reader width bytes.now ≡ None) }
    // The fault that `read_s` answers.
    ensures fault { IfErr result (λ fault. signed_at width bytes.now ≡ Err fault) }
    ensures fits { IfOk result (λ x. FitsSigned (int_width width) x.0) }
{
    let (z, place) = signed(bytes, 0, width)?;
    Ok((z, &bytes[place..]))
}

// The unsigned number that begins at `at`, and the place after it. Most numbers have one byte.
fn unsigned(bytes: &[u8], at: usize, width: Width) -> Result<(u128, usize), LebFault>
    requires { at ≤ length bytes.now }
    ensures exact { result ≡ read_from at (unsigned_at width (drop at bytes.now)) }
    ensures inside { IfOk result (λ x. (at < x.1) × (x.1 ≤ length bytes.now)) }
    ensures fits { IfOk result (λ x. x.0 < 2 ^ bits width) }
{
    match bytes.get(at) {
        Some(byte) if *byte < 128 => Ok((u128::from(*byte), at + 1)),
        _ => unsigned_in_full(bytes, at, width),
    }
}

// Reads an unsigned number byte by byte.
fn unsigned_in_full(bytes: &[u8], at: usize, width: Width) -> Result<(u128, usize), LebFault>
    requires { at ≤ length bytes.now }
    ensures exact { result ≡ read_from at (unsigned_at width (drop at bytes.now)) }
    ensures inside { IfOk result (λ x. (at < x.1) × (x.1 ≤ length bytes.now)) }
    ensures fits { IfOk result (λ x. x.0 < 2 ^ bits width) }
{
    let rest = &bytes[at..];
    let size = size_of(rest, width.most_bytes())?;
    let n = magnitude(&rest[..size], false, width.largest_unsigned())?;
    Ok((n, at + size))
}

// The signed number that begins at `at`, and the place after it. Most numbers have one byte.
fn signed(bytes: &[u8], at: usize, width: Width) -> Result<(i128, usize), LebFault>
    requires { at ≤ length bytes.now }
    ensures exact { result ≡ read_from at (signed_at width (drop at bytes.now)) }
    ensures inside { IfOk result (λ x. (at < x.1) × (x.1 ≤ length bytes.now)) }
    ensures fits { IfOk result (λ x. FitsSigned (int_width width) x.0) }
{
    match bytes.get(at) {
        Some(byte) if *byte < 128 => Ok((signed_byte(*byte), at + 1)),
        _ => signed_in_full(bytes, at, width),
    }
}

// What a byte stands for that is a number by itself.
fn signed_byte(byte: u8) -> i128
    requires { byte < 128 }
    ensures { result ≡ signed_value (byte ∷ []) }
{
    if byte < 64 {
        i128::from(byte)
    } else {
        i128::from(i16::from(byte) - 128)
    }
}

// Reads a signed number byte by byte.
fn signed_in_full(bytes: &[u8], at: usize, width: Width) -> Result<(i128, usize), LebFault>
    requires { at ≤ length bytes.now }
    ensures exact { result ≡ read_from at (signed_at width (drop at bytes.now)) }
    ensures inside { IfOk result (λ x. (at < x.1) × (x.1 ≤ length bytes.now)) }
    ensures fits { IfOk result (λ x. FitsSigned (int_width width) x.0) }
{
    let rest = &bytes[at..];
    let size = size_of(rest, width.most_bytes())?;
    let negative = is_negative(&rest[..size]);
    let n = magnitude(&rest[..size], negative, width.largest_signed())?;
    Ok((with_sign(negative, n), at + size))
}

// Bit 6 of the last byte.
#[tactic(auto, unfolding(crate::specs::Value::is_negative))]
fn is_negative(number: &[u8]) -> bool
    requires { 0 < length number.now }
    ensures { result ≡ is_negative number.now }
{
    number[number.len() - 1] % 128 >= 64
}

// n, or -(n + 1).
fn with_sign(negative: bool, n: u128) -> i128
    requires { n < 2 ^ 127 }
    ensures { result ≡ complement_if negative n }
{
    let n = n as i128;
    if negative { -1 - n } else { n }
}

// How many bytes the number at the front has.
fn size_of(bytes: &[u8], most: usize) -> Result<usize, LebFault>
    ensures exact { result ≡ size_at most bytes.now }
    ensures inside { IfOk result (λ size. (0 < size) × (size ≤ length bytes.now)) }
{
    match last_of(bytes, most) {
        Some(last) => Ok(last + 1),
        None if bytes.len() < most => Err(LebFault::Short),
        None => Err(LebFault::Long),
    }
}

// The place of the first byte that has bit 7 clear.
fn last_of(bytes: &[u8], most: usize) -> Option<usize>
    ensures exact { result ≡ position_from (λ byte. nat_lt byte 128) 0 (take most bytes.now) }
    ensures inside { IfSome result (λ last. last < length bytes.now) }
{
    bytes.iter().take(most).position(|byte| *byte < 128)
}

// The number that the bytes spell, without its sign.
fn magnitude(number: &[u8], negative: bool, largest: u128) -> Result<u128, LebFault>
    requires { largest % 128 ≡ 127 }
    ensures { result ≡ up_to largest (magnitude_of negative number.now) }
{
    let mut n = 0;
    for i in (0..number.len()).rev() {
        if n > largest / 128 {
            return Err(LebFault::Wide);
        }
        n = n * 128 + low_bits(negative, number[i] as u128) as u128;
    }
    Ok(n)
}
