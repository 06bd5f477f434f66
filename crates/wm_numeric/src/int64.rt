//! Integers of 64 bits, each a number below 2 ^ 64 (WebAssembly Core 1.0, 4.3.2). Operands
//! are in the order of the standard: `y` is the one that was pushed last.

ghost use Rattle.std.specs.Prelude.{◌≡◌, ◌<◌, ◌^◌, ℤ};
ghost use Rattle.wm_numeric.specs.Integers.{signed as signed_of, unsigned as unsigned_of, iadd, isub, imul, idiv_u, idiv_s, irem_u, irem_s, iand, ior, ixor, ishl, ishr_u, ishr_s, irotl, irotr, iclz, ictz, ipopcnt, ieqz, ieq, ine, ilt_u, ilt_s, igt_u, igt_s, ile_u, ile_s, ige_u, ige_s, wrap, extend_s, iextend_s};

use crate::failure::Failure;

#[inline]
fn signed(x: u64) -> i64
    ensures { result ≡ signed_of 64 x }
{
    x.cast_signed()
}

/// The integer that a signed number stands for, as in `i64.const`.
#[inline]
pub fn unsigned(z: i64) -> u64
    ensures { result ≡ unsigned_of 64 z }
{
    z.cast_unsigned()
}

#[inline]
pub fn add(x: u64, y: u64) -> u64
    ensures { result ≡ iadd 64 x y }
{
    x.wrapping_add(y)
}

#[inline]
pub fn sub(x: u64, y: u64) -> u64
    ensures { result ≡ isub 64 x y }
{
    x.wrapping_sub(y)
}

#[inline]
pub fn mul(x: u64, y: u64) -> u64
    ensures { result ≡ imul 64 x y }
{
    x.wrapping_mul(y)
}

#[inline]
pub fn div_u(x: u64, y: u64) -> Result<u64, Failure>
    ensures { result ≡ idiv_u 64 x y }
{
    if y == 0 {
        return Err(Failure::DivideByZero);
    }
    Ok(x / y)
}

#[inline]
pub fn div_s(x: u64, y: u64) -> Result<u64, Failure>
    ensures { result ≡ idiv_s 64 x y }
{
    if y == 0 {
        return Err(Failure::DivideByZero);
    }
    match signed(x).checked_div(signed(y)) {
        Some(quotient) => Ok(unsigned(quotient)),
        None => Err(Failure::Overflow),
    }
}

#[inline]
pub fn rem_u(x: u64, y: u64) -> Result<u64, Failure>
    ensures { result ≡ irem_u 64 x y }
{
    if y == 0 {
        return Err(Failure::DivideByZero);
    }
    Ok(x % y)
}

#[inline]
pub fn rem_s(x: u64, y: u64) -> Result<u64, Failure>
    ensures { result ≡ irem_s 64 x y }
{
    if y == 0 {
        return Err(Failure::DivideByZero);
    }
    Ok(unsigned(signed(x).wrapping_rem(signed(y))))
}

#[inline]
pub fn and(x: u64, y: u64) -> u64
    ensures { result ≡ iand 64 x y }
{
    x & y
}

#[inline]
pub fn or(x: u64, y: u64) -> u64
    ensures { result ≡ ior 64 x y }
{
    x | y
}

#[inline]
pub fn xor(x: u64, y: u64) -> u64
    ensures { result ≡ ixor 64 x y }
{
    x ^ y
}

#[inline]
pub fn shl(x: u64, y: u64) -> u64
    ensures { result ≡ ishl 64 x y }
{
    x << (y % 64)
}

#[inline]
pub fn shr_u(x: u64, y: u64) -> u64
    ensures { result ≡ ishr_u 64 x y }
{
    x >> (y % 64)
}

#[inline]
pub fn shr_s(x: u64, y: u64) -> u64
    ensures { result ≡ ishr_s 64 x y }
{
    unsigned(signed(x) >> (y % 64))
}

#[inline]
pub fn rotl(x: u64, y: u64) -> u64
    ensures { result ≡ irotl 64 x y }
{
    x.rotate_left((y % 64) as u32)
}

#[inline]
pub fn rotr(x: u64, y: u64) -> u64
    ensures { result ≡ irotr 64 x y }
{
    x.rotate_right((y % 64) as u32)
}

#[inline]
pub fn clz(x: u64) -> u64
    ensures { result ≡ iclz 64 x }
{
    u64::from(x.leading_zeros())
}

#[inline]
pub fn ctz(x: u64) -> u64
    ensures { result ≡ ictz 64 x }
{
    u64::from(x.trailing_zeros())
}

#[inline]
pub fn popcnt(x: u64) -> u64
    ensures { result ≡ ipopcnt 64 x }
{
    u64::from(x.count_ones())
}

#[inline]
pub fn eqz(x: u64) -> u64
    ensures { result ≡ ieqz 64 x }
{
    u64::from(x == 0)
}

#[inline]
pub fn eq(x: u64, y: u64) -> u64
    ensures { result ≡ ieq 64 x y }
{
    u64::from(x == y)
}

#[inline]
pub fn ne(x: u64, y: u64) -> u64
    ensures { result ≡ ine 64 x y }
{
    u64::from(x != y)
}

#[inline]
pub fn lt_s(x: u64, y: u64) -> u64
    ensures { result ≡ ilt_s 64 x y }
{
    u64::from(signed(x) < signed(y))
}

#[inline]
pub fn lt_u(x: u64, y: u64) -> u64
    ensures { result ≡ ilt_u 64 x y }
{
    u64::from(x < y)
}

#[inline]
pub fn gt_s(x: u64, y: u64) -> u64
    ensures { result ≡ igt_s 64 x y }
{
    u64::from(signed(x) > signed(y))
}

#[inline]
pub fn gt_u(x: u64, y: u64) -> u64
    ensures { result ≡ igt_u 64 x y }
{
    u64::from(x > y)
}

#[inline]
pub fn le_s(x: u64, y: u64) -> u64
    ensures { result ≡ ile_s 64 x y }
{
    u64::from(signed(x) <= signed(y))
}

#[inline]
pub fn le_u(x: u64, y: u64) -> u64
    ensures { result ≡ ile_u 64 x y }
{
    u64::from(x <= y)
}

#[inline]
pub fn ge_s(x: u64, y: u64) -> u64
    ensures { result ≡ ige_s 64 x y }
{
    u64::from(signed(x) >= signed(y))
}

#[inline]
pub fn ge_u(x: u64, y: u64) -> u64
    ensures { result ≡ ige_u 64 x y }
{
    u64::from(x >= y)
}

/// `i64.extend8_s`; of an integer of 8 bits what it stands for, signed.
#[inline]
pub fn extend_8_s(x: u64) -> u64
    ensures low { result ≡ iextend_s 64 8 x }
    ensures short { x < 2 ^ 8 → result ≡ extend_s 8 64 x }
{
    unsigned(i64::from(((x % 0x100) as u8).cast_signed()))
}

/// `i64.extend16_s`; of an integer of 16 bits what it stands for, signed.
#[inline]
pub fn extend_16_s(x: u64) -> u64
    ensures low { result ≡ iextend_s 64 16 x }
    ensures short { x < 2 ^ 16 → result ≡ extend_s 16 64 x }
{
    unsigned(i64::from(((x % 0x1_0000) as u16).cast_signed()))
}

/// `i64.extend32_s`; of an integer of 32 bits what it stands for, signed.
#[inline]
pub fn extend_32_s(x: u64) -> u64
    ensures low { result ≡ iextend_s 64 32 x }
    ensures short { x < 2 ^ 32 → result ≡ extend_s 32 64 x }
{
    unsigned(i64::from(((x % 0x1_0000_0000) as u32).cast_signed()))
}
