//! Integers of 32 bits, each a number below 2 ^ 32 (WebAssembly Core 1.0, 4.3.2). Operands
//! are in the order of the standard: `y` is the one that was pushed last.

ghost use Rattle.std.specs.Prelude.{◌≡◌, ◌<◌, ◌^◌, ℤ};
ghost use Rattle.wm_numeric.specs.Integers.{signed as signed_of, unsigned as unsigned_of, iadd, isub, imul, idiv_u, idiv_s, irem_u, irem_s, iand, ior, ixor, ishl, ishr_u, ishr_s, irotl, irotr, iclz, ictz, ipopcnt, ieqz, ieq, ine, ilt_u, ilt_s, igt_u, igt_s, ile_u, ile_s, ige_u, ige_s, wrap, extend_s, iextend_s};

use crate::failure::Failure;

#[inline]
fn signed(x: u64) -> i32
    requires { x < 2 ^ 32 }
    ensures { result ≡ signed_of 32 x }
{
    (x as u32).cast_signed()
}

/// The integer that a signed number stands for, as in `i32.const`.
#[inline]
pub fn unsigned(z: i32) -> u64
    ensures { result ≡ unsigned_of 32 z }
{
    u64::from(z.cast_unsigned())
}

#[inline]
pub fn add(x: u64, y: u64) -> u64
    requires first { x < 2 ^ 32 }
    requires second { y < 2 ^ 32 }
    ensures { result ≡ iadd 32 x y }
{
    u64::from((x as u32).wrapping_add(y as u32))
}

#[inline]
pub fn sub(x: u64, y: u64) -> u64
    requires first { x < 2 ^ 32 }
    requires second { y < 2 ^ 32 }
    ensures { result ≡ isub 32 x y }
{
    u64::from((x as u32).wrapping_sub(y as u32))
}

#[inline]
pub fn mul(x: u64, y: u64) -> u64
    requires first { x < 2 ^ 32 }
    requires second { y < 2 ^ 32 }
    ensures { result ≡ imul 32 x y }
{
    u64::from((x as u32).wrapping_mul(y as u32))
}

#[inline]
pub fn div_u(x: u64, y: u64) -> Result<u64, Failure>
    requires first { x < 2 ^ 32 }
    requires second { y < 2 ^ 32 }
    ensures { result ≡ idiv_u 32 x y }
{
    if y == 0 {
        return Err(Failure::DivideByZero);
    }
    Ok(u64::from((x as u32) / (y as u32)))
}

#[inline]
pub fn div_s(x: u64, y: u64) -> Result<u64, Failure>
    requires first { x < 2 ^ 32 }
    requires second { y < 2 ^ 32 }
    ensures { result ≡ idiv_s 32 x y }
{
    if y == 0 {
        return Err(Failure::DivideByZero);
    }
    match signed(x).checked_div(signed(y)) {
        Some(quotient) => Ok(unsigned(quotient)),
        None => Err(Failure::Overflow),
    }
}

#[inline]
pub fn rem_u(x: u64, y: u64) -> Result<u64, Failure>
    requires first { x < 2 ^ 32 }
    requires second { y < 2 ^ 32 }
    ensures { result ≡ irem_u 32 x y }
{
    if y == 0 {
        return Err(Failure::DivideByZero);
    }
    Ok(u64::from((x as u32) % (y as u32)))
}

#[inline]
pub fn rem_s(x: u64, y: u64) -> Result<u64, Failure>
    requires first { x < 2 ^ 32 }
    requires second { y < 2 ^ 32 }
    ensures { result ≡ irem_s 32 x y }
{
    if y == 0 {
        return Err(Failure::DivideByZero);
    }
    Ok(unsigned(signed(x).wrapping_rem(signed(y))))
}

#[inline]
pub fn and(x: u64, y: u64) -> u64
    ensures { result ≡ iand 32 x y }
{
    x & y
}

#[inline]
pub fn or(x: u64, y: u64) -> u64
    ensures { result ≡ ior 32 x y }
{
    x | y
}

#[inline]
pub fn xor(x: u64, y: u64) -> u64
    ensures { result ≡ ixor 32 x y }
{
    x ^ y
}

#[inline]
pub fn shl(x: u64, y: u64) -> u64
    requires { x < 2 ^ 32 }
    ensures { result ≡ ishl 32 x y }
{
    u64::from((x as u32) << (y % 32))
}

#[inline]
pub fn shr_u(x: u64, y: u64) -> u64
    ensures { result ≡ ishr_u 32 x y }
{
    x >> (y % 32)
}

#[inline]
pub fn shr_s(x: u64, y: u64) -> u64
    requires { x < 2 ^ 32 }
    ensures { result ≡ ishr_s 32 x y }
{
    unsigned(signed(x) >> (y % 32))
}

#[inline]
pub fn rotl(x: u64, y: u64) -> u64
    requires { x < 2 ^ 32 }
    ensures { result ≡ irotl 32 x y }
{
    u64::from((x as u32).rotate_left((y % 32) as u32))
}

#[inline]
pub fn rotr(x: u64, y: u64) -> u64
    requires { x < 2 ^ 32 }
    ensures { result ≡ irotr 32 x y }
{
    u64::from((x as u32).rotate_right((y % 32) as u32))
}

#[inline]
pub fn clz(x: u64) -> u64
    requires { x < 2 ^ 32 }
    ensures { result ≡ iclz 32 x }
{
    u64::from((x as u32).leading_zeros())
}

#[inline]
pub fn ctz(x: u64) -> u64
    requires { x < 2 ^ 32 }
    ensures { result ≡ ictz 32 x }
{
    u64::from((x as u32).trailing_zeros())
}

#[inline]
pub fn popcnt(x: u64) -> u64
    ensures { result ≡ ipopcnt 32 x }
{
    u64::from(x.count_ones())
}

#[inline]
pub fn eqz(x: u64) -> u64
    ensures { result ≡ ieqz 32 x }
{
    u64::from(x == 0)
}

#[inline]
pub fn eq(x: u64, y: u64) -> u64
    ensures { result ≡ ieq 32 x y }
{
    u64::from(x == y)
}

#[inline]
pub fn ne(x: u64, y: u64) -> u64
    ensures { result ≡ ine 32 x y }
{
    u64::from(x != y)
}

#[inline]
pub fn lt_s(x: u64, y: u64) -> u64
    requires first { x < 2 ^ 32 }
    requires second { y < 2 ^ 32 }
    ensures { result ≡ ilt_s 32 x y }
{
    u64::from(signed(x) < signed(y))
}

#[inline]
pub fn lt_u(x: u64, y: u64) -> u64
    ensures { result ≡ ilt_u 32 x y }
{
    u64::from(x < y)
}

#[inline]
pub fn gt_s(x: u64, y: u64) -> u64
    requires first { x < 2 ^ 32 }
    requires second { y < 2 ^ 32 }
    ensures { result ≡ igt_s 32 x y }
{
    u64::from(signed(x) > signed(y))
}

#[inline]
pub fn gt_u(x: u64, y: u64) -> u64
    ensures { result ≡ igt_u 32 x y }
{
    u64::from(x > y)
}

#[inline]
pub fn le_s(x: u64, y: u64) -> u64
    requires first { x < 2 ^ 32 }
    requires second { y < 2 ^ 32 }
    ensures { result ≡ ile_s 32 x y }
{
    u64::from(signed(x) <= signed(y))
}

#[inline]
pub fn le_u(x: u64, y: u64) -> u64
    ensures { result ≡ ile_u 32 x y }
{
    u64::from(x <= y)
}

#[inline]
pub fn ge_s(x: u64, y: u64) -> u64
    requires first { x < 2 ^ 32 }
    requires second { y < 2 ^ 32 }
    ensures { result ≡ ige_s 32 x y }
{
    u64::from(signed(x) >= signed(y))
}

#[inline]
pub fn ge_u(x: u64, y: u64) -> u64
    ensures { result ≡ ige_u 32 x y }
{
    u64::from(x >= y)
}

/// `i32.wrap_i64`
#[inline]
pub fn wrap_64(x: u64) -> u64
    ensures { result ≡ wrap 32 x }
{
    x % 0x1_0000_0000
}

/// `i32.extend8_s`; of an integer of 8 bits what it stands for, signed.
#[inline]
pub fn extend_8_s(x: u64) -> u64
    ensures low { result ≡ iextend_s 32 8 x }
    ensures short { x < 2 ^ 8 → result ≡ extend_s 8 32 x }
{
    unsigned(i32::from(((x % 0x100) as u8).cast_signed()))
}

/// `i32.extend16_s`; of an integer of 16 bits what it stands for, signed.
#[inline]
pub fn extend_16_s(x: u64) -> u64
    ensures low { result ≡ iextend_s 32 16 x }
    ensures short { x < 2 ^ 16 → result ≡ extend_s 16 32 x }
{
    unsigned(i32::from(((x % 0x1_0000) as u16).cast_signed()))
}
