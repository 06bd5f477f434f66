ghost use Rattle.std.specs.Prelude.{ℕ, List, ◌∷◌, is_some, ◌≡◌, ◌≤◌, ◌<◌, ◌*◌, ◌+◌, ◌^◌, true, false, Some, IfSome, pos, neg_ℤ, option_map};
ghost use Rattle.cd_tokens.specs.Numeral.{digit_of};
ghost use Rattle.cd_tokens.specs.ReadNumeral.{digits_from, numeral_of, natural_of, integer_of, below, between};
ghost use Rattle.cd_tokens.specs.GoOn.{go_on, ends_well};

use crate::bytes::is_sign;

pub(crate) fn digit_of(base: u32, byte: u8) -> Option<u32>
    requires least { 2 ≤ base }
    requires most { base ≤ 36 }
    ensures value { result ≡ digit_of base byte }
    ensures bound { IfSome result (λ d. d < base) }
{
    char::from(byte).to_digit(base)
}

fn grown(number: u128, base: u32, digit: u32) -> Option<u128>
    ensures { result ≡ below (2 ^ 128) (Some (number * base + digit)) }
{
    number
        .checked_mul(u128::from(base))?
        .checked_add(u128::from(digit))
}

// Digits read from the front: their number, and whether a digit must follow.
#[derive(Clone, Copy)]
struct Digits {
    number: u128,
    needs_digit: bool,
}

fn with_number(number: Option<u128>) -> Option<Digits>
    ensures value { result ≡ option_map (λ n. record { number = n; needs_digit = false }) number }
    ensures bound { IfSome result (λ d. d.number < 2 ^ 128) }
{
    let needs_digit = false;
    Some(Digits {
        number: number?,
        needs_digit,
    })
}

// What is read with one byte more; `None` where no number below 2^128 begins so.
#[tactic(auto, using(crate::proofs::Numerals::not_a_digit, crate::proofs::Numerals::one_digit, crate::proofs::Numerals::two_underscores, crate::proofs::Numerals::underscore))]
fn with_byte(digits: Digits, base: u32, byte: u8) -> Option<Digits>
    requires least { 2 ≤ base }
    requires most { base ≤ 36 }
    requires bound { digits.number < 2 ^ 128 }
    ensures value { (bytes : List ℕ) → below (2 ^ 128) (digits_from base digits.needs_digit digits.number (byte ∷ bytes)) ≡ go_on base result bytes }
    ensures bound { IfSome result (λ d. d.number < 2 ^ 128) }
{
    if byte != b'_' {
        return match digit_of(base, byte) {
            None => None,
            Some(digit) => with_number(grown(digits.number, base, digit)),
        };
    }
    if digits.needs_digit {
        return None;
    }
    let number = digits.number;
    let needs_digit = true;
    Some(Digits {
        number,
        needs_digit,
    })
}

// The number of digits with single `_` between them, below 2^128.
fn digits_of(base: u32, bytes: &[u8]) -> Option<u128>
    requires least { 2 ≤ base }
    requires most { base ≤ 36 }
    ensures { result ≡ below (2 ^ 128) (digits_from base true 0 bytes.now) }
{
    let mut digits = Digits {
        number: 0,
        needs_digit: true,
    };
    for byte in bytes {
        match with_byte(digits, base, *byte) {
            None => return None,
            Some(more) => digits = more,
        }
    }
    if digits.needs_digit {
        None
    } else {
        Some(digits.number)
    }
}

/// The natural number that a token without a sign says: decimal digits, or `0x` and hex digits, with
/// single `_` between digits. `None` where it says none below 2^128.
#[tactic(auto, unfolding(crate::specs::ReadNumeral::numeral_of))]
pub fn numeral_of(bytes: &[u8]) -> Option<u128>
    ensures { result ≡ below (2 ^ 128) (numeral_of bytes.now) }
{
    match bytes {
        [] => None,
        [_] => digits_of(10, bytes),
        [first, second, digits @ ..] => {
            if *first == b'0' && *second == b'x' {
                digits_of(16, digits)
            } else {
                digits_of(10, bytes)
            }
        }
    }
}

/// The natural number that a token says: decimal digits, or `0x` and hex digits, with single `_`
/// between digits, maybe after `+`. `None` where it says none below 2^128.
#[tactic(auto, unfolding(crate::specs::ReadNumeral::natural_of))]
pub fn natural_of(bytes: &[u8]) -> Option<u128>
    ensures { result ≡ below (2 ^ 128) (natural_of bytes.now) }
{
    match bytes {
        [] => None,
        [first, rest @ ..] => {
            if *first == b'+' {
                numeral_of(rest)
            } else {
                numeral_of(bytes)
            }
        }
    }
}

// From the amount and the sign, where it is from -half to half - 1.
fn negated(amount: Option<u128>, half: u128) -> Option<i128>
    requires { half ≤ 2 ^ 127 }
    ensures { result ≡ between half (option_map (λ n. neg_ℤ (pos n)) amount) }
{
    let amount = amount?;
    if amount > half {
        None
    } else if amount == 0 {
        if half == 0 { None } else { Some(0) }
    } else {
        Some(-1 - (amount - 1) as i128)
    }
}

fn positive(amount: Option<u128>, half: u128) -> Option<i128>
    requires { half ≤ 2 ^ 127 }
    ensures { result ≡ between half (option_map (λ n. pos n) amount) }
{
    let amount = amount?;
    if amount < half {
        Some(amount as i128)
    } else {
        None
    }
}

/// The integer that a token says: a natural number, or one without `+` after `-`. `None` where it
/// says none from -half to half - 1.
#[tactic(auto, unfolding(crate::specs::ReadNumeral::integer_of))]
pub fn integer_of(bytes: &[u8], half: u128) -> Option<i128>
    requires { half ≤ 2 ^ 127 }
    ensures { result ≡ between half (integer_of bytes.now) }
{
    match bytes {
        [] => None,
        [first, rest @ ..] => {
            if *first == b'-' {
                negated(numeral_of(rest), half)
            } else {
                positive(natural_of(bytes), half)
            }
        }
    }
}

// Whether a digit must follow the byte. `None`: no number has the byte there.
#[tactic(auto, using(crate::proofs::AnySize::no_digit, crate::proofs::AnySize::one_digit, crate::proofs::AnySize::two_underscores, crate::proofs::AnySize::underscore))]
fn needs_after(base: u32, needs_digit: bool, byte: u8) -> Option<bool>
    requires least { 2 ≤ base }
    requires most { base ≤ 36 }
    ensures { (number : ℕ) (bytes : List ℕ) → is_some (digits_from base needs_digit number (byte ∷ bytes)) ≡ ends_well base result bytes }
{
    if byte != b'_' {
        return match digit_of(base, byte) {
            None => None,
            Some(_) => Some(false),
        };
    }
    if needs_digit { None } else { Some(true) }
}

// Whether the bytes are digits with single `_` between them.
fn are_digits(base: u32, bytes: &[u8]) -> bool
    requires least { 2 ≤ base }
    requires most { base ≤ 36 }
    ensures { result ≡ is_some (digits_from base true 0 bytes.now) }
{
    let mut needs_digit = true;
    for byte in bytes {
        match needs_after(base, needs_digit, *byte) {
            None => return false,
            Some(needs) => needs_digit = needs,
        }
    }
    !needs_digit
}

#[tactic(auto, unfolding(crate::specs::ReadNumeral::numeral_of))]
fn says_numeral(bytes: &[u8]) -> bool
    ensures { result ≡ is_some (numeral_of bytes.now) }
{
    match bytes {
        [] => false,
        [_] => are_digits(10, bytes),
        [first, second, digits @ ..] => {
            if *first == b'0' && *second == b'x' {
                are_digits(16, digits)
            } else {
                are_digits(10, bytes)
            }
        }
    }
}

/// Whether a token says an integer, of any size.
#[tactic(auto, using(crate::proofs::AnySize::without_sign))]
pub fn says_integer(bytes: &[u8]) -> bool
    ensures { result ≡ is_some (integer_of bytes.now) }
{
    match bytes {
        [] => false,
        [first, rest @ ..] => {
            if is_sign(*first) {
                says_numeral(rest)
            } else {
                says_numeral(bytes)
            }
        }
    }
}
