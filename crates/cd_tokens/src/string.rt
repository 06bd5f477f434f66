ghost use Rattle.std.specs.Prelude.{◌≡◌, ◌++◌, ◌==◌, ◌&&◌, ◌<◌, nat_lt, if◌then◌else◌, Some, None, is_some, OnOk};
ghost use Rattle.std.proofs.Math.Utf8.{scalar};
ghost use Rattle.ic_base.specs.Gives.{Gives};
ghost use Rattle.cd_tokens.specs.Numeral.{digit_of as hex_digit_of};
ghost use Rattle.cd_tokens.specs.Unescaped.{letter_says};
ghost use Rattle.cd_tokens.specs.ReadString.{bytes_of, behind_backslash, paired, with_digit, string_step, is_plain, unescaped_of};

use crate::number::digit_of;
use ic_base::{NoMemory, ReadError};
use std::alloc::Global;

/// Where in a string a byte stands.
#[derive(Clone, Copy)]
enum Within {
    Plain,
    Backslash,
    /// After the first of two hex digits.
    Pair { high: u8 },
    /// After `\u`.
    Brace,
    /// In braces, after that many hex digits of this number.
    Scalar { count: u32, number: u32 },
}

/// What a byte says.
#[derive(Clone, Copy)]
enum Said {
    Nothing,
    Byte(u8),
    Char(char),
}

impl Said {
    fn push_to(self, out: &mut Vec<u8>) -> Result<(), NoMemory>
        ensures { OnOk result (out.new.items ≡ out.old.items ++ bytes_of self) }
    {
        match self {
            Said::Nothing => {}
            Said::Byte(byte) => out.push(byte)?,
            Said::Char(c) => {
                let mut buffer = [0; 4];
                out.extend_from_slice(c.encode_utf8(&mut buffer).as_bytes())?;
            }
        }
        Ok(())
    }
}

fn hex_digit(byte: u8) -> Option<u8>
    ensures { result ≡ hex_digit_of 16 byte }
{
    match digit_of(16, byte) {
        Some(digit) => Some(digit as u8),
        None => None,
    }
}

fn letter_says(byte: u8) -> Option<u8>
    ensures { result ≡ letter_says byte }
{
    match byte {
        b'n' => Some(b'\n'),
        b'r' => Some(b'\r'),
        b't' => Some(b'\t'),
        b'\\' | b'"' | b'\'' => Some(byte),
        _ => None,
    }
}

fn behind_backslash(byte: u8) -> Option<(Within, Said)>
    ensures { result ≡ behind_backslash (letter_says byte) (byte == 117) (hex_digit_of 16 byte) }
{
    match letter_says(byte) {
        Some(said) => Some((Within::Plain, Said::Byte(said))),
        None => {
            if byte == b'u' {
                return Some((Within::Brace, Said::Nothing));
            }
            match hex_digit(byte) {
                Some(high) => Some((Within::Pair { high }, Said::Nothing)),
                None => None,
            }
        }
    }
}

fn paired(high: u8, low: u8) -> Option<(Within, Said)>
    ensures { result ≡ paired high low }
{
    match high.checked_mul(16)?.checked_add(low) {
        Some(byte) => Some((Within::Plain, Said::Byte(byte))),
        None => None,
    }
}

fn scalar_ended(count: u32, number: u32) -> Option<(Within, Said)>
    ensures { result ≡ (if nat_lt 0 count && scalar number then Some (Within.Plain, Said.Char number) else None) }
{
    if count == 0 {
        return None;
    }
    match char::from_u32(number) {
        Some(c) => Some((Within::Plain, Said::Char(c))),
        None => None,
    }
}

fn with_digit(count: u32, number: u32, digit: u8) -> Option<(Within, Said)>
    requires { count < 6 }
    ensures { result ≡ with_digit count number digit }
{
    match number.checked_mul(16)?.checked_add(u32::from(digit)) {
        None => None,
        Some(number) => Some((
            Within::Scalar {
                count: count + 1,
                number,
            },
            Said::Nothing,
        )),
    }
}

impl Within {
    fn step(self, byte: u8) -> Option<(Within, Said)>
        ensures { result ≡ string_step self byte }
    {
        match self {
            Within::Plain => {
                if byte == b'\\' {
                    Some((Within::Backslash, Said::Nothing))
                } else if byte < 32 || byte == b'"' {
                    None
                } else {
                    Some((Within::Plain, Said::Byte(byte)))
                }
            }
            Within::Backslash => behind_backslash(byte),
            Within::Pair { high } => match hex_digit(byte) {
                Some(low) => paired(high, low),
                None => None,
            },
            Within::Brace => {
                if byte == b'{' {
                    Some((
                        Within::Scalar {
                            count: 0,
                            number: 0,
                        },
                        Said::Nothing,
                    ))
                } else {
                    None
                }
            }
            Within::Scalar { count, number } => {
                if byte == b'}' {
                    scalar_ended(count, number)
                } else if count < 6 {
                    match hex_digit(byte) {
                        Some(digit) => with_digit(count, number, digit),
                        None => None,
                    }
                } else {
                    None
                }
            }
        }
    }

    fn is_plain(self) -> bool
        ensures { result ≡ is_plain self }
    {
        matches!(self, Within::Plain)
    }
}

/// Whether a string says bytes, of what is between its quotes.
pub fn says_bytes(written: &[u8]) -> bool
    ensures { result ≡ is_some (unescaped_of written.now) }
{
    let mut within = Within::Plain;
    for byte in written {
        match within.step(*byte) {
            None => return false,
            Some((next, _)) => within = next,
        }
    }
    within.is_plain()
}

/// The bytes that a string says, of what is between its quotes; they may be no UTF-8.
/// `Refused`: it says none.
pub fn unescaped_of(alloc: Global, written: &[u8]) -> Result<Vec<u8>, ReadError>
    ensures { Gives (λ said. said.items) result (unescaped_of written.now) }
{
    let mut out = Vec::with_capacity(alloc, written.len())?;
    let mut within = Within::Plain;
    for byte in written {
        match within.step(*byte) {
            None => return Err(ReadError::Refused),
            Some((next, said)) => {
                said.push_to(&mut out)?;
                within = next;
            }
        }
    }
    if within.is_plain() {
        Ok(out)
    } else {
        Err(ReadError::Refused)
    }
}
