ghost use Rattle.std.specs.Int.{w64, from_be_bytes};
ghost use Rattle.std.specs.Prelude.{◌≡◌, ℕ, ◌^◌, ◌<◌, ◌≤◌, length, drop, List, All, IfOk, IfSome, IfNone, OnErr};
ghost use Rattle.std.specs.Result.{result_ok};
ghost use Rattle.ic_principal.specs.CanisterId.{canister_id_of};
ghost use Rattle.ic_principal.specs.HasChecksum.{HasChecksum};
ghost use Rattle.ic_principal.specs.IsPrincipal.{IsPrincipal};
ghost use Rattle.ic_principal.specs.Padded.{padded as padded_bytes};
ghost use Rattle.ic_principal.specs.Text.{IsText, text_of, principal_of};

use crate::base32::{bytes_of, spell, values_in, values_of};
use crate::checksum::checksum;
use crate::text::Text;
use arrayvec::ArrayString;
use ic_base::NoMemory;
use std::alloc::Global;
use std::marker::Model;

const LONGEST: usize = 29;

const LONGEST_TEXT: usize = 63;

/// An identifier of a user or a canister: 0 to 29 bytes. Contracts see the list of its bytes.
#[derive(Clone, Copy)]
pub struct Principal {
    bytes: [u8; LONGEST],
    len: u8,
}

impl Model for Principal {
    ghost use Rattle.std.specs.Prelude.{ℕ, List, length, take};
    ghost use Rattle.std.proofs.Common.{sym};
    ghost use Rattle.ic_principal.specs.Padded.{padded, IsPadded, length-kept};

    ghost Value = { List ℕ };

    ghost view = { λ p. take p.len p.bytes };

    ghost invariant = { λ p. IsPadded p.bytes p.len };

    ghost inverse = { λ bytes. record { bytes = padded bytes; len = length bytes } };

    ghost inverse_ok = { λ p h i. record {
      bytes = sym h.zeros i;
      len = length-kept p.bytes p.len h i;
    } };
}

/// Bytes of which there are more than 29, so that they are no principal.
#[derive(Clone, Copy, Debug, PartialEq, Eq)]
pub struct TooLong;

/// A text that no principal has.
#[derive(Clone, Copy, Debug, PartialEq, Eq)]
pub struct NotText;

impl Principal {
    /// The principal of these bytes; `TooLong` for more than 29.
    pub fn from_bytes(bytes: &[u8]) -> Result<Principal, TooLong>
        ensures ok { IfOk result (λ p. (p ≡ bytes.now) × IsPrincipal bytes.now) }
        ensures too_long { OnErr result (29 < length bytes.now) }
    {
        if bytes.len() > LONGEST {
            return Err(TooLong);
        }
        Ok(Principal::keep(bytes))
    }

    /// The principal's bytes, at most 29.
    pub fn bytes(&self) -> &[u8]
        ensures value { result.now ≡ self.now }
        ensures principal { IsPrincipal self.now }
    {
        &self.bytes[..self.len as usize]
    }

    /// The principal of the canister with this number: eight bytes, the highest first, and 01 01.
    pub fn canister_id(counter: u64) -> Principal
        ensures id { result ≡ canister_id_of counter }
        ensures principal { IsPrincipal result }
        ensures distinct { (other : ℕ) → other < 2 ^ 64 → canister_id_of other ≡ result
            → other ≡ counter }
    {
        let [a, b, c, d, e, f, g, h] = counter.to_be_bytes();
        Principal::keep(&[a, b, c, d, e, f, g, h, 1, 1])
    }

    /// The principal with this text; `NotText` where there is none, as for upper case, a dash too
    /// many or too few, or a wrong checksum.
    pub fn from_text(text: &str) -> Result<Principal, NotText>
        ensures text { IfOk result (λ p. IsPrincipal p × IsText p text.now) }
        ensures found { (p : List ℕ) → IsPrincipal p → IsText p text.now → result ≡ Ok p }
        ensures none { OnErr result ((p : List ℕ) → IsPrincipal p → ¬ (IsText p text.now)) }
        ensures value { result_ok result ≡ principal_of text.now }
    {
        named(text).ok_or(NotText)
    }

    /// The principal's text, from 8 to 63 characters.
    pub fn to_text(&self, alloc: Global) -> Result<Text, NoMemory>
        ensures text { IfOk result (λ text. text ≡ text_of self.now) }
        ensures size { IfOk result (λ text. (8 ≤ length text) × (length text ≤ 63)) }
        ensures reads_back { IfOk result (λ text. principal_of text ≡ Some self.now) }
    {
        Ok(Text {
            items: String::from_str(alloc, self.spelled().as_str())?,
        })
    }

    /// The numbers that bytes 0 to 7 and 8 to 15 make, the highest byte first; zeros stand for
    /// missing ones. They tell nearly all ids apart.
    pub(crate) fn front(&self) -> (u64, u64)
        ensures front { (result.0 ≡ from_be_bytes w64 self.now)
            × (result.1 ≡ from_be_bytes w64 (drop 8 self.now)) }
        ensures principal { IsPrincipal self.now }
    {
        let b = &self.bytes;
        (
            u64::from_be_bytes([b[0], b[1], b[2], b[3], b[4], b[5], b[6], b[7]]),
            u64::from_be_bytes([b[8], b[9], b[10], b[11], b[12], b[13], b[14], b[15]]),
        )
    }

    /// The number of bytes.
    pub(crate) fn len(&self) -> u8
        ensures { result ≡ length self.now }
    {
        self.len
    }

    // Keeps bytes that are known to be few enough.
    fn keep(bytes: &[u8]) -> Principal
        requires { length bytes.now ≤ 29 }
        ensures value { result ≡ bytes.now }
        ensures principal { IsPrincipal bytes.now }
    {
        Principal {
            bytes: padded(bytes),
            len: bytes.len() as u8,
        }
    }

    /// The text, without taking memory.
    pub(crate) fn spelled(&self) -> ArrayString<LONGEST_TEXT>
        ensures text { result.bytes ≡ text_of self.now }
        ensures size { (8 ≤ length result.bytes) × (length result.bytes ≤ 63) }
        ensures reads_back { principal_of result.bytes ≡ Some self.now }
    {
        let bytes = self.bytes();
        spell(&values_of(&checksum(bytes).to_be_bytes(), bytes))
    }
}

// The principal with this text, if there is one.
fn named(text: &str) -> Option<Principal>
    ensures { result ≡ principal_of text.now }
{
    if text.len() > LONGEST_TEXT {
        return None;
    }
    let Some(values) = values_in(text.as_bytes()) else {
        return None;
    };
    let (bytes, rest) = bytes_of(&values);
    if rest.len() >= 5 || !rest.is_clear() {
        return None;
    }
    behind_checksum(&bytes)
}

// The principal whose bytes come after the four of their checksum.
fn behind_checksum(bytes: &[u8]) -> Option<Principal>
    requires { All (λ b. b < 256) bytes.now }
    ensures some { IfSome result (λ p. (p ≡ drop 4 bytes.now) × HasChecksum bytes.now × IsPrincipal p) }
    ensures none { IfNone result (HasChecksum bytes.now → 29 < length (drop 4 bytes.now)) }
{
    if bytes.len() < 4 {
        return None;
    }
    let (front, back) = bytes.split_at(4);
    if front != checksum(back).to_be_bytes().as_slice() {
        return None;
    }
    Principal::from_bytes(back).ok()
}

// The bytes with zeros after them.
fn padded(bytes: &[u8]) -> [u8; LONGEST]
    requires { length bytes.now ≤ 29 }
    ensures { result ≡ padded_bytes bytes.now }
{
    let mut padded = [0; LONGEST];
    padded[..bytes.len()].copy_from_slice(bytes);
    padded
}
