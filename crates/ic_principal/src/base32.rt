ghost use Rattle.std.specs.Prelude.{◌≡◌, ◌≢◌, ℕ, ◌+◌, ◌*◌, ◌<◌, ◌≤◌, List, [], ◌∷◌, ◌++◌, length, map, IfSome, IfNone, All};
ghost use Rattle.std.specs.List.{flat_map};
ghost use Rattle.arrayvec.specs.ArrayString.{array_string_len};
ghost use Rattle.arrayvec.specs.ArrayVec.{array_vec_len};
ghost use Rattle.ic_principal.specs.Bits.{bits, bits_of};
ghost use Rattle.ic_principal.specs.Base32.{character, fives};
ghost use Rattle.ic_principal.specs.Text.{dashed};

use crate::bit_queue::BitQueue;
use arrayvec::{ArrayString, ArrayVec};

/// Values below 32, each of five bits. As many as a text has characters.
pub type Values = ArrayVec<u8, 63>;

const ALPHABET: &[u8; 32] = b"abcdefghijklmnopqrstuvwxyz234567";

// The place of each byte in the alphabet, or 32 where it has none.
static PLACES: [u8; 256] = [
    32, 32, 32, 32, 32, 32, 32, 32, 32, 32, 32, 32, 32, 32, 32, 32, 32, 32, 32, 32, 32, 32, 32, 32,
    32, 32, 32, 32, 32, 32, 32, 32, 32, 32, 32, 32, 32, 32, 32, 32, 32, 32, 32, 32, 32, 32, 32, 32,
    32, 32, 26, 27, 28, 29, 30, 31, 32, 32, 32, 32, 32, 32, 32, 32, 32, 32, 32, 32, 32, 32, 32, 32,
    32, 32, 32, 32, 32, 32, 32, 32, 32, 32, 32, 32, 32, 32, 32, 32, 32, 32, 32, 32, 32, 32, 32, 32,
    32, 0, 1, 2, 3, 4, 5, 6, 7, 8, 9, 10, 11, 12, 13, 14, 15, 16, 17, 18, 19, 20, 21, 22, 23, 24,
    25, 32, 32, 32, 32, 32, 32, 32, 32, 32, 32, 32, 32, 32, 32, 32, 32, 32, 32, 32, 32, 32, 32, 32,
    32, 32, 32, 32, 32, 32, 32, 32, 32, 32, 32, 32, 32, 32, 32, 32, 32, 32, 32, 32, 32, 32, 32, 32,
    32, 32, 32, 32, 32, 32, 32, 32, 32, 32, 32, 32, 32, 32, 32, 32, 32, 32, 32, 32, 32, 32, 32, 32,
    32, 32, 32, 32, 32, 32, 32, 32, 32, 32, 32, 32, 32, 32, 32, 32, 32, 32, 32, 32, 32, 32, 32, 32,
    32, 32, 32, 32, 32, 32, 32, 32, 32, 32, 32, 32, 32, 32, 32, 32, 32, 32, 32, 32, 32, 32, 32, 32,
    32, 32, 32, 32, 32, 32, 32, 32, 32, 32, 32, 32, 32, 32,
];

/// The values of the bits of `front` and `back`.
pub fn values_of(front: &[u8], back: &[u8]) -> Values
    requires { length front.now + length back.now ≤ 33 }
    ensures value { result.items ≡ fives (bits (front.now ++ back.now)) }
    ensures few { array_vec_len result ≤ 53 }
    ensures values { All (λ v. v < 32) result.items }
{
    let mut values = Values::new();
    let mut queue = BitQueue::new();
    push_bytes(&mut values, &mut queue, front);
    push_bytes(&mut values, &mut queue, back);
    let count = queue.len();
    if count > 0 {
        queue.push(5 - count, 0);
        values.push(queue.pop(5));
    }
    values
}

// Appends the values of the bits that wait in the queue and of the bytes. What makes no whole
// value waits.
fn push_bytes(values: &mut Values, queue: &mut BitQueue, bytes: &[u8])
    requires few { length queue.old < 5 }
    requires room { 5 * array_vec_len values.old + length queue.old + 8 * length bytes.now < 5 * 54 }
    requires values { All (λ v. v < 32) values.old.items }
    ensures bits { flat_map (bits_of 5) values.new.items ++ queue.new
        ≡ flat_map (bits_of 5) values.old.items ++ queue.old ++ bits bytes.now }
    ensures len { 5 * array_vec_len values.new + length queue.new
        ≡ 5 * array_vec_len values.old + length queue.old + 8 * length bytes.now }
    ensures few { length queue.new < 5 }
    ensures values { All (λ v. v < 32) values.new.items }
{
    for byte in bytes {
        queue.push(8, *byte);
        push_value(values, queue);
        if queue.len() >= 5 {
            push_value(values, queue);
        }
    }
}

// Appends the value of the first five bits that wait.
fn push_value(values: &mut Values, queue: &mut BitQueue)
    requires some { 5 ≤ length queue.old }
    requires room { array_vec_len values.old < 63 }
    ensures bits { flat_map (bits_of 5) values.new.items ++ queue.new
        ≡ flat_map (bits_of 5) values.old.items ++ queue.old }
    ensures len { array_vec_len values.new ≡ array_vec_len values.old + 1 }
    ensures rest { length queue.old ≡ 5 + length queue.new }
    ensures values { All (λ v. v < 32) values.old.items → All (λ v. v < 32) values.new.items }
{
    values.push(queue.pop(5));
}

/// The characters of the values, with a dash after each five that others follow.
pub fn spell(values: &[u8]) -> ArrayString<63>
    requires few { length values.now ≤ 53 }
    requires values { All (λ v. v < 32) values.now }
    ensures { result.bytes ≡ dashed (map character values.now) }
{
    let mut text = ArrayString::new();
    for value in values {
        push_letter(&mut text, letter(*value));
    }
    text
}

fn letter(value: u8) -> char
    requires { value < 32 }
    ensures letter { result ≡ character value }
    ensures ascii { result < 128 }
{
    ALPHABET[value as usize] as char
}

// Appends a letter, and a dash before it where one is due.
fn push_letter(text: &mut ArrayString<63>, letter: char)
    requires room { array_string_len text.old ≤ 62 }
    requires ascii { letter < 128 }
    ensures { (letters : List ℕ) → text.old.bytes ≡ dashed letters
        → text.new.bytes ≡ dashed (letters ++ letter ∷ []) }
{
    // A dash is at places 5, 11, 17 and so on.
    if text.len() % 6 == 5 {
        text.push('-');
    }
    text.push(letter);
}

/// The values of a text's letters, where dashes stand as they should: one between five letters and
/// those that follow, and nowhere else.
pub fn values_in(text: &[u8]) -> Option<Values>
    requires { length text.now ≤ 63 }
    ensures some { IfSome result (λ values. All (λ v. v < 32) values.items
        × (text.now ≡ dashed (map character values.items))) }
    ensures none { IfNone result ((values : List ℕ) → All (λ v. v < 32) values
        → text.now ≢ dashed (map character values)) }
{
    let mut values = Values::new();
    let mut place = 0;
    // How many letters were read since the last dash.
    let mut letters = 0u8;
    'letters: while place < text.len() {
        if letters == 5 {
            letters = 0;
            place += 1;
            if text[place - 1] != b'-' || place == text.len() {
                return None;
            }
        }
        match value_of(text[place]) {
            Some(value) => values.push(value),
            None => return None,
        }
        letters += 1;
        place += 1;
    }
    Some(values)
}

// The value of a letter, if it has one.
fn value_of(letter: u8) -> Option<u8>
    ensures some { IfSome result (λ v. (v < 32) × (character v ≡ letter)) }
    ensures none { IfNone result ((v : ℕ) → v < 32 → character v ≢ letter) }
{
    let value = PLACES[letter as usize];
    if value < 32 { Some(value) } else { None }
}

/// The whole bytes that the values spell, and the bits after them, of which there are fewer than 8.
pub fn bytes_of(values: &[u8]) -> (ArrayVec<u8, 39>, BitQueue)
    requires few { length values.now ≤ 63 }
    requires values { All (λ v. v < 32) values.now }
    ensures bits { bits result.0.items ++ result.1 ≡ flat_map (bits_of 5) values.now }
    ensures bytes { All (λ b. b < 256) result.0.items }
    ensures few { length result.1 < 8 }
{
    let mut bytes = ArrayVec::new();
    let mut queue = BitQueue::new();
    for value in values {
        queue.push(5, *value);
        if queue.len() >= 8 {
            bytes.push(queue.pop(8));
        }
    }
    (bytes, queue)
}
