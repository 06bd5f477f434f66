ghost use Rattle.std.specs.Prelude.{◌≡◌, ◌≢◌, false, [], ◌∷◌, length, map, IfOk, IfSome, IfNone, IsTrue, option_copied, string_bytes};
ghost use Rattle.std.specs.List.{list_all};
ghost use Rattle.std.specs.Char.{is_ascii_digit};
ghost use Rattle.ic_script.specs.HexWord.{hex_word};
ghost use Rattle.ic_script.specs.Words.{words_of, is_well_formed, is_numeral, may_follow, has_leading_zero, words_left};

use ic_base::NoMemory;
use std::alloc::Global;

/// The line as text, where it is well formed.
#[tactic(auto, unfolding(crate::specs::Words::is_well_formed), using(crate::proofs::Text::not_text))]
pub fn well_formed(line: &[u8]) -> Option<&str>
    ensures some { IfSome result (λ text. (text.now ≡ line.now) × IsTrue (is_well_formed line.now)) }
    ensures none { IfNone result (is_well_formed line.now ≡ false) }
{
    let text = str::from_utf8(line).ok()?;
    if is_well_formed(line) {
        Some(text)
    } else {
        None
    }
}

// In one pass. A space at the front has no word before it, as if a space came before the line.
fn is_well_formed(line: &[u8]) -> bool
    ensures { result ≡ is_well_formed line.now }
{
    let mut last = b' ';
    for byte in line {
        if !may_follow(last, *byte) {
            return false;
        }
        last = *byte;
    }
    last != b' '
}

// Whether a byte may come after another.
fn may_follow(last: u8, byte: u8) -> bool
    ensures { result ≡ may_follow last byte }
{
    byte >= b' ' && byte <= b'~' && (byte != b' ' || last != b' ')
}

/// The first word of a text, and the text of the words after it.
#[tactic(auto, unfolding(crate::specs::Words::words_of))]
pub fn first_word(text: &str) -> (&str, Option<&str>)
    ensures { words_of text.now ≡ result.0.now ∷ words_left (option_copied result.1) }
{
    match text.split_once(' ') {
        Some((word, rest)) => (word, Some(rest)),
        None => (text, None),
    }
}

/// The words of a text, where they are four.
pub fn four_words(text: Option<&str>) -> Option<(&str, &str, &str, &str)>
    ensures some { IfSome result (λ w. words_left (option_copied text.entry) ≡ w.0.now ∷ w.1.now ∷ w.2.now ∷ w.3.now ∷ []) }
    ensures none { IfNone result (length (words_left (option_copied text.entry)) ≢ 4) }
{
    let (first, rest) = first_word(text?);
    let (second, rest) = first_word(rest?);
    let (third, rest) = first_word(rest?);
    let (fourth, rest) = first_word(rest?);
    match rest {
        None => Some((first, second, third, fourth)),
        Some(_) => None,
    }
}

/// The word of a text, where it is one.
pub fn one_word(text: Option<&str>) -> Option<&str>
    ensures some { IfSome result (λ w. words_left (option_copied text.entry) ≡ w.now ∷ []) }
    ensures none { IfNone result (length (words_left (option_copied text.entry)) ≢ 1) }
{
    let (first, rest) = first_word(text?);
    match rest {
        None => Some(first),
        Some(_) => None,
    }
}

/// Whether a word is a number in decimal digits, without a sign and without a leading zero.
#[tactic(auto, unfolding(crate::specs::Words::is_numeral))]
pub fn is_numeral(word: &str) -> bool
    ensures { result ≡ is_numeral word.now }
{
    !word.is_empty() && all_digits(word) && !has_leading_zero(word.as_bytes())
}

fn all_digits(word: &str) -> bool
    ensures { result ≡ list_all is_ascii_digit word.now }
{
    word.as_bytes().iter().all(|byte| byte.is_ascii_digit())
}

fn has_leading_zero(word: &[u8]) -> bool
    ensures { result ≡ has_leading_zero word.now }
{
    match word {
        [first, _, ..] => *first == b'0',
        _ => false,
    }
}

/// The words of a text, where they are two.
pub fn two_words(text: Option<&str>) -> Option<(&str, &str)>
    ensures some { IfSome result (λ w. words_left (option_copied text.entry) ≡ w.0.now ∷ w.1.now ∷ []) }
    ensures none { IfNone result (length (words_left (option_copied text.entry)) ≢ 2) }
{
    let (first, rest) = first_word(text?);
    let (second, rest) = first_word(rest?);
    match rest {
        None => Some((first, second)),
        Some(_) => None,
    }
}

/// The word that spells bytes.
pub fn hex_word(alloc: Global, bytes: &[u8]) -> Result<String, NoMemory>
    ensures { IfOk result (λ word. string_bytes word ≡ hex_word bytes.now) }
{
    match bytes {
        [] => String::from_str(alloc, "-"),
        [_, ..] => hex::encode(alloc, bytes),
    }
}
