ghost use Rattle.std.specs.Prelude.{◌≡◌, ◌^◌, true, Some};
ghost use Rattle.std.specs.List.{list_all};
ghost use Rattle.ic_base.specs.Gives.{Gives};
ghost use Rattle.cd_tokens.specs.Bytes.{is_digit, is_word_byte};
ghost use Rattle.cd_tokens.specs.Label.{is_name, is_plain_number};
ghost use Rattle.cd_tokens.specs.ReadLabel.{utf8_of, text_of, name_of, run_label, label_of};
ghost use Rattle.cd_tokens.specs.ReadNumeral.{numeral_of, below};
ghost use Rattle.cd_tokens.specs.View.{token_view};

use crate::bytes::{is_digit, is_word_byte};
use crate::number::numeral_of;
use crate::string::unescaped_of;
use crate::token::Token;
use cd_types::field_id_of_bytes;
use ic_base::ReadError;
use ic_principal::Text;
use std::alloc::Global;

// The text of bytes that are UTF-8.
fn utf8_of(bytes: Vec<u8>) -> Option<Text>
    ensures { result ≡ utf8_of bytes.items }
{
    match String::from_utf8(bytes) {
        Ok(items) => {
            let _utf8 = items.as_str();
            Some(Text { items })
        }
        Err(_) => None,
    }
}

/// The text that a string says, of what is between its quotes. `Refused`: it says no text.
#[tactic(auto, unfolding(crate::specs::ReadLabel::text_of))]
pub fn text_of(alloc: Global, written: &[u8]) -> Result<Text, ReadError>
    ensures { Gives (λ text. text) result (text_of written.now) }
{
    utf8_of(unescaped_of(alloc, written)?).ok_or(ReadError::Refused)
}

fn are_word_bytes(bytes: &[u8]) -> bool
    ensures { result ≡ list_all is_word_byte bytes.now }
{
    bytes.iter().all(|byte| is_word_byte(*byte))
}

fn are_digits(bytes: &[u8]) -> bool
    ensures { result ≡ list_all is_digit bytes.now }
{
    bytes.iter().all(|byte| is_digit(*byte))
}

/// Whether the bytes are letters, digits and `_`, and do not begin with a digit.
pub fn is_name(bytes: &[u8]) -> bool
    ensures { result ≡ is_name bytes.now }
{
    match bytes {
        [] => false,
        [first, rest @ ..] => is_word_byte(*first) && !is_digit(*first) && are_word_bytes(rest),
    }
}

fn is_plain_number(bytes: &[u8]) -> bool
    ensures { result ≡ is_plain_number bytes.now }
{
    match bytes {
        [] => false,
        [digit] => is_digit(*digit),
        [first, rest @ ..] => is_digit(*first) && *first != b'0' && are_digits(rest),
    }
}

fn utf8_name(alloc: Global, name: &[u8]) -> Result<Text, ReadError>
    requires { is_name name.now ≡ true }
    ensures { Gives (λ text. text) result (Some name.now) }
{
    match str::from_utf8(name) {
        Ok(name) => Ok(Text {
            items: String::from_str(alloc, name)?,
        }),
        Err(_) => unreachable!(),
    }
}

/// The name that a token is: a name, or what a string says. `Refused`: it is none.
#[tactic(auto, unfolding(crate::specs::ReadLabel::name_of))]
pub fn name_of(alloc: Global, token: &Token<'_>) -> Result<Text, ReadError>
    ensures { Gives (λ name. name) result (name_of (token_view token.now)) }
{
    match token {
        Token::Run(name) => {
            if is_name(name.bytes) {
                utf8_name(alloc, name.bytes)
            } else {
                Err(ReadError::Refused)
            }
        }
        Token::Quoted(string) => text_of(alloc, string.bytes),
        Token::Mark(_) | Token::Arrow => Err(ReadError::Refused),
    }
}

fn small_number(bytes: &[u8]) -> Option<u32>
    ensures { result ≡ below (2 ^ 32) (numeral_of bytes.now) }
{
    match numeral_of(bytes) {
        None => None,
        Some(number) => {
            if number < 1 << 32 {
                Some(number as u32)
            } else {
                None
            }
        }
    }
}

// The id of a label that is no string.
fn run_label(run: &[u8]) -> Option<u32>
    ensures { result ≡ run_label run.now }
{
    if is_plain_number(run) {
        small_number(run)
    } else if is_name(run) {
        Some(field_id_of_bytes(run))
    } else {
        None
    }
}

/// The id of a label: a decimal number below 2^32 without leading zeros, a name, or a string
/// (Candid specification, "Shorthand: Symbolic Field Ids"). `Refused`: the token is no label.
#[tactic(auto, unfolding(crate::specs::ReadLabel::label_of))]
pub fn label_of(alloc: Global, token: &Token<'_>) -> Result<u32, ReadError>
    ensures { Gives (λ id. id) result (label_of (token_view token.now)) }
{
    match token {
        Token::Run(run) => run_label(run.bytes).ok_or(ReadError::Refused),
        Token::Quoted(string) => {
            let name = text_of(alloc, string.bytes)?;
            Ok(field_id_of_bytes(name.items.as_bytes()))
        }
        Token::Mark(_) | Token::Arrow => Err(ReadError::Refused),
    }
}
