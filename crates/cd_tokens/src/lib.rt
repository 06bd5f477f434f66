//! The tokens of Candid's textual formats, of values and of interface files (Candid specification,
//! "Core Grammar"): words, numbers, strings, labels and marks.
//!
//! `specs/Lexed` says which tokens are in a text, `specs/Numeral`, `specs/Unescaped` and
//! `specs/Label` what a token says. Each is read exactly: a text has one list of tokens at most, and
//! what is read is what is there.
#![tactic(auto)]

mod bytes;
mod front;
mod gap;
mod label;
pub mod laws;
mod number;
mod piece;
mod placed;
mod string;
mod token;

pub use front::{is_mark, is_word, rest_of, starts_mark, starts_word};
pub use label::{is_name, label_of, name_of, text_of};
pub use number::{integer_of, natural_of, numeral_of, says_integer};
pub use piece::Piece;
pub use placed::{PlacedToken, PlacedTokens, placed_tokens_of};
pub use string::{says_bytes, unescaped_of};
pub use token::{Token, tokens_of};
