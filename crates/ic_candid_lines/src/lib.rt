//! The lines of a script that are about Candid alone: what they print.
//!
//! Each is a function of the line's words, whatever the state is: `specs/Decoding.antt` of messages
//! that are read at expected types, `specs/Encoding.antt` of texts of values, `specs/Upgrading.antt`
//! of interface files. What that means by the grammars and the relations of Candid, `laws` says.
#![tactic(auto)]

mod decoding;
mod encoding;
pub mod laws;
mod upgrading;

pub use decoding::{decode_text, show_text};
pub use encoding::encode_text;
pub use upgrading::{Lack, upgrade_text};
