//! What the host prints: texts for calls, queries and rounds, and the lines of a state.
//!
//! Each is the text that `specs/Texts.antt` says, of numbers, responses and states. The line of a state
//! (`specs/StateLine.antt`) is compact JSON, with each object's keys in the order of their bytes. Cycles, the time and
//! globals are decimal texts, since they may be too large for a number of JSON. Bytes are two lower hexadecimal digits
//! each, and the empty text where there is none; hashes are SHA-256 (FIPS 180-4) of a whole memory, which is lent to the
//! hasher.
#![tactic(auto)]

mod members;
mod states;
mod texts;
mod values;

pub use states::{
    closing, line_of_parts, state_line, summary, witness_line, witness_line_of_parts,
};
pub use texts::{
    accepted_text, answer_text, bad_text, call_refused_text, pick_text, query_text, ran_text,
};
