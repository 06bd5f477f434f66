//! Names in the arguments of test files, and in what a reply must be: which words are uses of a
//! name, and what is read in their place.
//!
//! A name stands for tokens, as `principal "2vxsx-fae"` or `record { 1 = 5 }`. Arguments are read as
//! Candid text once each use is exchanged for them. A label, a case, a method and a type are no
//! uses, and neither is the name that `let` binds. Which names methods and tests may have is here too.
//!
//! No type is known here, so a word where no value of the type goes on, as in `(5 owner)`, is a use as
//! well. Who tells faults tells the first of the tokens, be it a name that is not bound or a token
//! where no value goes on.
#![tactic(auto)]

mod exchanging;
pub mod laws;
mod meaning;
mod printed;
mod role;
mod word;

pub use exchanging::exchange;
pub use meaning::Meaning;
pub use printed::{is_script_word, is_test_name};
pub use role::{Role, roles_of};
pub use word::{is_candid_word, is_free_name};
