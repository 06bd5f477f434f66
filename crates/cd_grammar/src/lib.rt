//! The grammar of Candid's interface files (Candid specification, "Core Grammar": types, services
//! and files): what a file says, as it is written.
//!
//! `specs/Grammar` says which tokens are which file. A file is read exactly: a text is one file at
//! most, and what is read is what is there. Whether the file makes sense is not asked here.
#![tactic(auto)]

mod file;
mod front;
pub mod laws;
mod reading;
mod word;
mod written;

pub use file::file_of;
pub use front::{first_word, is_any_word, is_argument_name, name_of, starts_arrow};
pub use word::Word;
pub use written::{File, Main, Part, Parts, Written, WrittenFields, WrittenMethods};
