//! The part of a type table that some types need, for messages that carry no other entries.
//!
//! `specs/Meets` says in which order the entries of a table are met from some types, and
//! `specs/IsPart` which table and types the part is: the entries that are met and no others,
//! numbered as they are met.
#![tactic(auto)]

pub mod laws;
mod meeting;
mod part;
mod parts;
mod renaming;

pub use part::part_of;
