//! The text of a test file of canisters: the file that it is, as a tree, or where it is faulty and
//! why.
//!
//! `specs/Grammar` says which tokens are which file, and `specs/Fits` what its names, texts, numbers
//! and arguments may be. A file is read exactly: a text is one file at most, and what is read is what
//! is there. Whether the file makes sense is not asked here.
#![tactic(auto)]

mod cause;
mod file;
mod keyword;
pub mod laws;
mod leaf;
mod outcome;
mod position;
mod reader;
mod statement;
mod tokens;
mod tree;

pub use cause::{Cause, Fault, FileError, Wanted};
pub use file::read;
pub use keyword::Keyword;
pub use leaf::{Arguments, Installed, Name, Number, Quoted, Span};
pub use position::{Position, position_of};
pub use tree::{
    Action, Change, Creation, Expected, File, Interleave, Message, Method, Move, Origin, Outcome,
    Statement, StatementKind, Statements, Step, Steps, Test, Tests, User, Users,
};
