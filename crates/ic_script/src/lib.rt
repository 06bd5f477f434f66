//! The lines of a script: each line of text is a command, or has a cause for which it is refused.
//!
//! `parse_line` answers exactly what `specs/Line.antt` says of a line: the command that it spells,
//! or the first cause in the order of that definition. Principals are read in their textual
//! representation (IC Interface Specification, "Textual representation of principals"), bytes in
//! hexadecimal.
#![tactic(auto)]

mod command;
mod line_cause;
mod parse;
mod paths;
mod words;

pub use command::{Ask, Command, Paths};
pub use line_cause::{LineCause, LineError};
pub use parse::parse_line;
pub use words::hex_word;
