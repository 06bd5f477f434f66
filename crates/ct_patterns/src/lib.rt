//! Patterns of test files: what a reply must be, where a value may be any (`_`), may be bound to a name
//! (`let NAME`), and may have any other fields (`..`).
//!
//! A pattern is a list of steps, in the order of its text: each says what the next value must be, and
//! the parts of that value are next. `specs/Meets` says when values meet one, and what is bound.
#![tactic(auto)]

pub mod laws;
mod layer;
mod meeting;
mod opening;
mod step;

pub use meeting::meet;
pub use step::{Binding, Bindings, Part, Places, Step};
