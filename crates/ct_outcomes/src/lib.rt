//! What comes of a statement of a test, and whether it meets the outcomes that are expected: what names
//! stand for, arguments with these in their place, and answers.
#![tactic(auto)]

mod at;
mod came;
mod filling;
pub mod laws;
mod meeting;
mod message;
mod named;
mod standing;

pub use at::At;
pub use came::Came;
pub use filling::argument_of;
pub use meeting::met;
pub use named::{Named, name_at, name_of, standing_at};
pub use standing::Standing;
