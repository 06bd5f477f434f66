//! Subtyping of Candid types (Candid specification, "Subtyping"): whether a type of one table is a
//! subtype of a type of another. The answer is true exactly where the greatest relation with the
//! specification's rules holds. A search follows the pairs of entries that a question rests on, with
//! a mark for each pair; it does not recurse.
#![tactic(auto)]

mod labels;
pub mod laws;
mod part_free;
mod parts;
mod search;
mod subtyping;

pub use part_free::{is_top, may_miss};
pub use subtyping::{Subtyping, subtype};
