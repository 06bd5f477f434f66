//! The cases of a test, and where a statement and an interleave lead them.
//!
//! A case is a state, what names stand for in it, and the deliveries that led there. A statement takes each case to one; an
//! interleave takes them to those after all orders of its messages, which `ct_search` looks for.
#![tactic(auto)]

mod case;
mod failing;
mod interleaving;
mod judging;
mod meanings;
mod orders;
mod statement;
mod submitting;
mod tester;

pub use case::{Case, Tables};
pub use failing::Failing;
pub use interleaving::Interleaved;
pub use meanings::copied_names;
pub use orders::longer;
pub use statement::Going;
pub use submitting::{Submitted, is_query};
pub use tester::Tester;
