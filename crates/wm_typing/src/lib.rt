//! Validation of WebAssembly bodies (Core 1.0, 3.3).
//!
//! Which bodies have a typing is defined by their nested blocks (`specs/Typed`). The code goes once
//! over the flat words, with one stack of operands and one of control frames as in the standard's
//! appendix, and lays beside them what a machine runs by: an operation for each word, where each
//! branch leads, and how many operands there ever are (`specs/Runs`).
#![tactic(auto)]

mod body;
mod checker;
mod context;
mod fault;
mod flat;
mod hints;
mod locals;
mod nesting;
mod number;
mod op;
mod operand;
mod rules;
mod stops;
mod table;

pub use body::validate_body;
pub use context::Context;
pub use fault::BodyFault;
pub use flat::{Branch, FlatCode, Frame};
pub use locals::Locals;
pub use nesting::nests_within;
pub use op::Op;
pub use operand::Operand;
