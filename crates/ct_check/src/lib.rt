//! What must hold of a test file of canisters: names are bound once and before they are used, methods
//! are there, files are modules and interfaces, and arguments and answers are values of their types.
//!
//! What holds is answered as a file of its own (`Checked`), in which names are slots, methods have their
//! types, and files are places of a list.
#![tactic(auto)]

mod arguments;
mod cause;
mod checked;
mod checker;
mod file;
mod methods;
mod naming;
mod statement;
mod values;

pub use cause::{CheckCause, CheckError, CheckFault};
pub use checked::{
    Checked, CheckedAction, CheckedChange, CheckedCreation, CheckedInterleave, CheckedKind,
    CheckedMessage, CheckedMove, CheckedOrigin, CheckedOutcome, CheckedOutcomes, CheckedStatement,
    CheckedStatements, CheckedStep, CheckedSteps, CheckedTest, CheckedTests, CheckedUser,
    CheckedUsers, Filled,
};
pub use file::{ANONYMOUS, MANAGEMENT, check};
