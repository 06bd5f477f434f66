//! What tests of canisters print: TAP version 13 (Test Anything Protocol), with a block for each test that
//! failed.
#![tactic(auto)]

mod block;
mod came;
mod delivery;
mod naming;
mod rust_name;
mod said;
mod tap;
mod trace;

pub use block::TestFile;
pub use came::came_text;
pub use delivery::{delivery_text, label_text, push_principal};
pub use said::push_escaped;
pub use tap::{
    Block, Counts, Lines, failed, passed, plan, push_block, push_comments, push_undecided,
};
