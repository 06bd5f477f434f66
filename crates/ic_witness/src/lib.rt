//! Witnesses: hash trees without what some paths have no need of, which prove the rest of themselves
//! to who has the root hash (IC Interface Specification, "Certificate" and "Lookup").
//!
//! A witness is made (`witness`), written and read as the certificates of the Internet Computer are
//! (`write`, `read`), and searched (`look_up`). The laws say that it has the root hash of the whole
//! tree and says what that says of each of the paths.
#![tactic(auto)]

mod fault;
mod finding;
mod laws;
mod levels;
mod needs;
mod pruning;
mod reading;
mod stands;
mod state;
mod writing;

pub use fault::TreeFault;
pub use finding::{Found, look_up};
pub use ic_principal::Path;
pub use laws::{
    no_front, one_tree, pruned_at, pruned_depth, pruned_ordered, pruned_root, read_back, state_at,
    state_says, state_stands, trees_read,
};
pub use levels::ordered;
pub use pruning::witness;
pub use reading::read;
pub use stands::{nests_at_most, whole};
pub use state::{state_witness, witness_of_parts};
pub use writing::write;
