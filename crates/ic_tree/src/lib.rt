//! The hash tree of a state, its root hash, and the ids of requests (IC Interface Specification,
//! "The system state tree", "Certificate" and "Request ids").
//!
//! Contracts see a `Tree` as the `HashTree` that it is (`specs/View`). What a node is hashed from is
//! fed to the hasher in pieces, and no piece is copied for it.
#![tactic(auto)]

mod fields;
mod hashes;
mod state;
mod tree;

pub use fields::{Field, request_id};
pub use hashes::root;
pub use state::{state_root, state_tree, tree_of_parts};
pub use tree::{Tree, fork, forked, labeled, leaf_at};
