ghost use Rattle.std.specs.Prelude.{◌≡◌, ◌++◌};
ghost use Rattle.sha2.specs.Sha256.{sha256};
ghost use Rattle.ic_tree.specs.HashTree.{empty_hash, fork_hash, labeled_hash, leaf_hash, root_hash};
ghost use Rattle.ic_tree.specs.View.{view};

use crate::tree::Tree;
use sha2::{Digest, Sha256};

/// The root hash. It takes no memory, and recurses as deep as the tree.
#[tactic(auto, unfolding(crate::specs::HashTree::root_hash, crate::specs::View::view))]
pub fn root(tree: &Tree) -> [u8; 32]
    ensures { result ≡ root_hash (view tree.now) }
{
    match tree {
        Tree::Empty => empty_hash(),
        Tree::Fork(left, right) => fork_hash(&root(left), &root(right)),
        Tree::Labeled(label, part) => labeled_hash(&label.items, &root(part)),
        Tree::Leaf(bytes) => leaf_hash(&bytes.items),
        Tree::Pruned(hash) => *hash,
    }
}

fn empty_hash() -> [u8; 32]
    ensures { result ≡ empty_hash }
{
    Sha256::digest(b"\x11ic-hashtree-empty".as_slice())
}

fn fork_hash(left: &[u8; 32], right: &[u8; 32]) -> [u8; 32]
    ensures { result ≡ fork_hash left.now right.now }
{
    hash_of(
        b"\x10ic-hashtree-fork".as_slice(),
        left.as_slice(),
        right.as_slice(),
    )
}

fn labeled_hash(label: &[u8], part: &[u8; 32]) -> [u8; 32]
    ensures { result ≡ labeled_hash label.now part.now }
{
    hash_of(
        b"\x13ic-hashtree-labeled".as_slice(),
        label,
        part.as_slice(),
    )
}

// The hash of three pieces as one message.
fn hash_of(domain: &[u8], first: &[u8], second: &[u8]) -> [u8; 32]
    ensures { result ≡ sha256 ((domain.now ++ first.now) ++ second.now) }
{
    let mut hasher = Sha256::new();
    hasher.update(domain);
    hasher.update(first);
    hasher.update(second);
    hasher.finalize()
}

fn leaf_hash(bytes: &[u8]) -> [u8; 32]
    ensures { result ≡ leaf_hash bytes.now }
{
    let mut hasher = Sha256::new();
    hasher.update(b"\x10ic-hashtree-leaf".as_slice());
    hasher.update(bytes);
    hasher.finalize()
}
