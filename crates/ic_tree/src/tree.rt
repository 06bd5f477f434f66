ghost use Rattle.std.specs.Prelude.{◌≡◌, IfOk, map};
ghost use Rattle.ic_tree.specs.HashTree.{fork, forked, labeled, leaf_at};
ghost use Rattle.ic_tree.specs.View.{view};

use ic_base::NoMemory;
use ic_principal::Bytes;
use std::alloc::Global;

/// A hash tree (IC Interface Specification, "Certificate").
#[derive(Debug, Drop)]
pub enum Tree {
    Empty,
    Fork(Box<Tree>, Box<Tree>),
    /// What is under a label.
    Labeled(Bytes, Box<Tree>),
    Leaf(Bytes),
    /// Stands for a tree with this root hash.
    Pruned([u8; 32]),
}

/// A fork of two trees.
#[tactic(auto, unfolding(crate::specs::View::view))]
pub fn fork(alloc: Global, left: Tree, right: Tree) -> Result<Tree, NoMemory>
    ensures { IfOk result (λ tree. view tree ≡ fork (view left) (view right)) }
{
    let left = Box::new(alloc, left)?;
    let right = Box::new(alloc, right)?;
    Ok(Tree::Fork(left, right))
}

/// A tree under a label.
#[tactic(auto, unfolding(crate::specs::View::view))]
pub fn labeled(alloc: Global, label: &[u8], part: Tree) -> Result<Tree, NoMemory>
    ensures { IfOk result (λ tree. view tree ≡ labeled label.now (view part)) }
{
    let mut items = Vec::new(alloc);
    items.extend_from_slice(label)?;
    let part = Box::new(alloc, part)?;
    Ok(Tree::Labeled(Bytes { items }, part))
}

/// A leaf under a label.
#[tactic(auto, unfolding(crate::specs::View::view))]
pub fn leaf_at(alloc: Global, label: &[u8], bytes: &[u8]) -> Result<Tree, NoMemory>
    ensures { IfOk result (λ tree. view tree ≡ leaf_at label.now bytes.now) }
{
    let mut items = Vec::new(alloc);
    items.extend_from_slice(bytes)?;
    labeled(alloc, label, Tree::Leaf(Bytes { items }))
}

/// The trees under forks, each of which has the first half of its trees on the left.
pub fn forked(alloc: Global, trees: Vec<Tree>) -> Result<Tree, NoMemory>
    ensures { IfOk result (λ tree. view tree ≡ forked (map view trees.items)) }
{
    let mut trees = trees;
    let count = trees.len();
    if count > 1 {
        let right = trees.split_off(count - count / 2)?;
        let left = forked(alloc, trees)?;
        let right = forked(alloc, right)?;
        return fork(alloc, left, right);
    }
    match trees.pop() {
        Some(tree) => Ok(tree),
        None => Ok(Tree::Empty),
    }
}
