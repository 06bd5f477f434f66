ghost use Rattle.std.specs.Prelude.{◌≡◌, IfOk, map, true};
ghost use Rattle.ic_tree.specs.View.{view};
ghost use Rattle.ic_witness.specs.At.{is_ordered};
ghost use Rattle.ic_witness.specs.Needed.{is_among, labels_at, paths_at};
ghost use Rattle.ic_witness.specs.Prune.{cut, is_nil, prune};
ghost use Rattle.ic_witness.specs.Nodes.{flat};
ghost use Rattle.ic_tree.specs.HashTree.{pruned, root_hash};
ghost use Rattle.ic_witness.specs.Whole.{is_whole};

use crate::levels::{Level, is_one_leaf, level_of};
use crate::needs::{has_empty, has_needed, is_among, needed_labels, rests};
use ic_base::NoMemory;
use ic_principal::{Bytes, Path};
use ic_tree::{Tree, fork, labeled, root};
use std::alloc::Global;

/// The tree with all pruned that the paths have no need of: it has the root hash of the whole, and
/// says of each of the paths what the whole says.
pub fn witness<'a>(alloc: Global, tree: &'a Tree, paths: &'a [Path]) -> Result<Tree, NoMemory>
    requires ordered { is_ordered (view tree.now) ≡ true }
    requires whole { is_whole (view tree.now) ≡ true }
    ensures { IfOk result (λ made. view made ≡ prune (view tree.now) paths.now) }
{
    let mut all = Vec::new(alloc);
    for path in paths {
        all.push(path.labels.as_slice())?;
    }
    pruned(alloc, tree, &all)
}

#[cycle(pruning)]
fn pruned<'a>(alloc: Global, tree: &'a Tree, paths: &[&'a [Bytes]]) -> Result<Tree, NoMemory>
    ensures { IfOk result (λ made. view made ≡ prune (view tree.now) (paths_at paths.now)) }
{
    if is_bare(tree) || has_empty(paths) {
        return copy(alloc, tree);
    }
    if paths.is_empty() {
        return Ok(pruned_whole(tree));
    }
    if is_one_leaf(tree) {
        return copy(alloc, tree);
    }
    let needed = needed_labels(alloc, tree, paths)?;
    cut(alloc, tree, &needed, paths)
}

#[cycle(pruning)]
#[tactic(auto, unfolding(crate::specs::Prune::cut, crate::specs::Nodes::flat, ic_tree::specs::View::view))]
fn cut<'a>(
    alloc: Global,
    tree: &'a Tree,
    needed: &[&'a [u8]],
    paths: &[&'a [Bytes]],
) -> Result<Tree, NoMemory>
    ensures { IfOk result (λ made. view made ≡ cut (view tree.now) (is_among (labels_at needed.now)) (paths_at paths.now)) }
{
    match tree {
        Tree::Empty => Ok(Tree::Empty),
        Tree::Fork(left, right) => {
            if !is_bare(tree) && !has_needed(tree, needed) {
                return Ok(pruned_whole(tree));
            }
            let left = cut(alloc, left, needed, paths)?;
            let right = cut(alloc, right, needed, paths)?;
            fork(alloc, left, right)
        }
        Tree::Labeled(label, part) => {
            if !is_among(needed, &label.items) {
                return Ok(pruned_whole(tree));
            }
            let rests = rests(alloc, &label.items, paths)?;
            let part = pruned(alloc, part, &rests)?;
            labeled(alloc, &label.items, part)
        }
        Tree::Leaf(_) => Ok(pruned_whole(tree)),
        Tree::Pruned(hash) => Ok(Tree::Pruned(*hash)),
    }
}

#[tactic(auto, unfolding(ic_tree::specs::View::view))]
fn pruned_whole(tree: &Tree) -> Tree
    ensures { view result ≡ pruned (root_hash (view tree.now)) }
{
    Tree::Pruned(root(tree))
}

// Whether no node is under the forks.
fn is_bare(tree: &Tree) -> bool
    ensures { result ≡ is_nil (flat (view tree.now)) }
{
    match level_of(tree) {
        Level::Nothing => true,
        Level::OneLeaf => false,
        Level::Nodes => false,
    }
}

#[tactic(auto, unfolding(ic_tree::specs::View::view))]
fn copy(alloc: Global, tree: &Tree) -> Result<Tree, NoMemory>
    ensures { IfOk result (λ made. view made ≡ view tree.now) }
{
    match tree {
        Tree::Empty => Ok(Tree::Empty),
        Tree::Fork(left, right) => {
            let left = copy(alloc, left)?;
            let right = copy(alloc, right)?;
            fork(alloc, left, right)
        }
        Tree::Labeled(label, part) => {
            let part = copy(alloc, part)?;
            labeled(alloc, &label.items, part)
        }
        Tree::Leaf(bytes) => Ok(Tree::Leaf(bytes.copy()?)),
        Tree::Pruned(hash) => Ok(Tree::Pruned(*hash)),
    }
}
