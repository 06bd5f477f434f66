ghost use Rattle.std.specs.Prelude.{◌≡◌, nat_le};
ghost use Rattle.ic_tree.specs.View.{view};
ghost use Rattle.ic_witness.specs.Cbor.{depth};
ghost use Rattle.ic_witness.specs.Whole.{is_whole};

use ic_tree::Tree;

/// Whether no node of the tree is pruned. It takes no memory.
#[tactic(auto, unfolding(crate::specs::Whole::is_whole, ic_tree::specs::View::view))]
pub fn whole(tree: &Tree) -> bool
    ensures { result ≡ is_whole (view tree.now) }
{
    match tree {
        Tree::Empty => true,
        Tree::Fork(left, right) => whole(left) && whole(right),
        Tree::Labeled(_, part) => whole(part),
        Tree::Leaf(_) => true,
        Tree::Pruned(_) => false,
    }
}

/// Whether the tree nests at most so deep. It takes no memory, and calls itself at most so deep.
#[tactic(auto, unfolding(crate::specs::Cbor::depth, ic_tree::specs::View::view))]
pub fn nests_at_most(tree: &Tree, most: u32) -> bool
    ensures { result ≡ nat_le (depth (view tree.now)) most }
{
    if most == 0 {
        return false;
    }
    match tree {
        Tree::Empty => true,
        Tree::Fork(left, right) => nests_at_most(left, most - 1) && nests_at_most(right, most - 1),
        Tree::Labeled(_, part) => nests_at_most(part, most - 1),
        Tree::Leaf(_) => true,
        Tree::Pruned(_) => true,
    }
}
