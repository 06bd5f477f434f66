ghost use Rattle.std.specs.Prelude.{◌≡◌, ◌&&◌, MatchOption, None, Some};
ghost use Rattle.std.specs.List.{list_all};
ghost use Rattle.ic_tree.specs.View.{view};
ghost use Rattle.ic_witness.specs.At.{is_level, is_ordered, is_ordered_below, rise};
ghost use Rattle.ic_witness.specs.Nodes.{flat, has_label_or_hash, is_one_leaf, labels};
ghost use Rattle.ic_witness.specs.Walks.{comes_after, joined, level_of, now_of, rise_after};

use ic_tree::Tree;

/// What nodes are under the forks of a tree.
#[derive(Clone, Copy, Debug, PartialEq, Eq)]
pub(crate) enum Level {
    Nothing,
    OneLeaf,
    Nodes,
}

/// Whether at the tree and at each part below there is one leaf, or there are labels that strictly
/// rise, and pruned nodes. It takes no memory.
#[cycle(order)]
pub fn ordered(tree: &Tree) -> bool
    ensures { result ≡ is_ordered (view tree.now) }
{
    is_level(tree) && ordered_below(tree)
}

#[cycle(order)]
#[tactic(auto, unfolding(crate::specs::At::is_ordered_below, ic_tree::specs::View::view))]
fn ordered_below(tree: &Tree) -> bool
    ensures { result ≡ is_ordered_below (view tree.now) }
{
    match tree {
        Tree::Empty => true,
        Tree::Fork(left, right) => ordered_below(left) && ordered_below(right),
        Tree::Labeled(_, part) => ordered(part),
        Tree::Leaf(_) => true,
        Tree::Pruned(_) => true,
    }
}

fn is_level(tree: &Tree) -> bool
    ensures { result ≡ is_level (flat (view tree.now)) }
{
    is_one_leaf(tree) || rises(tree)
}

pub(crate) fn is_one_leaf(tree: &Tree) -> bool
    ensures { result ≡ is_one_leaf (flat (view tree.now)) }
{
    match level_of(tree) {
        Level::Nothing => false,
        Level::OneLeaf => true,
        Level::Nodes => false,
    }
}

#[tactic(auto, using(crate::proofs::Scans::level_of_append), unfolding(crate::specs::Nodes::flat, ic_tree::specs::View::view))]
pub(crate) fn level_of(tree: &Tree) -> Level
    ensures { result ≡ level_of (flat (view tree.now)) }
{
    match tree {
        Tree::Empty => Level::Nothing,
        Tree::Fork(left, right) => joined(level_of(left), level_of(right)),
        Tree::Labeled(_, _) => Level::Nodes,
        Tree::Leaf(_) => Level::OneLeaf,
        Tree::Pruned(_) => Level::Nodes,
    }
}

fn joined(left: Level, right: Level) -> Level
    ensures { result ≡ joined left right }
{
    match (left, right) {
        (Level::Nothing, other) => other,
        (Level::OneLeaf, Level::Nothing) => Level::OneLeaf,
        (Level::OneLeaf, Level::OneLeaf) => Level::Nodes,
        (Level::OneLeaf, Level::Nodes) => Level::Nodes,
        (Level::Nodes, _) => Level::Nodes,
    }
}

fn rises(tree: &Tree) -> bool
    ensures { result ≡ (list_all has_label_or_hash (flat (view tree.now)) && rise (labels (flat (view tree.now)))) }
{
    match rise_after(None, tree) {
        Some(_) => true,
        None => false,
    }
}

// The last label, where the labels rise from the given one on.
#[tactic(auto, using(crate::proofs::Scans::rise_after_append), unfolding(crate::specs::Nodes::flat, crate::specs::Walks::rise_after, ic_tree::specs::View::view))]
fn rise_after<'a>(last: Option<&'a [u8]>, tree: &'a Tree) -> Option<Option<&'a [u8]>>
    ensures { MatchOption result (rise_after (now_of last.entry) (flat (view tree.now)) ≡ None) (λ found. rise_after (now_of last.entry) (flat (view tree.now)) ≡ Some (now_of found)) }
{
    match tree {
        Tree::Empty => Some(last),
        Tree::Fork(left, right) => match rise_after(last, left) {
            Some(last) => rise_after(last, right),
            None => None,
        },
        Tree::Labeled(label, _) => {
            let label = label.items.as_slice();
            if comes_after(last, label) {
                Some(Some(label))
            } else {
                None
            }
        }
        Tree::Leaf(_) => None,
        Tree::Pruned(_) => Some(last),
    }
}

fn comes_after(last: Option<&[u8]>, label: &[u8]) -> bool
    ensures { result ≡ comes_after (now_of last.entry) label.now }
{
    match last {
        Some(last) => last.cmp(label).is_lt(),
        None => true,
    }
}
