ghost use Rattle.std.specs.Prelude.{◌≡◌, MatchOption, None, Some, true};
ghost use Rattle.ic_tree.specs.View.{view};
ghost use Rattle.ic_witness.specs.At.{at, at_end, is_hidden, is_ordered, part_under};
ghost use Rattle.ic_witness.specs.Nodes.{flat};
ghost use Rattle.ic_witness.specs.Walks.{answer, closed, gap_at, gap_through, hidden};

use ic_principal::{Bytes, Path};
use ic_tree::Tree;

/// What a tree says of a path.
#[derive(Clone, Copy, Debug)]
pub enum Found<'a> {
    /// The bytes of a leaf.
    Value(&'a [u8]),
    /// A node that is no leaf.
    Inner,
    /// There is nothing.
    Absent,
    /// The pruned part may have it.
    Unknown,
}

/// What is known of the gap of a label.
#[derive(Clone, Copy, Debug, PartialEq, Eq)]
pub(crate) enum Gap {
    /// No node is in it yet.
    Open,
    /// A pruned node is in it.
    Hidden,
    /// It has ended, and no pruned node is in it.
    Closed,
}

/// What the tree says of the path. It takes no memory.
pub fn look_up<'a>(tree: &'a Tree, path: &Path) -> Found<'a>
    requires ordered { is_ordered (view tree.now) ≡ true }
    ensures { answer result ≡ at (view tree.now) path.now }
{
    find(tree, &path.labels)
}

#[tactic(auto, using(crate::proofs::Scans::at_there, crate::proofs::Scans::at_missing), unfolding(crate::specs::At::at))]
fn find<'a>(tree: &'a Tree, path: &[Bytes]) -> Found<'a>
    ensures { answer result ≡ at (view tree.now) path.now }
{
    match path {
        [] => at_end(tree),
        [label, rest @ ..] => match part_under(tree, &label.items) {
            Some(part) => find(part, rest),
            None => {
                if is_hidden(tree, &label.items) {
                    Found::Unknown
                } else {
                    Found::Absent
                }
            }
        },
    }
}

#[tactic(auto, unfolding(ic_tree::specs::View::view))]
fn at_end(tree: &Tree) -> Found
    ensures { answer result ≡ at_end (view tree.now) }
{
    match tree {
        Tree::Empty => Found::Absent,
        Tree::Fork(_, _) => Found::Inner,
        Tree::Labeled(_, _) => Found::Inner,
        Tree::Leaf(bytes) => Found::Value(bytes.items.as_slice()),
        Tree::Pruned(_) => Found::Unknown,
    }
}

#[tactic(auto, using(crate::proofs::Cuts::under_append), unfolding(crate::specs::Nodes::flat, crate::specs::At::part_under, ic_tree::specs::View::view))]
fn part_under<'a>(tree: &'a Tree, label: &[u8]) -> Option<&'a Tree>
    ensures { MatchOption result (part_under label.now (flat (view tree.now)) ≡ None) (λ part. part_under label.now (flat (view tree.now)) ≡ Some (view part.now)) }
{
    match tree {
        Tree::Empty => None,
        Tree::Fork(left, right) => match part_under(left, label) {
            Some(part) => Some(part),
            None => part_under(right, label),
        },
        Tree::Labeled(name, part) => {
            if name.items.as_slice() == label {
                Some(part)
            } else {
                None
            }
        }
        Tree::Leaf(_) => None,
        Tree::Pruned(_) => None,
    }
}

fn is_hidden(tree: &Tree, label: &[u8]) -> bool
    ensures { result ≡ is_hidden label.now (flat (view tree.now)) }
{
    match gap_through(label, Gap::Open, tree) {
        Gap::Open => false,
        Gap::Hidden => true,
        Gap::Closed => false,
    }
}

#[tactic(auto, using(crate::proofs::Scans::gap_through_append), unfolding(crate::specs::Nodes::flat, crate::specs::Walks::gap_through, ic_tree::specs::View::view))]
fn gap_through(label: &[u8], gap: Gap, tree: &Tree) -> Gap
    ensures { result ≡ gap_through label.now gap (flat (view tree.now)) }
{
    match tree {
        Tree::Empty => gap,
        Tree::Fork(left, right) => {
            let gap = gap_through(label, gap, left);
            gap_through(label, gap, right)
        }
        Tree::Labeled(name, _) => {
            let name = name.items.as_slice();
            if name.cmp(label).is_lt() {
                Gap::Open
            } else if label.cmp(name).is_lt() {
                closed(gap)
            } else {
                gap
            }
        }
        Tree::Leaf(_) => gap,
        Tree::Pruned(_) => hidden(gap),
    }
}

fn closed(gap: Gap) -> Gap
    ensures { result ≡ closed gap }
{
    match gap {
        Gap::Open => Gap::Closed,
        Gap::Hidden => Gap::Hidden,
        Gap::Closed => Gap::Closed,
    }
}

fn hidden(gap: Gap) -> Gap
    ensures { result ≡ hidden gap }
{
    match gap {
        Gap::Open => Gap::Hidden,
        Gap::Hidden => Gap::Hidden,
        Gap::Closed => Gap::Closed,
    }
}
