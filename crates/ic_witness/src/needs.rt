ghost use Rattle.std.specs.Prelude.{◌≡◌, ◌++◌, List, [], ◌∷◌, IfOk, MatchOption, None, OnOk, Some};
ghost use Rattle.std.specs.List.{list_any};
ghost use Rattle.ic_tree.specs.View.{view};
ghost use Rattle.ic_witness.specs.Needed.{has_label, higher_of, is_among, labels_at, lower_of, needed_for, needed_labels, paths_at};
ghost use Rattle.ic_witness.specs.Nodes.{flat, labels};
ghost use Rattle.ic_witness.specs.Prune.{is_nil, rests};
ghost use Rattle.ic_witness.specs.Walks.{now_of};
ghost use Rattle.std.specs.Option.{option_to_list};

use ic_base::NoMemory;
use ic_principal::Bytes;
use ic_tree::Tree;
use std::alloc::Global;

/// The labels at the level of the tree that are needed for the paths.
#[tactic(auto, using(crate::proofs::Neighbors::needed_append), unfolding(crate::specs::Needed::needed_labels))]
pub(crate) fn needed_labels<'a>(
    alloc: Global,
    tree: &'a Tree,
    paths: &[&'a [Bytes]],
) -> Result<Vec<&'a [u8]>, NoMemory>
    ensures { IfOk result (λ needed. labels_at needed.items ≡ needed_labels (flat (view tree.now)) (paths_at paths.now)) }
{
    let mut needed = Vec::new(alloc);
    for path in paths {
        push_needed(tree, *path, &mut needed)?;
    }
    Ok(needed)
}

#[tactic(auto, unfolding(crate::specs::Needed::needed_for))]
fn push_needed<'a>(
    tree: &'a Tree,
    path: &'a [Bytes],
    needed: &mut Vec<&'a [u8]>,
) -> Result<(), NoMemory>
    ensures { OnOk result (labels_at needed.new.items ≡ labels_at needed.old.items ++ needed_for (flat (view tree.now)) path.now) }
{
    match path {
        [] => Ok(()),
        [first, ..] => {
            let first = first.items.as_slice();
            if has_label(tree, first) {
                push(Some(first), needed)
            } else {
                push(lower(tree, first), needed)?;
                push(higher(tree, first), needed)
            }
        }
    }
}

fn push<'a>(label: Option<&'a [u8]>, needed: &mut Vec<&'a [u8]>) -> Result<(), NoMemory>
    ensures { OnOk result (labels_at needed.new.items ≡ labels_at needed.old.items ++ option_to_list (now_of label.entry)) }
{
    match label {
        Some(label) => {
            needed.push(label)?;
            Ok(())
        }
        None => Ok(()),
    }
}

#[tactic(auto, using(crate::proofs::Neighbors::has_label_append), unfolding(crate::specs::Nodes::flat, crate::specs::Nodes::labels, ic_tree::specs::View::view))]
fn has_label(tree: &Tree, label: &[u8]) -> bool
    ensures { result ≡ has_label label.now (flat (view tree.now)) }
{
    match tree {
        Tree::Empty => false,
        Tree::Fork(left, right) => has_label(left, label) || has_label(right, label),
        Tree::Labeled(name, _) => label == name.items.as_slice(),
        Tree::Leaf(_) => false,
        Tree::Pruned(_) => false,
    }
}

// The nearest label below this one.
#[tactic(auto, using(crate::proofs::Neighbors::lower_append), unfolding(crate::specs::Nodes::flat, crate::specs::Nodes::labels, crate::specs::Prune::last_of, crate::specs::Needed::lower_of, ic_tree::specs::View::view))]
fn lower<'a>(tree: &'a Tree, label: &[u8]) -> Option<&'a [u8]>
    ensures { MatchOption result (lower_of label.now (flat (view tree.now)) ≡ None) (λ name. lower_of label.now (flat (view tree.now)) ≡ Some name.now) }
{
    match tree {
        Tree::Empty => None,
        Tree::Fork(left, right) => match lower(right, label) {
            Some(name) => Some(name),
            None => lower(left, label),
        },
        Tree::Labeled(name, _) => {
            let name = name.items.as_slice();
            if name.cmp(label).is_lt() {
                Some(name)
            } else {
                None
            }
        }
        Tree::Leaf(_) => None,
        Tree::Pruned(_) => None,
    }
}

// The nearest label above this one.
#[tactic(auto, using(crate::proofs::Neighbors::higher_append), unfolding(crate::specs::Nodes::flat, crate::specs::Nodes::labels, crate::specs::Prune::first_of, crate::specs::Needed::higher_of, ic_tree::specs::View::view))]
fn higher<'a>(tree: &'a Tree, label: &[u8]) -> Option<&'a [u8]>
    ensures { MatchOption result (higher_of label.now (flat (view tree.now)) ≡ None) (λ name. higher_of label.now (flat (view tree.now)) ≡ Some name.now) }
{
    match tree {
        Tree::Empty => None,
        Tree::Fork(left, right) => match higher(left, label) {
            Some(name) => Some(name),
            None => higher(right, label),
        },
        Tree::Labeled(name, _) => {
            let name = name.items.as_slice();
            if label.cmp(name).is_lt() {
                Some(name)
            } else {
                None
            }
        }
        Tree::Leaf(_) => None,
        Tree::Pruned(_) => None,
    }
}

/// Whether a label at the level of the tree is needed.
#[tactic(auto, using(crate::proofs::Neighbors::any_needed_append), unfolding(crate::specs::Nodes::flat, crate::specs::Nodes::labels, ic_tree::specs::View::view))]
pub(crate) fn has_needed(tree: &Tree, needed: &[&[u8]]) -> bool
    ensures { result ≡ list_any (is_among (labels_at needed.now)) (labels (flat (view tree.now))) }
{
    match tree {
        Tree::Empty => false,
        Tree::Fork(left, right) => has_needed(left, needed) || has_needed(right, needed),
        Tree::Labeled(name, _) => is_among(needed, name.items.as_slice()),
        Tree::Leaf(_) => false,
        Tree::Pruned(_) => false,
    }
}

pub(crate) fn is_among(needed: &[&[u8]], label: &[u8]) -> bool
    ensures { result ≡ is_among (labels_at needed.now) label.now }
{
    for name in needed {
        if *name == label {
            return true;
        }
    }
    false
}

/// The rests of the paths that begin with the label.
#[tactic(auto, using(crate::proofs::Neighbors::rests_append), unfolding(crate::specs::Prune::rests))]
pub(crate) fn rests<'a>(
    alloc: Global,
    label: &[u8],
    paths: &[&'a [Bytes]],
) -> Result<Vec<&'a [Bytes]>, NoMemory>
    ensures { IfOk result (λ found. paths_at found.items ≡ rests label.now (paths_at paths.now)) }
{
    let mut found = Vec::new(alloc);
    for path in paths {
        push_rest(label, *path, &mut found)?;
    }
    Ok(found)
}

#[tactic(auto, unfolding(crate::specs::Prune::rests))]
fn push_rest<'a>(
    label: &[u8],
    path: &'a [Bytes],
    found: &mut Vec<&'a [Bytes]>,
) -> Result<(), NoMemory>
    ensures { OnOk result (paths_at found.new.items ≡ paths_at found.old.items ++ rests label.now (path.now ∷ [])) }
{
    match path {
        [] => Ok(()),
        [first, rest @ ..] => {
            if first.items.as_slice() == label {
                found.push(rest)?;
            }
            Ok(())
        }
    }
}

/// Whether the empty path is among the paths.
pub(crate) fn has_empty(paths: &[&[Bytes]]) -> bool
    ensures { result ≡ list_any is_nil (paths_at paths.now) }
{
    for path in paths {
        if path.is_empty() {
            return true;
        }
    }
    false
}
