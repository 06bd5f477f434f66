//! What holds of hash trees and of what prunes them: each function but `read_back` does nothing, and
//! its contract is the law.

ghost use Rattle.std.specs.Prelude.{◌≡◌, ◌++◌, [], ◌≤◌, ◌↔◌, List, ℕ, Some, IfOk, true};
ghost use Rattle.std.specs.List.{All};
ghost use Rattle.ic_tree.specs.HashTree.{HashTree, root_hash};
ghost use Rattle.ic_tree.specs.StateTree.{state_tree_of};
ghost use Rattle.ic_behaviour.specs.Sound.{Sound};
ghost use Rattle.ic_behaviour.specs.State.{State};
ghost use Rattle.ic_tree.specs.View.{view};
ghost use Rattle.ic_witness.specs.At.{at, is_ordered};
ghost use Rattle.ic_witness.specs.Cbor.{IsText, depth};
ghost use Rattle.ic_witness.specs.Nodes.{Path};
ghost use Rattle.ic_witness.specs.Prune.{prune};
ghost use Rattle.ic_witness.specs.ReadCbor.{text_at};
ghost use Rattle.ic_witness.specs.Table.{SaysState};
ghost use Rattle.ic_witness.specs.Whole.{is_whole};
ghost use Rattle.ic_witness.specs.Witness.{HasWitnesses, SaysAlike};

use crate::fault::TreeFault;
use crate::reading::read;
use crate::writing::write;
use ic_base::NoMemory;
use ic_tree::Tree;
use std::alloc::{AllocError, Global};

/// Pruning keeps the root hash.
pub fn pruned_root()
    ensures { (tree : HashTree) (paths : List Path) → root_hash (prune tree paths) ≡ root_hash tree }
{}

/// Pruning an ordered tree without pruned nodes keeps what it says of each of the paths.
pub fn pruned_at()
    ensures { (tree : HashTree) (paths : List Path) → is_ordered tree ≡ true → is_whole tree ≡ true
        → All (λ path. at (prune tree paths) path ≡ at tree path) paths }
{}

/// The function that reads trees (`specs/ReadCbor`) takes exactly the bytes that are one.
pub fn trees_read()
    ensures { (tree : HashTree) (bytes : List ℕ) → (text_at bytes ≡ Some tree) ↔ IsText tree bytes }
{}

/// No bytes are two trees.
pub fn one_tree()
    ensures { (tree other : HashTree) (bytes : List ℕ) → IsText tree bytes → IsText other bytes → tree ≡ other }
{}

/// Pruning an ordered tree without pruned nodes keeps it ordered.
pub fn pruned_ordered()
    ensures { (tree : HashTree) (paths : List Path) → is_ordered tree ≡ true → is_whole tree ≡ true → is_ordered (prune tree paths) ≡ true }
{}

/// Pruning makes no tree deeper.
pub fn pruned_depth()
    ensures { (tree : HashTree) (paths : List Path) → depth (prune tree paths) ≤ depth tree }
{}

/// The tree of every sound state is ordered, no node of it is pruned, and it nests less deep than a
/// tree that is written may: so it has witnesses.
pub fn state_stands()
    ensures { (s : State) → Sound s → HasWitnesses (state_tree_of s) }
{}

/// A witness of a state has the state's root hash, and says of each of its paths what the state's
/// tree says.
pub fn state_at()
    ensures { (s : State) (paths : List Path) → Sound s → SaysAlike (prune (state_tree_of s) paths) (state_tree_of s) paths }
{}

/// The tree of a state says of each path of its table what the state has, and of other ids of
/// canisters and requests that there is nothing.
pub fn state_says()
    ensures { (s : State) → SaysState (state_tree_of s) s }
{}

/// No bytes of a tree begin those of another: with more after them they are no tree, and so is
/// no proper front of them.
pub fn no_front()
    ensures { (tree other : HashTree) (front rest : List ℕ) → IsText tree front → IsText other (front ++ rest) → rest ≡ [] }
{}

/// Writes a tree and reads what was written: it is the tree again, unless memory runs out.
pub fn read_back(alloc: Global, tree: &Tree) -> Result<Tree, NoMemory>
    requires deep { depth (view tree.now) ≤ 128 }
    ensures { IfOk result (λ again. view again ≡ view tree.now) }
{
    let bytes = write(alloc, tree)?;
    match read(alloc, &bytes.items) {
        Ok(again) => Ok(again),
        Err(TreeFault::NoMemory) => Err(AllocError),
        Err(TreeFault::NotTree) => unreachable!(),
    }
}
