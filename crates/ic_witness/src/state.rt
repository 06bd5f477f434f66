ghost use Rattle.std.specs.Prelude.{◌≡◌, List, IfOk};
ghost use Rattle.ic_behaviour.specs.declared.call.Message.{Message};
ghost use Rattle.ic_state.specs.Seen.{state_of};
ghost use Rattle.ic_state.specs.IsWorld.{IsWorld};
ghost use Rattle.ic_tree.specs.View.{view};
ghost use Rattle.ic_witness.specs.Witness.{HasWitnesses, state_witness, witness_bytes};

use crate::pruning::witness;
use crate::writing::write;
use ic_base::NoMemory;
use ic_principal::{Bytes, Path};
use ic_state::{Parts, World};
use ic_tree::{Tree, tree_of_parts};
use std::alloc::Global;

/// The written witness of a state's tree for these paths.
pub fn state_witness(alloc: Global, world: &World, paths: &[Path]) -> Result<Bytes, NoMemory>
    ensures { IfOk result (λ bytes. bytes ≡ state_witness world.now paths.now) }
{
    witness_of_parts(alloc, world.parts(), paths)
}

/// The written witness of the tree of a state for these paths, by the parts of its world. The messages may be elsewhere.
pub fn witness_of_parts(alloc: Global, parts: &Parts, paths: &[Path]) -> Result<Bytes, NoMemory>
    requires keeps { (messages : List Message) × IsWorld (record parts.now { messages = messages }) }
    ensures { IfOk result (λ bytes. bytes ≡ state_witness (state_of parts.now) paths.now) }
{
    let tree = tree_of_parts(alloc, parts)?;
    written(alloc, &tree, paths)
}

fn written(alloc: Global, tree: &Tree, paths: &[Path]) -> Result<Bytes, NoMemory>
    requires { HasWitnesses (view tree.now) }
    ensures { IfOk result (λ bytes. bytes ≡ witness_bytes (view tree.now) paths.now) }
{
    let pruned = witness(alloc, tree, paths)?;
    write(alloc, &pruned)
}
