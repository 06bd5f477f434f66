ghost use Rattle.std.specs.Prelude.{◌≡◌, map, IfOk, OnOk, OnErr};
ghost use Rattle.std.specs.List.{flat_map};
ghost use Rattle.ic_state.specs.Seen.{seen};
ghost use Rattle.ic_state.specs.IsCanister.{IsCanister};
ghost use Rattle.ic_calls.specs.Changes.{rejected, deleted, emptied};

use crate::deleting::{delete_all, reject_all};
use ic_base::NoMemory;
use ic_principal::Bytes;
use ic_state::{AnsweredList, Canister, Contexts};
use std::alloc::Global;
use wm_store::Store;

fn delete(contexts: &mut Contexts)
    ensures { contexts.new ≡ map deleted contexts.old }
{
    delete_all(contexts.items.as_mut_slice());
}

fn reject_contexts(alloc: Global, contexts: &Contexts) -> Result<AnsweredList, NoMemory>
    ensures { IfOk result (λ answers. answers ≡ flat_map rejected contexts.now) }
{
    let mut answers = AnsweredList {
        items: Vec::new(alloc),
    };
    reject_all(alloc, contexts.items.as_slice(), &mut answers)?;
    Ok(answers)
}

/// The canister loses its code, its memories and its certified data, and its contexts are deleted (IC
/// Interface Specification, "IC method uninstall_code"). Gives the answers to the calls whose contexts
/// had none, in the order in which the contexts were made. All answers are made before the canister
/// changes.
pub fn uninstall(alloc: Global, canister: &mut Canister) -> Result<AnsweredList, NoMemory>
    requires keeps { IsCanister canister.old }
    ensures answers { IfOk result (λ answers. answers ≡ flat_map rejected canister.old.contexts) }
    ensures emptied { OnOk result (seen canister.new ≡ emptied (seen canister.old)) }
    ensures same { OnErr result (canister.new ≡ canister.old) }
    ensures keeps { IsCanister canister.new }
{
    let answers = reject_contexts(alloc, &canister.contexts)?;
    delete(&mut canister.contexts);
    canister.code = None;
    canister.store.put(Store::empty(alloc));
    canister.certified = Bytes {
        items: Vec::new(alloc),
    };
    Ok(answers)
}
