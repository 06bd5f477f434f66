ghost use Rattle.std.specs.Prelude.{◌≡◌, None, is_some, IfOk, OnErr};
ghost use Rattle.wm_semantics.specs.Instance.{instance};
ghost use Rattle.ic_state.specs.Seen.{seen, code_of};
ghost use Rattle.ic_state.specs.IsCanister.{IsCanister};
ghost use Rattle.ic_entry.specs.Placed.{with_code};

use ic_base::NoMemory;
use ic_state::{Canister, Code, CodePlace};
use std::alloc::{AllocError, Global};
use wm_run::{InstanceFault, instantiate};

/// Gives code to a canister that has none, with the store of the module's instance. No entry point
/// runs. Says whether it did: not where a segment is out of bounds. It serves tests and benches: `install_in` installs code.
pub fn place_code(alloc: Global, canister: &mut Canister, code: Code) -> Result<bool, NoMemory>
    requires keeps { IsCanister canister.old }
    requires empty { canister.old.code ≡ None }
    ensures placed { IfOk result (λ placed. placed ≡ is_some (instance code.valid.«module»)) }
    ensures canister { IfOk result (λ _. seen canister.new ≡ with_code (code_of code) (instance code.valid.«module») (seen canister.old)) }
    ensures same { OnErr result (canister.new ≡ canister.old) }
    ensures keeps { IsCanister canister.new }
{
    match instantiate(alloc, &code.valid) {
        Ok(store) => {
            let code = CodePlace::new(alloc, code)?;
            canister.store.put(store);
            canister.code = Some(code);
            Ok(true)
        }
        Err(InstanceFault::SegmentOut) => Ok(false),
        Err(InstanceFault::NoMemory) => Err(AllocError),
    }
}
