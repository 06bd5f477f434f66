ghost use Rattle.std.specs.Prelude.{◌≡◌, Ok};
ghost use Rattle.ic_state.specs.IsCanister.{IsCanister};
ghost use Rattle.ic_mgmt_laws.specs.Rows.{uninstalls};
ghost use Rattle.ic_mgmt.specs.Ending.{IfMemory};
ghost use Rattle.ic_mgmt.specs.Changes.{DoesAt, KeepsCounts};

use crate::ending::Ending;
use ic_calls::{close, empty_reply, uninstall};
use ic_mgmt_candid::Unmet;
use ic_principal::Principal;
use ic_state::{Canister, IncomingCall};
use std::alloc::Global;

/// The canister loses its code and its memories, and its contexts are deleted (IC Interface
/// Specification, "IC method uninstall_code"). The contexts that await no call are closed.
pub fn uninstall_code(
    alloc: Global,
    canister: &mut Canister,
    id: Principal,
    call: &IncomingCall,
) -> Result<Ending, Unmet>
    requires keeps { IsCanister canister.old }
    ensures does { DoesAt result call.now id canister.old canister.new
        (λ now s c. Ok (uninstalls now s call.now id c)) }
    ensures counts { IfMemory result (KeepsCounts id canister.old canister.new) }
    ensures keeps { IfMemory result (IsCanister canister.new) }
{
    let response = empty_reply(alloc)?;
    let mut answers = uninstall(alloc, canister)?;
    let closing = close(alloc, canister, None, None)?;
    answers.append(closing)?;
    Ok(Ending {
        reply: Some((response, call.cycles)),
        sender: id,
        answers,
    })
}
