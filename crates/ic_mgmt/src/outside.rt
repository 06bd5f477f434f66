ghost use Rattle.std.specs.Prelude.{◌≡◌, ◌≤◌, ◌∷◌, List, false, is_some, IfOk};
ghost use Rattle.std.specs.Map.{lookup};
ghost use Rattle.ic_behaviour.specs.declared.call.Message.{Message as AMessage};
ghost use Rattle.ic_behaviour.specs.State.{at, callee_of};
ghost use Rattle.ic_state.specs.IsWorld.{IsWorld};
ghost use Rattle.ic_mgmt.specs.Sweeping.{among, Meets, Delivers};

use crate::managing::carry_out;
use ic_base::NoMemory;
use ic_calls::is_management;
use ic_deliver::send_back;
use ic_state::{IncomingCall, Message, Parts};
use std::alloc::Global;

/// Delivers a message to no canister that has left the list: a call to the management canister is
/// carried out, and every other goes back. An answer is dropped, but there is none. `limit` is the
/// most instructions that one execution may use.
pub fn deliver_outside(
    alloc: Global,
    parts: Parts,
    message: Message,
    limit: u64,
) -> Result<Parts, NoMemory>
    requires next { (kept : List AMessage) × Meets kept message parts }
    requires absent { is_some (lookup (at (callee_of message)) parts.canisters.entries) ≡ false }
    ensures { IfOk result (λ q. (kept todo : List AMessage) → IsWorld (among kept (message ∷ todo) parts)
        → Delivers limit kept message todo parts q) }
{
    match message {
        Message::Call {
            origin,
            sender,
            callee,
            method,
            arg,
            cycles,
        } => {
            if is_management(&callee) {
                let call = IncomingCall {
                    origin,
                    sender,
                    method,
                    arg,
                    cycles,
                };
                carry_out(alloc, parts, call, limit)
            } else {
                let mut parts = parts;
                send_back(alloc, &mut parts, &callee, origin, cycles)?;
                Ok(parts)
            }
        }
        Message::Answer { .. } => Ok(parts),
    }
}
