ghost use Rattle.std.specs.Prelude.{◌≡◌, ◌+◌, ◌-◌, ◌≤◌, ◌^◌, OnOk};
ghost use Rattle.ic_deliver.specs.Delivered.{with_sent};

use ic_base::NoMemory;
use ic_calls::send;
use ic_exec::Done;
use ic_principal::Principal;
use ic_state::Parts;

/// Settles what a message did at the canister `sender`: what it used is paid, and what it sent goes on. After
/// `NoMemory` some of it may be sent.
pub fn settle(parts: &mut Parts, sender: &Principal, done: Done) -> Result<(), NoMemory>
    requires room { parts.old.burned + done.burned ≤ 2 ^ 127 - 1 }
    ensures sent { OnOk result (parts.new ≡ with_sent sender.now done parts.old) }
    ensures rest { parts.new ≡ record parts.old {
      messages = parts.new.messages;
      requests = parts.new.requests;
      burned = parts.old.burned + done.burned;
    } }
{
    let Done {
        calls,
        answers,
        burned,
        ..
    } = done;
    parts.burned += burned;
    send(parts, sender, calls, answers)
}
