ghost use Rattle.std.specs.Prelude.{◌≡◌, ◌≤◌, Ok, IfOk};
ghost use Rattle.ic_rounds.specs.Slots.{IsReady};
ghost use Rattle.ic_rounds.specs.HandledSlots.{IsHandled, entry};

use crate::handled_slot::HandledSlot;
use crate::permit::Permit;
use crate::slot::Slot;
use ic_base::NoMemory;
use ic_deliver::give;
use ic_state::BoundedEnv;
use std::alloc::Global;
use std::marker::Model;
use std::snapshot::Snapshot;

/// An entry of an outbox: what came of the slot for which its worker passed the gate, or that memory ran out.
#[derive(Drop)]
pub struct OutboxEntry {
    permit: Permit,
    content: Result<HandledSlot, NoMemory>,
    slot: Snapshot<Slot>,
    env: Snapshot<BoundedEnv>,
}

impl Model for OutboxEntry {
    ghost use Rattle.std.specs.Prelude.{◌≡◌, Ok};
    ghost use Rattle.ic_rounds.specs.declared.handled_slot.HandledSlot.{HandledSlot};
    ghost use Rattle.ic_rounds.specs.HandledSlots.{Entry, entry, IsHandled};

    ghost Value = { Entry };

    ghost view = { λ f. entry f.permit.worker f.permit.number f.slot.value f.env.value };

    ghost invariant = { λ f. (handled : HandledSlot) → f.content ≡ Ok handled → IsHandled f.env.value f.slot.value handled };
}

// Handles the message of a slot.
fn handle_slot(alloc: Global, slot: Slot, env: BoundedEnv) -> Result<HandledSlot, NoMemory>
    requires ready { IsReady slot }
    ensures { IfOk result (IsHandled env slot) }
{
    let Slot {
        key,
        canister,
        message,
    } = slot;
    let mut canister = canister;
    let done = give(alloc, &mut canister, message.take(), env)?;
    Ok(HandledSlot {
        key,
        canister,
        done,
    })
}

impl OutboxEntry {
    /// Handles the message of a slot, and keeps what came of it under the number for which the gate was passed.
    pub fn of(alloc: Global, permit: Permit, slot: Slot, env: BoundedEnv) -> OutboxEntry
        requires ready { IsReady slot }
        ensures { result ≡ entry permit.worker permit.number slot env }
    {
        let kept = Snapshot::of(&slot);
        OutboxEntry {
            permit,
            content: handle_slot(alloc, slot, env),
            slot: kept,
            env: Snapshot::of(&env),
        }
    }

    /// The number, and what came of the slot.
    pub fn open(self) -> (u32, Result<HandledSlot, NoMemory>)
        ensures number { result.0 ≡ self.number }
        ensures content { IfOk result.1 (IsHandled self.env self.slot) }
    {
        let OutboxEntry {
            permit,
            content,
            ..
        } = self;
        (permit.number(), content)
    }
}
