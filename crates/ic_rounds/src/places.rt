ghost use Rattle.std.specs.Prelude.{◌≡◌, ◌<◌, ℕ, Some, IfOk, OnOk, vec_len, slice_set};
ghost use Rattle.std.specs.List.{AllByRecursion, AllZip};
ghost use Rattle.ic_tickets.specs.Rule.{times};
ghost use Rattle.ic_rounds.specs.HandledSlots.{IsHandled};
ghost use Rattle.ic_rounds.specs.Workers.{entry_numbers, IsAt, IsFilled};

use crate::handled_slot::HandledSlot;
use crate::outbox_entry::OutboxEntry;
use crate::slot::Slot;
use ic_base::NoMemory;
use ic_state::BoundedEnv;
use std::alloc::Global;
use std::snapshot::Snapshot;

/// That many places, all of them empty.
pub fn empty_places(alloc: Global, count: usize) -> Result<Vec<Option<HandledSlot>>, NoMemory>
    ensures { IfOk result (λ v. vec_len v ≡ count) }
{
    let mut places = Vec::with_capacity(alloc, count)?;
    for _ in 0..count {
        places.push_reserved(None);
    }
    Ok(places)
}

// Puts what came of a slot into its place.
fn put_entry(places: &mut Vec<Option<HandledSlot>>, entry: OutboxEntry) -> Result<(), NoMemory>
    requires { entry.number < vec_len places.old }
    ensures len { vec_len places.new ≡ vec_len places.old }
    ensures put { OnOk result ((w : HandledSlot)
        × (places.new.items ≡ slice_set places.old.items entry.number (Some w))
        × IsHandled entry.env entry.slot w) }
{
    let (number, content) = entry.open();
    places[number as usize] = Some(content?);
    Ok(())
}

/// Puts what came of slots into their places.
pub fn put_outbox(
    slots: &Snapshot<Vec<Slot>>,
    env: BoundedEnv,
    places: &mut Vec<Option<HandledSlot>>,
    outbox: Vec<OutboxEntry>,
) -> Result<(), NoMemory>
    requires entries { AllByRecursion (IsAt slots.now.value.items env) outbox.items }
    requires len { vec_len places.old ≡ vec_len slots.now.value }
    ensures len { vec_len places.new ≡ vec_len places.old }
    ensures kept { OnOk result ((k : ℕ) → IsFilled slots.now.value.items env places.old.items k → IsFilled slots.now.value.items env places.new.items k) }
    ensures filled { OnOk result ((k : ℕ) → 0 < times k (entry_numbers outbox.items) → IsFilled slots.now.value.items env places.new.items k) }
{
    let _of_these = slots;
    let _under = env;
    for entry in outbox {
        put_entry(places, entry)?;
    }
    Ok(())
}

/// What came of the slots, in their order.
pub fn take_handled(
    alloc: Global,
    slots: &Snapshot<Vec<Slot>>,
    env: BoundedEnv,
    places: Vec<Option<HandledSlot>>,
) -> Result<Vec<HandledSlot>, NoMemory>
    requires len { vec_len places ≡ vec_len slots.now.value }
    requires filled { (k : ℕ) → k < vec_len places → IsFilled slots.now.value.items env places.items k }
    ensures { IfOk result (λ v. AllZip (IsHandled env) slots.now.value.items v.items) }
{
    let _of_these = slots;
    let _under = env;
    let mut all = Vec::with_capacity(alloc, places.len())?;
    for place in places {
        all.push_reserved(place.unwrap());
    }
    Ok(all)
}
