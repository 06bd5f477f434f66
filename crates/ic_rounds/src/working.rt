ghost use Rattle.std.specs.Prelude.{◌≡◌, ◌<◌, [], ◌∷◌, ◌++◌, vec_len, vec_capacity};
ghost use Rattle.ic_rounds.specs.Slots.{IsReady};
ghost use Rattle.ic_rounds.specs.HandledSlots.{entry};
ghost use Rattle.ic_rounds.specs.Workers.{IsIdle, IsDone};

use crate::halves::Work;
use crate::outbox_entry::OutboxEntry;
use crate::permit::Permit;
use crate::slot::Slot;
use crate::worker::{Shop, Worker};
use ic_outside::Gate;

// The worker with this number passes the gate, and handles the slot that it drew.
fn handle_drawn<G: Gate>(
    shop: &Shop<'_, G>,
    worker: u32,
    outbox: &mut Vec<OutboxEntry>,
    drawn: (u32, Slot),
)
    requires ready { IsReady drawn.1 }
    requires room { vec_len outbox.old < vec_capacity outbox.old }
    ensures entry { outbox.new.items ≡ outbox.old.items ++ entry worker drawn.0 drawn.1 shop.now.env ∷ [] }
    ensures capacity { vec_capacity outbox.new ≡ vec_capacity outbox.old }
{
    let (number, slot) = drawn;
    let permit = Permit::pass(shop.gate, worker, number);
    let handled = OutboxEntry::of(shop.alloc, permit, slot, shop.env);
    outbox.push_reserved(handled);
}

impl<'a, G: Gate> Work<Shop<'a, G>> for Worker {
    ghost ready = { λ shop w. IsIdle shop.tickets.now shop.env w };

    ghost did = { λ shop before after. (after.number ≡ before.number) × IsDone shop.tickets.now shop.env after };

    // Draws slots until none is left. An outbox has room for all, so nothing here waits for memory.
    fn work(&mut self, shop: &Shop<'a, G>) {
        while let Some(drawn) = shop.tickets.draw(&mut self.pass) {
            handle_drawn(shop, self.number, &mut self.outbox, drawn);
        }
    }
}
