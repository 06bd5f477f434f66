ghost use Rattle.std.specs.List.{AllByRecursion};
ghost use Rattle.std.specs.Prelude.{◌≡◌, ℕ, ◌<◌, ◌≤◌, [], length, map, IfOk, IfSome, IfNone, Some, vec_len, vec_capacity};
ghost use Rattle.std.specs.Mem.Slots.{IsFull};
ghost use Rattle.ic_tickets.specs.Rule.{newcomer, once_below, IsSized};
ghost use Rattle.ic_tickets.specs.Tickets.{items_of, workers_of, numbers_of, HasEnded, IsOpen, IsOf, IsFresh, Draws, times_drawn, ends_of};

use crate::rule::{Board, Cut, Draw, Glue, Lay, Pass, Tickets};
use crate::view::{Lot, View};
use atomic_table::{Closed, Seat, Table};
use ic_base::NoMemory;
use std::alloc::{AllocError, Global};
use std::snapshot::Snapshot;

fn wrapped<T: Drop>(alloc: Global, items: Vec<T>) -> Result<Vec<Option<T>>, NoMemory>
    ensures { IfOk result (λ v. v.items ≡ map Some items.items) }
{
    items.into_iter().map(|x| Some(x)).collect(alloc)
}

// A table of these items, and a seat for all workers.
fn board<T: Drop>(
    alloc: Global,
    items: Vec<T>,
    workers: u32,
) -> Result<(Board<T>, Seat<Option<T>, View<T>>), NoMemory>
    requires workers { (0 < workers) × (workers ≤ 64) }
    requires items { vec_len items ≤ 64 }
    ensures sizes { IfOk result (λ r. (r.0.shared.table_id.words ≡ 1) × (r.0.shared.table_id.slots ≡ length items.items)) }
    ensures key { IfOk result (λ r. (r.0.shared.key.items.value.items ≡ items.items) × (r.0.shared.key.workers ≡ workers)) }
    ensures seat { IfOk result (λ r. (r.1.table_id ≡ r.0.shared.table_id) × (r.1.me ≡ (newcomer items.items workers, []))) }
{
    let lot = Lot {
        items: Snapshot::of(&items),
        workers,
    };
    let slots = wrapped(alloc, items)?;
    match Table::new(alloc, &[0], slots, &lot) {
        Ok(made) => Ok(made),
        Err(_) => Err(AllocError),
    }
}

// Hands out a pass for each worker.
fn handed_out<T: Drop>(
    table: Board<T>,
    mut seat: Seat<Option<T>, View<T>>,
    mut passes: Vec<Pass<T>>,
    workers: u32,
) -> (Tickets<T>, Vec<Pass<T>>)
    requires sized { IsSized table.shared.table_id table.shared.key.items.value.items table.shared.key.workers }
    requires workers { table.shared.key.workers ≡ workers }
    requires seat { (seat.table_id ≡ table.shared.table_id) × (seat.me ≡ (newcomer table.shared.key.items.value.items workers, [])) }
    requires room { (passes.items ≡ []) × (vec_capacity passes ≡ workers) }
    ensures table { (items_of result.0 ≡ table.shared.key.items.value.items) × (workers_of result.0 ≡ workers) }
    ensures many { vec_len result.1 ≡ workers }
    ensures passes { AllByRecursion (λ p. IsOf result.0 p × IsFresh p) result.1.items }
{
    for made in 1..workers {
        let other = table.shared.split_seat::<Cut>(&mut seat);
        passes.push_reserved(Pass { seat: other });
    }
    passes.push_reserved(Pass { seat });
    (Tickets { table }, passes)
}

// Drops the items that nobody drew.
fn discard<T: Drop>(mut closed: Closed<Option<T>, Global>)
    requires { IsFull closed.slots }
{
    let mut i = 0;
    while i < closed.slot_count() {
        drop(closed.take(i));
        i += 1;
    }
    closed.free();
}

impl<T: Drop> Tickets<T> {
    /// A table of these items, and a pass for each worker.
    pub fn new(
        alloc: Global,
        items: Vec<T>,
        workers: u32,
    ) -> Result<(Tickets<T>, Vec<Pass<T>>), NoMemory>
        requires workers { (0 < workers) × (workers ≤ 64) }
        requires items { vec_len items ≤ 64 }
        ensures table { IfOk result (λ r. (items_of r.0 ≡ items.items) × (workers_of r.0 ≡ workers)) }
        ensures many { IfOk result (λ r. vec_len r.1 ≡ workers) }
        ensures passes { IfOk result (λ r. AllByRecursion (λ p. IsOf r.0 p × IsFresh p) r.1.items) }
    {
        let passes = Vec::with_capacity(alloc, workers as usize)?;
        let (table, seat) = board(alloc, items, workers)?;
        Ok(handed_out(table, seat, passes, workers))
    }

    /// The next number that nobody drew, with its item. `None`: no item is left, and the pass has
    /// ended. Takes no memory.
    pub fn draw(&self, pass: &mut Pass<T>) -> Option<(u32, T)>
        requires own { IsOf self.now pass.old }
        requires is_open { IsOpen pass.old }
        ensures own { IsOf self.now pass.new }
        ensures some { IfSome result (λ r. Draws (items_of self.now) pass.old r.0 r.1 pass.new) }
        ensures none { IfNone result (HasEnded pass.new × (numbers_of pass.new ≡ numbers_of pass.old)) }
    {
        let number = self.table.shared.fetch_add::<Draw>(&mut pass.seat, 0, 1);
        if number >= self.table.slot_count() as u64 {
            return None;
        }
        let item = self
            .table
            .shared
            .exchange(&mut pass.seat, number as usize, None);
        Some((number as u32, item.unwrap()))
    }

    /// Takes back all passes, and drops the items that nobody drew. Takes no memory.
    pub fn close(self, mut passes: Vec<Pass<T>>)
        requires own { AllByRecursion (IsOf self) passes.items }
        requires all { vec_len passes ≡ workers_of self }
        // No number was drawn twice,
        ensures once { (x : ℕ) → times_drawn x passes.items ≤ 1 }
        // and where a pass has ended each was drawn.
        ensures whole { 0 < ends_of passes.items → (x : ℕ) → times_drawn x passes.items ≡ once_below x (length (items_of self)) }
    {
        let Tickets { table } = self;
        let Pass { seat: mut kept } = passes.pop().unwrap();
        while let Some(Pass { mut seat }) = passes.pop() {
            table.shared.load::<Lay>(&mut seat, 0);
            table.shared.join_seat::<Glue>(&mut kept, seat);
        }
        discard(table.close_with(kept));
    }
}
