// The rule, the kinds of step, and the types that are handed out.
ghost use Rattle.ic_tickets.specs.Rule.{Kept, newcomer, spent_view, split_left, split_right, joined, drew, laid, IsSeated, IsSized};

use crate::view::{Lot, View};
use atomic_table::{Join, Play, Seat, Split, Table, TableRule};
use std::alloc::Global;

pub struct Drawn;

impl<T> TableRule<Option<T>, View<T>, Lot<T>> for Drawn {
    ghost holds = { λ lot. Kept lot.items.value.items lot.workers };

    ghost first = { λ lot. newcomer lot.items.value.items lot.workers };
}

pub(crate) type Board<T> = Table<Option<T>, View<T>, Lot<T>, Drawn, Global>;

// A ticket is drawn. The place from which the last item was taken goes home in the same step.
pub struct Draw;

impl<T> Play<Option<T>, View<T>> for Draw {
    ghost then = { drew };
}

// The place from which the last item was taken goes home.
pub struct Lay;

impl<T> Play<Option<T>, View<T>> for Lay {
    ghost then = { laid };
}

pub struct Cut;

impl<T> Split<View<T>> for Cut {
    ghost left = { split_left };

    ghost right = { split_right };
}

pub struct Glue;

impl<T> Join<View<T>> for Glue {
    ghost both = { joined };

    ghost spent = { spent_view };
}

/// Items that workers draw, each once.
#[derive(Drop)]
pub struct Tickets<T: Drop> {
    pub(crate) table: Board<T>,
    ghost sized: { IsSized table.shared.table_id table.shared.key.items.value.items table.shared.key.workers },
}

/// The right of one worker to draw. It has no bytes.
#[derive(Drop)]
pub struct Pass<T> {
    pub(crate) seat: Seat<Option<T>, View<T>>,
    ghost seated: { IsSeated seat.me },
}
