use crate::outbox_entry::OutboxEntry;
use crate::slot::Slot;
use ic_outside::Gate;
use ic_state::BoundedEnv;
use ic_tickets::{Pass, Tickets};
use std::alloc::Global;

/// What workers share.
pub struct Shop<'a, G: Gate> {
    pub alloc: Global,
    pub tickets: &'a Tickets<Slot>,
    pub env: BoundedEnv,
    pub gate: &'a G,
}

/// A worker, with what came of the slots that it drew.
#[derive(Drop)]
pub struct Worker {
    pub number: u32,
    pub pass: Pass<Slot>,
    pub outbox: Vec<OutboxEntry>,
}
