//! The deliveries of statements, as a trace tells them.

use crate::delivery::{CalledList, Delivery, Naming};
use ct_file::Span;
use ct_run::Names;
use ct_script::Delivered;
use ic_base::NoMemory;
use std::alloc::Global;

/// A delivery of a statement by its number, the instructions that were used in it, and the cycles that were burned.
#[derive(Drop)]
pub struct Traced<'i> {
    pub number: u64,
    pub delivery: Delivery<'i>,
    pub used: u64,
    pub burned: u128,
}

/// A statement, or a move of an interleave, with what names stand for after it, and its last deliveries.
#[derive(Drop)]
pub struct TracedStatement<'i> {
    pub span: Span,
    pub names: Names,
    pub deliveries: Vec<Traced<'i>>,
    /// How many deliveries came before these.
    pub earlier: u64,
}

/// Deliveries as they are told, one after another.
pub(crate) fn all_traced<'i>(
    alloc: Global,
    called: &mut CalledList,
    naming: Naming<'_, 'i>,
    delivered: Vec<Delivered>,
) -> Result<Vec<Traced<'i>>, NoMemory> {
    let mut items = Vec::new(alloc);
    for one in delivered {
        let delivery = called.delivery_of(naming, &one.sent)?;
        called.pass_sent(&one.sent)?;
        items.push(Traced {
            number: one.number,
            delivery,
            used: one.used,
            burned: one.burned,
        })?;
    }
    Ok(items)
}
