//! Columns for the users and canisters of a test.

use crate::svg::{LONGEST_NAME, width_of};
use ct_orders::{Delivery, TracedStatement};
use ct_outcomes::Named;
use ct_report::push_principal;
use ic_base::NoMemory;
use ic_principal::{Bytes, Principal};
use std::alloc::Global;

/// The least width of a column.
const COLUMN: usize = 200;

/// What is left free at the sides.
pub(crate) const MARGIN: usize = 12;

/// From whom a message comes, and to whom.
pub(crate) fn ends_of(delivery: &Delivery<'_>) -> (Principal, Principal) {
    match delivery {
        Delivery::Call { sender, callee, .. } => (*sender, *callee),
        Delivery::Answer { caller, callee, .. } => (*callee, *caller),
    }
}

/// Who has which column, their names, and how wide each column is.
#[derive(Drop)]
pub(crate) struct Columns {
    pub(crate) ids: Vec<Principal>,
    pub(crate) names: Vec<Bytes>,
    pub(crate) width: usize,
}

impl Columns {
    fn place(&self, id: &Principal) -> Option<usize> {
        self.ids.iter().position(|other| other.cmp(id).is_eq())
    }

    fn add(&mut self, id: &Principal) -> Result<(), NoMemory> {
        match self.place(id) {
            Some(_) => Ok(()),
            None => {
                self.ids.push(*id)?;
                Ok(())
            }
        }
    }

    fn add_statement(&mut self, statement: &TracedStatement<'_>) -> Result<(), NoMemory> {
        for traced in &statement.deliveries {
            let (sender, receiver) = ends_of(&traced.delivery);
            self.add(&sender)?;
            self.add(&receiver)?;
        }
        Ok(())
    }

    // Names for the columns. The longest says how wide they are.
    fn name(&mut self, alloc: Global, names: &[Named]) -> Result<(), NoMemory> {
        for id in &self.ids {
            let mut items = Vec::new(alloc);
            push_principal(alloc, names, id, &mut items)?;
            let wide = width_of(&items, LONGEST_NAME).saturating_add(MARGIN);
            self.width = self.width.max(wide);
            self.names.push(Bytes { items })?;
        }
        Ok(())
    }

    /// The columns of a test.
    pub(crate) fn of(
        alloc: Global,
        statements: &[TracedStatement<'_>],
        names: &[Named],
    ) -> Result<Columns, NoMemory> {
        let mut columns = Columns {
            ids: Vec::new(alloc),
            names: Vec::new(alloc),
            width: COLUMN,
        };
        for statement in statements {
            columns.add_statement(statement)?;
        }
        columns.name(alloc, names)?;
        Ok(columns)
    }

    /// The middle of a column, from the left.
    pub(crate) fn middle(&self, place: usize) -> usize {
        let before = self.width.saturating_mul(place);
        MARGIN.saturating_add(before).saturating_add(self.width / 2)
    }

    pub(crate) fn middle_of(&self, id: &Principal) -> usize {
        self.middle(self.place(id).unwrap_or(0))
    }
}
