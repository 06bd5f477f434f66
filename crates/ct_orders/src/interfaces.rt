use ct_check::{
    CheckedAction, CheckedChange, CheckedKind, CheckedMove, CheckedOrigin, CheckedOutcome,
    CheckedOutcomes, MANAGEMENT,
};
use ct_outcomes::{Named, standing_at};
use ct_scope::InterfaceId;
use ic_base::NoMemory;
use ic_principal::Principal;
use std::alloc::Global;

/// The interfaces of canisters that have names, by the slots of these, from the first.
#[derive(Drop)]
pub(crate) struct Interfaces {
    items: Vec<(usize, InterfaceId)>,
}

fn has_replies(expected: &CheckedOutcomes<'_, '_>) -> bool {
    expected.items.is_empty()
        || expected
            .items
            .iter()
            .any(|outcome| matches!(outcome, CheckedOutcome::Replies(_)))
}

fn interface_of(origin: &CheckedOrigin<'_, '_>) -> InterfaceId {
    match origin {
        CheckedOrigin::Made(creation) => creation.interface,
        CheckedOrigin::Principal { interface, .. } => *interface,
        CheckedOrigin::Named { interface, .. } => *interface,
    }
}

fn is_principal_at(names: &[Named], slot: usize, id: &Principal) -> bool {
    match standing_at(names, slot) {
        None => false,
        Some(standing) => match standing.principal() {
            None => false,
            Some(found) => found.cmp(id).is_eq(),
        },
    }
}

impl Interfaces {
    /// That of the management canister.
    pub(crate) fn start(alloc: Global) -> Result<Interfaces, NoMemory> {
        let mut items = Vec::new(alloc);
        items.push((MANAGEMENT, InterfaceId::Management))?;
        Ok(Interfaces { items })
    }

    /// The interface that the first name of a canister has.
    pub(crate) fn find(&self, names: &[Named], id: &Principal) -> Option<InterfaceId> {
        for (slot, interface) in &self.items {
            if is_principal_at(names, *slot, id) {
                return Some(*interface);
            }
        }
        None
    }

    fn put(&mut self, slot: usize, interface: InterfaceId) {
        for item in &mut self.items {
            if item.0 == slot {
                item.1 = interface;
            }
        }
    }

    fn change(&mut self, change: &CheckedChange<'_, '_>) {
        if has_replies(&change.expected) {
            self.put(change.canister, change.interface);
        }
    }

    /// After a move: an upgrade or a reinstallation that may be replied to gives its canister another interface.
    pub(crate) fn pass_move(&mut self, made: &CheckedMove<'_, '_, '_>) {
        match &made.action {
            CheckedAction::Call(_) | CheckedAction::Query(_) => {}
            CheckedAction::Upgrade(change) => self.change(change),
            CheckedAction::Reinstall(change) => self.change(change),
        }
    }

    /// After a statement, and with the slot that it bound last.
    pub(crate) fn pass_statement(
        &mut self,
        kind: &CheckedKind<'_, '_, '_>,
        slot: usize,
    ) -> Result<(), NoMemory> {
        match kind {
            CheckedKind::Users(_) | CheckedKind::Time(_) => Ok(()),
            CheckedKind::Canister { origin, .. } => {
                self.items.push((slot, interface_of(origin)))?;
                Ok(())
            }
            CheckedKind::Move(made) => {
                self.pass_move(made);
                Ok(())
            }
        }
    }
}
