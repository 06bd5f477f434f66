ghost use Rattle.std.specs.Prelude.{◌≡◌, OnOk};
ghost use Rattle.ct_scope.specs.Scope.{bound_at, seen_at, within, with_bound, with_interface, settled};

use crate::bound::{Bound, InterfaceId, Kind};
use crate::names::ByName;
use ic_base::NoMemory;
use std::alloc::{AllocError, Global};
use std::marker::Model;

/// The names of a part of a test file, as the preamble or a test. Contracts see those around it, its
/// own, how many slots are taken, and of how many the names are seen.
#[derive(Drop)]
pub struct Scope<'o> {
    outer: &'o ByName<Bound>,
    inner: ByName<Bound>,
    slots: usize,
    seen: usize,
}

impl<'o> Model for Scope<'o> {
    ghost use Rattle.ct_scope.specs.Scope.{NamesInScope};

    ghost Value = { NamesInScope };

    ghost view = { λ s. record { outer = s.outer.now; inner = s.inner; slots = s.slots; seen = s.seen } };
}

impl<'o> Scope<'o> {
    /// A part that has bound nothing yet, in which these names are seen, which have as many slots.
    pub fn within(alloc: Global, outer: &'o ByName<Bound>, slots: usize) -> Scope<'o>
        ensures { result ≡ within outer.now slots }
    {
        Scope {
            outer,
            inner: ByName::new(alloc),
            slots,
            seen: slots,
        }
    }

    /// What the name is bound to, be it seen yet or not.
    pub fn bound(&self, name: &[u8]) -> Option<Bound>
        ensures { result ≡ bound_at self.now name.now }
    {
        match self.inner.get(name) {
            Some(bound) => Some(bound),
            None => self.outer.get(name),
        }
    }

    /// What the name is bound to, if it is seen.
    pub fn seen(&self, name: &[u8]) -> Option<Bound>
        ensures { result ≡ seen_at self.now name.now }
    {
        match self.bound(name) {
            Some(bound) => {
                if bound.slot < self.seen {
                    Some(bound)
                } else {
                    None
                }
            }
            None => None,
        }
    }

    /// How many slots are taken.
    pub fn slots(&self) -> usize
        ensures { result ≡ self.now.slots }
    {
        self.slots
    }

    /// Binds a name to the next slot. It is not seen yet.
    pub fn bind(&mut self, alloc: Global, name: &[u8], kind: Kind) -> Result<(), NoMemory>
        ensures { OnOk result (self.new ≡ with_bound self.old name.now kind) }
    {
        let slot = self.slots;
        self.slots = slot.checked_add(1).ok_or(AllocError)?;
        self.inner.put(alloc, name, Bound { slot, kind })
    }

    /// Gives a canister, which is in this slot, another interface.
    pub fn put_interface(
        &mut self,
        alloc: Global,
        name: &[u8],
        slot: usize,
        interface: InterfaceId,
    ) -> Result<(), NoMemory>
        ensures { OnOk result (self.new ≡ with_interface self.old name.now slot interface) }
    {
        let kind = Kind::Canister(interface);
        self.inner.put(alloc, name, Bound { slot, kind })
    }

    /// From here on all names are seen.
    pub fn settle(&mut self)
        ensures { self.new ≡ settled self.old }
    {
        self.seen = self.slots;
    }

    /// The names that the part has bound.
    pub fn into_names(self) -> ByName<Bound>
        ensures { result ≡ self.entry.inner }
    {
        self.inner
    }
}
