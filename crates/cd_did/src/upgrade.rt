ghost use Rattle.std.specs.Prelude.{◌≡◌, ◌↔◌, IfOk, IsTrue};
ghost use Rattle.cd_did.specs.Interfaces.{has_service, Upgrades};

use crate::fault::Interface;
use cd_sub::subtype;
use ic_base::NoMemory;
use std::alloc::Global;

impl Interface {
    /// Whether there is a service, and its type is within the table.
    pub fn has_service(&self) -> bool
        ensures { result ≡ has_service self.now }
    {
        match self.service {
            None => false,
            Some(service) => self.table.contains(service),
        }
    }
}

/// Whether a canister may be upgraded from one interface to another: each caller of the old service
/// can call the new one (Candid specification, "Upgrading and Subtyping").
pub fn upgradable(alloc: Global, old: &Interface, new: &Interface) -> Result<bool, NoMemory>
    requires old { IsTrue (has_service old.now) }
    requires new { IsTrue (has_service new.now) }
    ensures { IfOk result (λ yes. IsTrue yes ↔ Upgrades old.now new.now) }
{
    match old.service {
        None => unreachable!(),
        Some(before) => match new.service {
            None => unreachable!(),
            Some(after) => subtype(alloc, &new.table, after, &old.table, before),
        },
    }
}
