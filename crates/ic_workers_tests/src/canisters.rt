ghost use Rattle.std.specs.Prelude.{◌≡◌, [], IfSome};
ghost use Rattle.ic_behaviour.specs.Counted.{dropped};
ghost use Rattle.ic_behaviour.specs.Submitted.{IsNew};
ghost use Rattle.ic_state.specs.Seen.{seen};
ghost use Rattle.ic_state.specs.IsCanister.{IsCanister};

use ic_principal::Principal;
use ic_state::{Canister, Controllers};
use std::alloc::Global;

/// A canister without code.
pub fn empty_canister(alloc: Global, number: u64) -> Option<Canister>
    ensures new { IfSome result (λ c. IsNew number (dropped (seen c))) }
    ensures keeps { IfSome result IsCanister }
    ensures contexts { IfSome result (λ c. c.contexts ≡ []) }
    ensures balance { IfSome result (λ c. c.balance ≡ 0) }
{
    let controllers = Controllers {
        items: Vec::new(alloc),
    };
    Canister::new(alloc, Principal::canister_id(number), controllers, 0).ok()
}
