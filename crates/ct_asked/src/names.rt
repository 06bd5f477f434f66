ghost use Rattle.std.specs.Prelude.{◌≡◌};
ghost use Rattle.ct_asked.specs.Asked.{principal_at};

use ct_outcomes::{Named, standing_at};
use ic_principal::Principal;

/// The principal that the name in a slot stands for; a value that is no principal and no service has none.
pub fn principal_at(names: &[Named], slot: usize) -> Option<Principal>
    ensures { result ≡ principal_at names.now slot }
{
    match standing_at(names, slot) {
        None => None,
        Some(standing) => standing.principal(),
    }
}
