ghost use Rattle.std.specs.Prelude.{◌≡◌, IfOk};
ghost use Rattle.ic_calls.specs.Texts as texts;

use ic_base::NoMemory;
use ic_principal::Text;
use ic_state::Response;
use std::alloc::Global;

// The reject code of the standard for what a canister refuses.
const CANISTER_REJECT: u32 = 4;

/// For a call whose canister was uninstalled before it answered.
pub(crate) fn uninstalled(alloc: Global) -> Result<Response, NoMemory>
    ensures { IfOk result (λ r. r ≡ texts.uninstalled) }
{
    Ok(Response::Reject {
        code: CANISTER_REJECT,
        message: Text {
            items: String::from_str(alloc, "canister has been uninstalled")?,
        },
    })
}

/// For a call that waited for a canister to stop, which runs again.
pub(crate) fn restarted(alloc: Global) -> Result<Response, NoMemory>
    ensures { IfOk result (λ r. r ≡ texts.restarted) }
{
    Ok(Response::Reject {
        code: CANISTER_REJECT,
        message: Text {
            items: String::from_str(alloc, "canister has been restarted")?,
        },
    })
}
