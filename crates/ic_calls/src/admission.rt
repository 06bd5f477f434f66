ghost use Rattle.std.specs.Prelude.{◌≡◌, IfOk};
ghost use Rattle.ic_behaviour.specs.Local.{admit};
ghost use Rattle.ic_state.specs.Seen.{seen};
ghost use Rattle.ic_calls.specs.Received.{CanEnter};

use ic_state::{Admitted, Canister, Phase, Refusal};
use wm_valid::EntryName;

/// The function that a call of this method enters, or why the canister takes no such call (IC
/// Interface Specification, "Call context creation"). A stopping canister takes none.
pub fn admit(canister: &Canister, method: &str) -> Result<Admitted, Refusal>
    ensures admitted { result ≡ admit (seen canister.now) method.now }
    // What it enters takes nothing and gives nothing.
    ensures entry { IfOk result (CanEnter canister.now.code) }
{
    let Phase::Running = &canister.phase else {
        return Err(Refusal::NotRunning);
    };
    let Some(code) = &canister.code else {
        return Err(Refusal::NoModule);
    };
    let code = code.get();
    if let Some(function) = code.valid.entry(EntryName::Update, method) {
        return Ok(Admitted::Update(function));
    }
    match code.valid.entry(EntryName::Query, method) {
        Some(function) => Ok(Admitted::Query(function)),
        None => Err(Refusal::NoMethod),
    }
}
