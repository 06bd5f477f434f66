ghost use Rattle.std.specs.Prelude.{◌≡◌};
ghost use Rattle.ic_queues.specs.Queued.{may_change_canisters, is_steady};

use ic_calls::is_management;
use ic_state::Message;

/// Whether a message makes and deletes no canister, by its callee and its method: only some calls to the management canister may.
pub fn is_steady(message: &Message) -> bool
    ensures { result ≡ is_steady message.now }
{
    match message {
        Message::Call { callee, method, .. } => {
            !(is_management(callee) && may_change_canisters(&method.items))
        }
        Message::Answer { .. } => true,
    }
}

// Whether a method of the management canister makes or deletes canisters.
fn may_change_canisters(method: &str) -> bool
    ensures { result ≡ may_change_canisters method.now }
{
    match method {
        "create_canister" => true,
        "provisional_create_canister_with_cycles" => true,
        "delete_canister" => true,
        _ => false,
    }
}
