//! What holds of requests: each function does nothing, and its contract is the law.

ghost use Rattle.std.specs.Prelude.{◌≡◌, ◌<◌, ◌≤◌, ◌^◌, ℕ, List, length, Option, Some, None, IfSome, codes};
ghost use Rattle.cd_types.specs.FieldId.{field_id_of};
ghost use Rattle.ic_behaviour.specs.declared.install.Mode.{Mode as AMode};
ghost use Rattle.ic_mgmt_candid.specs.declared.method.Method.TheVariants as methods;
ghost use Rattle.ic_mgmt_candid.specs.declared.demand.Demand.TheVariants as demands;
ghost use Rattle.ic_mgmt_candid.specs.Demands.{demand_of};
ghost use Rattle.ic_mgmt_candid.specs.Replies.{canister_reply};
ghost use Rattle.ic_mgmt_requests.specs.Requests.{creation_argument, installation_argument, canister_named};

use crate::ids::{
    AMOUNT, ARG, CANISTER_ID, CONTROLLERS, INSTALL, MODE, REINSTALL, SETTINGS, SKIP_PRE_UPGRADE,
    UPGRADE, WASM_MODULE,
};
use cd_coerce::laws::one_answer;
use cd_sub::laws::decided;

/// Each id in a type is that of the field's or the case's name (Candid specification, "Shorthand:
/// Symbolic Field Ids").
pub fn field_ids()
    ensures arg { ARG ≡ field_id_of (codes "arg") }
    ensures reinstall { REINSTALL ≡ field_id_of (codes "reinstall") }
    ensures wasm_module { WASM_MODULE ≡ field_id_of (codes "wasm_module") }
    ensures controllers { CONTROLLERS ≡ field_id_of (codes "controllers") }
    ensures mode { MODE ≡ field_id_of (codes "mode") }
    ensures canister_id { CANISTER_ID ≡ field_id_of (codes "canister_id") }
    ensures skip_pre_upgrade { SKIP_PRE_UPGRADE ≡ field_id_of (codes "skip_pre_upgrade") }
    ensures upgrade { UPGRADE ≡ field_id_of (codes "upgrade") }
    ensures settings { SETTINGS ≡ field_id_of (codes "settings") }
    ensures install { INSTALL ≡ field_id_of (codes "install") }
    ensures amount { AMOUNT ≡ field_id_of (codes "amount") }
{}

/// The management canister reads in a request what it says.
pub fn requests_are_demands()
    // A canister with these cycles is demanded, without controllers.
    ensures creation { (cycles : Option ℕ) → IfSome cycles (λ n. n < 2 ^ 128)
        → demand_of methods.ProvisionalCreateCanisterWithCycles (creation_argument cycles) ≡ Some (demands.ProvisionalCreateCanisterWithCycles cycles None) }
    // The module is demanded in this canister, in this mode and with this argument.
    ensures installation { (mode : AMode) (canister wasm arg : List ℕ) → length canister ≤ 29 → length wasm < 2 ^ 64 → length arg < 2 ^ 64
        → demand_of methods.InstallCode (installation_argument mode canister wasm arg) ≡ Some (demands.InstallCode (record { mode = mode; canister_id = canister; wasm_module = wasm; arg = arg })) }
{
    decided();
    one_answer();
}

/// The reply with a canister, as to a creation, names it.
pub fn replies_name_canisters()
    ensures { (id : List ℕ) → length id ≤ 29 → canister_named (canister_reply id) ≡ Some id }
{
    decided();
    one_answer();
}
