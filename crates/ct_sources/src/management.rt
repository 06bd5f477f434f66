ghost use Rattle.std.specs.Prelude.{◌≡◌, IfOk};
ghost use Rattle.ct_sources.specs.IsSourceOf.{IsSourceOf};

use crate::source::Source;
use ic_base::NoMemory;
use ic_principal::Bytes;
use std::alloc::Global;

/// The interface of the management canister (IC Interface Specification, "The IC management canister"):
/// the methods of it that there are here.
pub const MANAGEMENT: &str =
    "service : { create_canister : (record { settings : opt record { controllers : opt vec principal } }) -> (record { canister_id : principal }); provisional_create_canister_with_cycles : (record { amount : opt nat; settings : opt record { controllers : opt vec principal } }) -> (record { canister_id : principal }); provisional_top_up_canister : (record { canister_id : principal; amount : nat }) -> (); deposit_cycles : (record { canister_id : principal }) -> (); update_settings : (record { canister_id : principal; settings : record { controllers : opt vec principal } }) -> (); install_code : (record { mode : variant { install; reinstall; upgrade : opt record { skip_pre_upgrade : opt bool } }; canister_id : principal; wasm_module : blob; arg : blob }) -> (); uninstall_code : (record { canister_id : principal }) -> (); start_canister : (record { canister_id : principal }) -> (); stop_canister : (record { canister_id : principal }) -> (); delete_canister : (record { canister_id : principal }) -> (); canister_status : (record { canister_id : principal }) -> (record { status : variant { running; stopping; stopped }; settings : record { controllers : vec principal }; module_hash : opt blob; memory_size : nat; cycles : nat }); }";

fn text() -> &'static str
    ensures { result.now ≡ MANAGEMENT.now }
{
    MANAGEMENT
}

/// The interface file of the management canister.
pub(crate) fn management(alloc: Global) -> Result<Source, NoMemory>
    ensures { IfOk result (IsSourceOf MANAGEMENT.now) }
{
    let items = Vec::from_slice(alloc, text().as_bytes())?;
    Source::of(alloc, Bytes { items })
}
