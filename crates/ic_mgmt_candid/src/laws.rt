//! What holds of calls to the management canister: each function does nothing, and its contract is
//! the law.

ghost use Rattle.std.specs.Prelude.{◌≡◌, ◌↔◌, ◌<◌, ℕ, Bool, false, List, [], Some, None, Ok, Err, codes};
ghost use Rattle.std.specs.List.{AllByRecursion};
ghost use Rattle.cd_types.specs.FieldId.{field_id_of};
ghost use Rattle.cd_codec.specs.Content.{Content};
ghost use Rattle.cd_codec.specs.Message.{message_spelling};
ghost use Rattle.cd_coerce.specs.Decodes.{Decodes};
ghost use Rattle.wm_tree.specs.declared.parts.Module.{Module as AModule};
ghost use Rattle.wm_decode.specs.declared.fault.ModuleFault.{ModuleFault};
ghost use Rattle.wm_decode.specs.declared.fault.ModuleFault.TheVariants.{NoMemory};
ghost use Rattle.wm_decode.specs.Answer.{IsPlain, HasModule, Comes};
ghost use Rattle.wm_decode.specs.Mod.{Mod};
ghost use Rattle.wm_decode.specs.Readers.{module_at};
ghost use Rattle.wm_valid.specs.Checked.{checked};
ghost use Rattle.ic_behaviour.specs.declared.call.Response.TheVariants.{Reply};
ghost use Rattle.ic_behaviour.specs.Closing.{empty_reply};
ghost use Rattle.ic_mgmt_candid.specs.declared.cause.Cause.TheVariants.{Undecoded};
ghost use Rattle.ic_mgmt_candid.specs.declared.denial.Denial.TheVariants.{ModuleRefused};
ghost use Rattle.ic_mgmt_candid.specs.declared.ids.TheConstants.{ARG, STATUS, REINSTALL, WASM_MODULE, CONTROLLERS, MEMORY_SIZE, STOPPED, MODE, CANISTER_ID, SKIP_PRE_UPGRADE, UPGRADE, CYCLES, SETTINGS, INSTALL, MODULE_HASH, STOPPING, AMOUNT, RUNNING};
ghost use Rattle.ic_mgmt_candid.specs.declared.method.Method.{Method as AMethod};
ghost use Rattle.ic_mgmt_candid.specs.declared.demand.Demand.{Demand as ADemand};
ghost use Rattle.ic_mgmt_candid.specs.Demands.{type_of, picked, demand_of};
ghost use Rattle.ic_mgmt_candid.specs.Modules.{module_of};

use cd_coerce::laws::{decoded_has_the_types, one_answer};

/// Each id in a type is that of the field's or the case's name (Candid specification, "Shorthand:
/// Symbolic Field Ids").
pub fn field_ids()
    ensures arg { ARG ≡ field_id_of (codes "arg") }
    ensures status { STATUS ≡ field_id_of (codes "status") }
    ensures reinstall { REINSTALL ≡ field_id_of (codes "reinstall") }
    ensures wasm_module { WASM_MODULE ≡ field_id_of (codes "wasm_module") }
    ensures controllers { CONTROLLERS ≡ field_id_of (codes "controllers") }
    ensures memory_size { MEMORY_SIZE ≡ field_id_of (codes "memory_size") }
    ensures stopped { STOPPED ≡ field_id_of (codes "stopped") }
    ensures mode { MODE ≡ field_id_of (codes "mode") }
    ensures canister_id { CANISTER_ID ≡ field_id_of (codes "canister_id") }
    ensures skip_pre_upgrade { SKIP_PRE_UPGRADE ≡ field_id_of (codes "skip_pre_upgrade") }
    ensures upgrade { UPGRADE ≡ field_id_of (codes "upgrade") }
    ensures cycles { CYCLES ≡ field_id_of (codes "cycles") }
    ensures settings { SETTINGS ≡ field_id_of (codes "settings") }
    ensures install { INSTALL ≡ field_id_of (codes "install") }
    ensures module_hash { MODULE_HASH ≡ field_id_of (codes "module_hash") }
    ensures stopping { STOPPING ≡ field_id_of (codes "stopping") }
    ensures amount { AMOUNT ≡ field_id_of (codes "amount") }
    ensures running { RUNNING ≡ field_id_of (codes "running") }
{}

/// An argument demands something exactly where it decodes at the method's type.
pub fn demands_what_decodes()
    // The values that it decodes to say what is demanded,
    ensures given { (method : AMethod) (bytes : List ℕ) (values : List Content) → AllByRecursion (λ b. b < 256) bytes → Decodes (type_of method) bytes values
        → (demand : ADemand) × (picked method values ≡ Some demand) × (demand_of method bytes ≡ Some demand) }
    // and one that does not decode demands nothing.
    ensures none { (method : AMethod) (bytes : List ℕ) → ((values : List Content) → Decodes (type_of method) bytes values → ⊥) → demand_of method bytes ≡ None }
{
    one_answer();
    decoded_has_the_types();
}

/// Bytes are a module that is installed exactly where they are one by the binary grammar, neither
/// too large nor compressed, that passes every check of validation.
pub fn installs_valid_modules()
    ensures { (bytes : List ℕ) (m : AModule) → (module_of bytes ≡ Ok m) ↔ (IsPlain bytes × Mod false m bytes × (checked m ≡ None)) }
{}

/// Which fault of bytes that are no module is told, by the binary grammar.
pub fn tells_each_fault()
    // Bytes are read as the module that they spell, with float forms or without,
    ensures read { (float : Bool) (bytes : List ℕ) (m : AModule) → (module_at float bytes ≡ Some m) ↔ Mod float m bytes }
    // and as none where they spell none.
    ensures unread { (float : Bool) (bytes : List ℕ) → (module_at float bytes ≡ None) ↔ (HasModule float bytes → ⊥) }
    // So each fault is told exactly where it comes; that memory ran out is none.
    ensures fault { (bytes : List ℕ) (fault : ModuleFault) → (module_of bytes ≡ Err (ModuleRefused (Undecoded fault))) ↔ (Comes bytes fault × (fault ≡ NoMemory → ⊥)) }
{}

/// The reply without values is the message of no values.
pub fn empty_reply_is_a_message()
    ensures { empty_reply ≡ Reply (message_spelling [] [] []) }
{}
