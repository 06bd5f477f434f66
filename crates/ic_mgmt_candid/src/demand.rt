ghost use Rattle.std.specs.Prelude.{◌≡◌};
ghost use Rattle.ic_mgmt_candid.specs.Checks.{target, who};

use ic_behaviour::{Controllers, Mode};
use ic_principal::{Bytes, Principal};

/// What the argument of `install_code` says.
#[derive(Debug, Drop)]
pub struct InstallCode {
    pub mode: Mode,
    pub canister_id: Principal,
    pub wasm_module: Bytes,
    pub arg: Bytes,
}

/// A method of the management canister with what its argument says (IC Interface Specification,
/// "The IC management canister"). Controllers are none where the settings, or the controllers in
/// them, are left out; else they are listed as the argument has them, in its order, with repeats, and
/// as many as they are.
#[derive(Debug, Drop)]
pub enum Demand {
    CreateCanister {
        controllers: Option<Controllers>,
    },
    ProvisionalCreateCanisterWithCycles {
        /// In cycles; none where it is left out.
        amount: Option<u128>,
        controllers: Option<Controllers>,
    },
    ProvisionalTopUpCanister {
        canister_id: Principal,
        /// In cycles.
        amount: u128,
    },
    DepositCycles {
        canister_id: Principal,
    },
    UpdateSettings {
        canister_id: Principal,
        controllers: Option<Controllers>,
    },
    InstallCode(InstallCode),
    UninstallCode {
        canister_id: Principal,
    },
    StartCanister {
        canister_id: Principal,
    },
    StopCanister {
        canister_id: Principal,
    },
    DeleteCanister {
        canister_id: Principal,
    },
    CanisterStatus {
        canister_id: Principal,
    },
}

/// Who may make a demand.
#[derive(Clone, Copy, Debug, PartialEq, Eq)]
pub enum Who {
    All,
    Controllers,
    ControllersAndItself,
}

impl Demand {
    /// The canister that the demand is for. A new canister has no id yet.
    pub fn target(&self) -> Option<Principal>
        ensures { result ≡ target self.now }
    {
        match self {
            Demand::CreateCanister { .. } => None,
            Demand::ProvisionalCreateCanisterWithCycles { .. } => None,
            Demand::ProvisionalTopUpCanister { canister_id, .. } => Some(*canister_id),
            Demand::DepositCycles { canister_id } => Some(*canister_id),
            Demand::UpdateSettings { canister_id, .. } => Some(*canister_id),
            Demand::InstallCode(install) => Some(install.canister_id),
            Demand::UninstallCode { canister_id } => Some(*canister_id),
            Demand::StartCanister { canister_id } => Some(*canister_id),
            Demand::StopCanister { canister_id } => Some(*canister_id),
            Demand::DeleteCanister { canister_id } => Some(*canister_id),
            Demand::CanisterStatus { canister_id } => Some(*canister_id),
        }
    }

    /// Who may make it.
    pub fn who(&self) -> Who
        ensures { result ≡ who self.now }
    {
        match self {
            Demand::CreateCanister { .. } => Who::All,
            Demand::ProvisionalCreateCanisterWithCycles { .. } => Who::All,
            Demand::ProvisionalTopUpCanister { .. } => Who::All,
            Demand::DepositCycles { .. } => Who::All,
            Demand::CanisterStatus { .. } => Who::ControllersAndItself,
            Demand::UpdateSettings { .. } => Who::Controllers,
            Demand::InstallCode(_) => Who::Controllers,
            Demand::UninstallCode { .. } => Who::Controllers,
            Demand::StartCanister { .. } => Who::Controllers,
            Demand::StopCanister { .. } => Who::Controllers,
            Demand::DeleteCanister { .. } => Who::Controllers,
        }
    }
}
