ghost use Rattle.std.specs.Prelude.{◌≡◌};
ghost use Rattle.ic_mgmt_candid.specs.Methods.{method_of, is_only_for_canisters};

/// The methods of the management canister (IC Interface Specification, "The IC management
/// canister") that this replica has.
#[derive(Clone, Copy, Debug, PartialEq, Eq)]
pub enum Method {
    CreateCanister,
    ProvisionalCreateCanisterWithCycles,
    ProvisionalTopUpCanister,
    DepositCycles,
    UpdateSettings,
    InstallCode,
    UninstallCode,
    StartCanister,
    StopCanister,
    DeleteCanister,
    CanisterStatus,
}

impl Method {
    /// The method of this name.
    pub fn of_name(name: &str) -> Option<Method>
        ensures { result ≡ method_of name.now }
    {
        match name {
            "create_canister" => Some(Method::CreateCanister),
            "provisional_create_canister_with_cycles" => {
                Some(Method::ProvisionalCreateCanisterWithCycles)
            }
            "provisional_top_up_canister" => Some(Method::ProvisionalTopUpCanister),
            "deposit_cycles" => Some(Method::DepositCycles),
            "update_settings" => Some(Method::UpdateSettings),
            "install_code" => Some(Method::InstallCode),
            "uninstall_code" => Some(Method::UninstallCode),
            "start_canister" => Some(Method::StartCanister),
            "stop_canister" => Some(Method::StopCanister),
            "delete_canister" => Some(Method::DeleteCanister),
            "canister_status" => Some(Method::CanisterStatus),
            _ => None,
        }
    }

    /// Whether calls of users are refused.
    pub fn is_only_for_canisters(self) -> bool
        ensures { result ≡ is_only_for_canisters self }
    {
        matches!(self, Method::CreateCanister | Method::DepositCycles)
    }
}
