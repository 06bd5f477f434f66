ghost use Rattle.std.specs.Prelude.{◌≡◌, ◌+◌, ◌-◌, ◌≤◌, ◌^◌, Some};
ghost use Rattle.ic_behaviour.specs.Installing.{enters_after};
ghost use Rattle.ic_api.specs.System.{system_api};
ghost use Rattle.ic_state.specs.IsCanister.{IsCanister, cycles_of};
ghost use Rattle.ic_mgmt_candid.specs.Checks.{target};
ghost use Rattle.ic_mgmt.specs.Ending.{IfMemory};
ghost use Rattle.ic_mgmt.specs.Changes.{IsOfOne, changes, DoesAt, KeepsCounts};

use crate::ending::Ending;
use crate::installing::{InstallEnv, install_code};
use crate::phases::{start, stop};
use crate::settings::{deposit, status, update_settings};
use crate::uninstalling::uninstall_code;
use ic_mgmt_candid::{Demand, Unmet};
use ic_principal::Principal;
use ic_state::{Canister, IncomingCall};
use std::alloc::Global;

/// Does what is demanded of this canister, which has this id, and changes nothing beside it.
pub fn change(
    alloc: Global,
    canister: &mut Canister,
    id: Principal,
    call: &IncomingCall,
    demand: Demand,
    env: InstallEnv,
) -> Result<Ending, Unmet>
    requires keeps { IsCanister canister.old }
    requires room { cycles_of canister.old + call.now.cycles ≤ 2 ^ 127 - 1 }
    requires target { target demand ≡ Some id }
    requires alone { IsOfOne demand }
    ensures does { DoesAt result call.now id canister.old canister.new
        (λ now s. changes (enters_after system_api) env.limit (record now { time = env.time }) s call.now id demand) }
    ensures counts { IfMemory result (KeepsCounts id canister.old canister.new) }
    ensures keeps { IfMemory result (IsCanister canister.new) }
{
    match demand {
        Demand::DepositCycles { .. } => deposit(alloc, canister, id, call),
        Demand::UpdateSettings { controllers, .. } => {
            update_settings(alloc, canister, id, call, controllers)
        }
        Demand::InstallCode(install) => install_code(alloc, canister, call, install, env),
        Demand::UninstallCode { .. } => uninstall_code(alloc, canister, id, call),
        Demand::StartCanister { .. } => start(alloc, canister, id, call),
        Demand::StopCanister { .. } => stop(alloc, canister, id, call),
        Demand::CanisterStatus { .. } => status(alloc, canister, id, call),
        _ => unreachable!(),
    }
}
