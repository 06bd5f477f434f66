ghost use Rattle.std.specs.Prelude.{◌≡◌, true, option_map, OnOk};
ghost use Rattle.std.specs.Option.{IsSome};
ghost use Rattle.ic_behaviour.specs.Installing.{enters_after};
ghost use Rattle.ic_api.specs.System.{system_api};
ghost use Rattle.ic_state.specs.Seen.{code_of as seen_code};
ghost use Rattle.ic_state.specs.IsCanister.{IsCanister};
ghost use Rattle.ic_mgmt_candid.specs.Checks.{MeetsBy};
ghost use Rattle.ic_mgmt_candid.specs.Modules.{code_of};
ghost use Rattle.ic_mgmt_laws.specs.Rows.{installs, unless_unsuited, unless_refused};
ghost use Rattle.ic_entry.specs.Installed.{is_upgrade};
ghost use Rattle.ic_mgmt.specs.Ending.{IfMemory};
ghost use Rattle.ic_mgmt.specs.Changes.{DoesAt, KeepsCounts};

use crate::ending::{Ending, done};
use ic_behaviour::{InstallFault, Mode};
use ic_exec::{Order, install_in};
use ic_mgmt_candid::{Denial, InstallCode, Unmet, hash_of, module_of};
use ic_principal::Bytes;
use ic_state::{Canister, Code, CodePlace, Env, IncomingCall};
use std::alloc::Global;

/// What an installation runs under. It has no price, since nothing is charged.
#[derive(Clone, Copy)]
pub struct InstallEnv {
    /// Nanoseconds since 1970-01-01.
    pub time: u64,
    /// The most instructions that all its entry points may use together.
    pub limit: u64,
}

fn code_of(alloc: Global, bytes: &Bytes) -> Result<Code, Unmet>
    ensures { MeetsBy seen_code result (code_of bytes.now) }
{
    let valid = module_of(alloc, &bytes.items)?;
    let hash = hash_of(&bytes.items);
    Ok(Code { valid, hash })
}

// The mode suits a canister with this code, or without.
fn unless_unsuited(mode: Mode, code: &Option<CodePlace>) -> Result<(), Denial>
    ensures suits { result ≡ unless_unsuited mode (option_map seen_code code.now) }
    ensures upgraded { OnOk result (is_upgrade mode ≡ true → IsSome code.now) }
{
    match mode {
        Mode::Install if code.is_some() => Err(Denial::HasModule),
        Mode::Upgrade { .. } if code.is_none() => Err(Denial::NoModule),
        _ => Ok(()),
    }
}

// The code is installed, or why it is not.
fn unless_refused(refusal: Option<InstallFault>) -> Result<(), Denial>
    ensures { result ≡ unless_refused refusal }
{
    match refusal {
        Some(fault) => Err(Denial::NotInstalled(fault)),
        None => Ok(()),
    }
}

/// Installs code (IC Interface Specification, "IC method install_code").
pub fn install_code(
    alloc: Global,
    canister: &mut Canister,
    call: &IncomingCall,
    install: InstallCode,
    env: InstallEnv,
) -> Result<Ending, Unmet>
    requires keeps { IsCanister canister.old }
    ensures does { DoesAt result call.now install.canister_id canister.old canister.new
        (λ now s. installs (enters_after system_api) env.limit (record now { time = env.time }) s call.now install) }
    ensures counts { IfMemory result (KeepsCounts install.canister_id canister.old canister.new) }
    ensures keeps { IfMemory result (IsCanister canister.new) }
{
    let InstallCode {
        mode,
        wasm_module,
        arg,
        ..
    } = install;
    let code = code_of(alloc, &wasm_module)?;
    unless_unsuited(mode, &canister.code)?;
    let order = Order {
        mode,
        code,
        arg,
        sender: call.sender,
    };
    let env = Env {
        time: env.time,
        limit: env.limit,
        price: 0,
    };
    let (refusal, _) = install_in(alloc, canister, order, env)?;
    unless_refused(refusal)?;
    Ok(done(alloc, call.cycles)?)
}
