ghost use Rattle.std.specs.Prelude.{◌≡◌, ◌≤◌, true, None, IfOk, OnErr};
ghost use Rattle.std.specs.Option.{IsSome};
ghost use Rattle.wm_store.specs.Fits.{Fits};
ghost use Rattle.ic_behaviour.specs.Installing.{enters_after, steps, first_stage, installed};
ghost use Rattle.ic_state.specs.Seen.{seen, code_of};
ghost use Rattle.ic_state.specs.IsCanister.{IsCanister};
ghost use Rattle.ic_api.specs.System.{system_api};
ghost use Rattle.ic_entry.specs.Installed.{installation_of, asked_of, is_upgrade, with_draft, refusal_of, Drafts};

use crate::staging::{Asked, Draft, Stop, Told, new_store, start_heard};
use crate::upgrading::upgrade;
use crate::views::no_bytes;
use ic_base::NoMemory;
use ic_behaviour::{InstallFault, Mode};
use ic_principal::{Bytes, Principal};
use ic_state::{Canister, Code, CodePlace, Env};
use std::alloc::{AllocError, Global};
use wm_semantics::Meter;
use wm_valid::EntryName;

/// What is installed, and how.
#[derive(Drop)]
pub struct Order {
    pub mode: Mode,
    pub code: Code,
    /// The argument of `canister_init` or `canister_post_upgrade`.
    pub arg: Bytes,
    /// Who asks for it, the caller of each entry point.
    pub sender: Principal,
}

/// A canister after an installation.
#[derive(Drop)]
pub struct Installed {
    pub canister: Canister,
    /// Why the code is not installed, if it is not.
    pub refusal: Option<InstallFault>,
    /// How many instructions all entry points used together.
    pub used: u64,
}

// The steps of an installation, up to the last one. Without an upgrade the canister's store and certified
// data go.
fn steps(
    alloc: Global,
    canister: &mut Canister,
    mode: Mode,
    code: &Code,
    asked: Asked,
    meter: &mut Meter,
) -> Result<Draft, Stop>
    requires keeps { IsCanister canister.old }
    requires upgraded { is_upgrade mode ≡ true → IsSome canister.old.code }
    requires limit { meter.old.limit ≡ asked.env.limit }
    requires fresh { meter.old.used ≡ 0 }
    ensures steps { Drafts result meter.new.used
        (steps (asked_of asked.env canister.old asked.sender) mode (seen canister.old).code (code_of code.now) asked.arg (first_stage (seen canister.old))) }
    ensures fits { IfOk result (λ d. Fits code.now.valid.«module» d.store.lists) }
    ensures idle { IfOk result (λ d. d.store.begun ≡ None) }
    ensures rest { canister.new ≡ record canister.old { store = canister.new.store } }
    ensures same { OnErr result (canister.new ≡ canister.old) }
    ensures limit { meter.new.limit ≡ meter.old.limit }
{
    match mode {
        Mode::Install | Mode::Reinstall => {
            let store = new_store(alloc, &code.valid, 0, &[])?;
            let mut draft = Draft::begin(alloc, store, no_bytes(alloc))?;
            let told = Told {
                name: EntryName::Init,
                asked,
            };
            start_heard(alloc, canister, code, told, &mut draft, meter)?;
            Ok(draft)
        }
        Mode::Upgrade { skip_pre_upgrade } => {
            upgrade(alloc, canister, code, skip_pre_upgrade, asked, meter)
        }
    }
}

// The canister gets the code with what was made for it, or stays as it is.
fn put_draft(
    canister: &mut Canister,
    code: CodePlace,
    ended: Result<Draft, Stop>,
) -> Result<Option<InstallFault>, NoMemory>
    ensures canister { canister.new ≡ with_draft canister.old code ended }
    ensures refusal { result ≡ refusal_of ended }
{
    match ended {
        Ok(draft) => {
            let Draft { store, certified } = draft;
            canister.code = Some(code);
            canister.store.move_from(store);
            canister.certified = certified;
            Ok(None)
        }
        Err(Stop::Refused(cause)) => Ok(Some(cause)),
        Err(Stop::NoMemory) => Err(AllocError),
    }
}

/// Installs code on a canister that is lent, as `install` does. Gives why the code is not installed, if it
/// is not, and how many instructions all entry points used together. After `NoMemory` the canister is as
/// before.
pub fn install_in(
    alloc: Global,
    canister: &mut Canister,
    order: Order,
    env: Env,
) -> Result<(Option<InstallFault>, u64), NoMemory>
    requires keeps { IsCanister canister.old }
    // What is upgraded has code.
    requires upgraded { is_upgrade order.mode ≡ true → IsSome canister.old.code }
    ensures installed { IfOk result (λ i. installation_of (record { canister = canister.new; refusal = i.0; used = i.1 })
        ≡ installed (enters_after system_api) env (seen canister.old) order.mode (code_of order.code) order.arg order.sender) }
    // Store, certified data and code too.
    ensures refused { IfOk result (λ i. IsSome i.0 → canister.new ≡ canister.old) }
    ensures same { OnErr result (canister.new ≡ canister.old) }
    ensures rest { canister.new ≡ record canister.old { code = canister.new.code; store = canister.new.store; certified = canister.new.certified } }
    ensures keeps { IsCanister canister.new }
    ensures used { IfOk result (λ i. i.1 ≤ env.limit) }
{
    let mut meter = Meter::new(env.limit);
    let Order {
        mode,
        code,
        arg,
        sender,
    } = order;
    let code = CodePlace::new(alloc, code)?;
    let asked = Asked { arg, sender, env };
    let ended = steps(alloc, canister, mode, code.get(), asked, &mut meter);
    let refusal = put_draft(canister, code, ended)?;
    Ok((refusal, meter.used()))
}

/// Installs code on a canister (IC Interface Specification, "IC method `install_code`"). One meter
/// with the limit serves all entry points, and nothing is paid for. An upgrade copies the stable
/// memory as the old code left it, so two of them are held at most. After `NoMemory` the canister is
/// dropped. This is for those who own the canister, as tests do: the management canister lends it to
/// `install_in`.
pub fn install(
    alloc: Global,
    canister: Canister,
    order: Order,
    env: Env,
) -> Result<Installed, NoMemory>
    requires keeps { IsCanister canister }
    // What is upgraded has code.
    requires upgraded { is_upgrade order.mode ≡ true → IsSome canister.code }
    ensures installed { IfOk result (λ i. installation_of i ≡ installed (enters_after system_api) env (seen canister) order.mode (code_of order.code) order.arg order.sender) }
    // Store, certified data and code too.
    ensures refused { IfOk result (λ i. IsSome i.refusal → i.canister ≡ canister) }
    ensures rest { IfOk result (λ i. i.canister ≡ record canister { code = i.canister.code; store = i.canister.store; certified = i.canister.certified }) }
    ensures keeps { IfOk result (λ i. IsCanister i.canister) }
    ensures used { IfOk result (λ i. i.used ≤ env.limit) }
{
    let mut canister = canister;
    let (refusal, used) = install_in(alloc, &mut canister, order, env)?;
    Ok(Installed {
        canister,
        refusal,
        used,
    })
}
