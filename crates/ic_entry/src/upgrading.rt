ghost use Rattle.std.specs.Prelude.{◌≡◌, ◌<◌, ◌≤◌, ◌^◌, is_some, Some, None, IfOk, OnErr};
ghost use Rattle.std.specs.Option.{IsSome};
ghost use Rattle.wm_store.specs.Fits.{Fits};
ghost use Rattle.ic_behaviour.specs.State.{Code as SomeCode};
ghost use Rattle.ic_behaviour.specs.Installing.{left, upgrade_steps};
ghost use Rattle.ic_state.specs.Seen.{seen, code_of};
ghost use Rattle.ic_state.specs.IsCanister.{FitsCode, IsCanister};
ghost use Rattle.ic_entry.specs.Installed.{asked_of, stage_of, Steps, Drafts};

use crate::staging::{
    Asked, Draft, Point, Stop, Told, install_view, new_store, run_point, start_heard,
};
use crate::views::no_bytes;
use ic_principal::Bytes;
use ic_state::{Canister, Code, EntryKind};
use std::alloc::Global;
use wm_run::entry_target;
use wm_semantics::Meter;
use wm_valid::EntryName;

// Runs `canister_pre_upgrade` of the old code on its own store, unless that is skipped.
fn run_pre_upgrade(
    alloc: Global,
    canister: &mut Canister,
    skips: bool,
    certified: &mut Bytes,
    asked: &Asked,
    meter: &mut Meter,
) -> Result<(), Stop>
    requires code { IsSome canister.old.code }
    requires fits { FitsCode canister.old.code canister.old.store.lists }
    requires cycles { canister.old.balance < 2 ^ 127 }
    requires outstanding { canister.old.outstanding ≤ 500 }
    requires limit { meter.old.limit ≡ asked.now.env.limit }
    ensures steps { (code : SomeCode) → (seen canister.old).code ≡ Some code
        → Steps result (stage_of canister.new.store.lists certified.new meter.new.used)
        (left (asked_of asked.now.env canister.old asked.now.sender) code skips (stage_of canister.old.store.lists certified.old meter.old.used)) }
    ensures rest { canister.new ≡ record canister.old { store = canister.new.store } }
    ensures begun { canister.new.store.begun ≡ canister.old.store.begun }
    ensures limit { meter.new.limit ≡ meter.old.limit }
{
    if skips {
        return Ok(());
    }
    let view = install_view(
        alloc,
        asked.env,
        canister,
        asked.sender,
        no_bytes(alloc),
        certified,
    )?;
    let Some(code) = &canister.code else {
        unreachable!();
    };
    let code = code.get();
    let point = Point {
        target: entry_target(&code.valid, EntryName::PreUpgrade, ""),
        kind: EntryKind::PreUpgrade,
    };
    *certified = run_point(alloc, code, point, view, &mut canister.store, meter)?;
    Ok(())
}

// The steps of an upgrade. Only the store of the canister changes, on which the old code is told.
fn upgrade_steps(
    alloc: Global,
    canister: &mut Canister,
    code: &Code,
    skips: bool,
    asked: Asked,
    meter: &mut Meter,
) -> Result<Draft, Stop>
    requires code { IsSome canister.old.code }
    requires fits { FitsCode canister.old.code canister.old.store.lists }
    requires cycles { canister.old.balance < 2 ^ 127 }
    requires outstanding { canister.old.outstanding ≤ 500 }
    requires limit { meter.old.limit ≡ asked.env.limit }
    ensures steps { (old : SomeCode) → (seen canister.old).code ≡ Some old
        → Drafts result meter.new.used
        (upgrade_steps (asked_of asked.env canister.old asked.sender) old (code_of code.now) skips asked.arg (stage_of canister.old.store.lists canister.old.certified meter.old.used)) }
    ensures fits { IfOk result (λ d. Fits code.now.valid.«module» d.store.lists) }
    ensures idle { IfOk result (λ d. d.store.begun ≡ None) }
    ensures rest { canister.new ≡ record canister.old { store = canister.new.store } }
    ensures begun { canister.new.store.begun ≡ canister.old.store.begun }
    ensures limit { meter.new.limit ≡ meter.old.limit }
{
    let mut certified = canister.certified.copy()?;
    run_pre_upgrade(alloc, canister, skips, &mut certified, &asked, meter)?;
    let store = new_store(
        alloc,
        &code.valid,
        canister.store.get().stable_pages(),
        canister.store.get().stable(),
    )?;
    let mut draft = Draft::begin(alloc, store, certified)?;
    let told = Told {
        name: EntryName::PostUpgrade,
        asked,
    };
    start_heard(alloc, canister, code, told, &mut draft, meter)?;
    Ok(draft)
}

/// The steps of an upgrade of a canister that has code, up to the last one. Where they stop, the
/// canister is as before.
pub fn upgrade(
    alloc: Global,
    canister: &mut Canister,
    code: &Code,
    skips: bool,
    asked: Asked,
    meter: &mut Meter,
) -> Result<Draft, Stop>
    requires keeps { IsCanister canister.old }
    requires code { IsSome canister.old.code }
    requires limit { meter.old.limit ≡ asked.env.limit }
    ensures steps { (old : SomeCode) → (seen canister.old).code ≡ Some old
        → Drafts result meter.new.used
        (upgrade_steps (asked_of asked.env canister.old asked.sender) old (code_of code.now) skips asked.arg (stage_of canister.old.store.lists canister.old.certified meter.old.used)) }
    ensures fits { IfOk result (λ d. Fits code.now.valid.«module» d.store.lists) }
    ensures idle { IfOk result (λ d. d.store.begun ≡ None) }
    ensures rest { canister.new ≡ record canister.old { store = canister.new.store } }
    ensures same { OnErr result (canister.new ≡ canister.old) }
    ensures limit { meter.new.limit ≡ meter.old.limit }
{
    canister.store.get_mut().begin();
    match upgrade_steps(alloc, canister, code, skips, asked, meter) {
        Ok(draft) => Ok(draft),
        Err(stop) => {
            canister.store.get_mut().undo();
            Err(stop)
        }
    }
}
