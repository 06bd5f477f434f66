ghost use Rattle.std.specs.Prelude.{◌≡◌, ◌+◌, ◌*◌, ◌<◌, ◌≤◌, ◌^◌, [], None, is_some, option_map, length, IfOk, IfSome};
ghost use Rattle.wm_store.specs.Fits.{Fits};
ghost use Rattle.wm_semantics.specs.Instance.{instance};
ghost use Rattle.wm_semantics.specs.Begin.{IsTarget};
ghost use Rattle.ic_behaviour.specs.Installing.{enters_after, entered, with_stable, install_view, started};
ghost use Rattle.ic_state.specs.Seen.{seen, code_of};
ghost use Rattle.ic_api.specs.System.{system_api};
ghost use Rattle.ic_entry.specs.Installed.{asked_of, stage_of, Steps, Leaves, Makes};

use crate::asking::user_view;
use crate::entering::{Entry, enter_after};
use crate::views::no_bytes;
use ic_base::NoMemory;
use ic_behaviour::InstallFault;
use ic_principal::{Bytes, Principal};
use ic_state::{Canister, Code, EntryKind, Env, StorePlace, View};
use std::alloc::{AllocError, Global};
use wm_run::{InstanceFault, entry_target, instantiate, start_target};
use wm_semantics::{Meter, Target};
use wm_store::Store;
use wm_valid::{EntryName, Valid};

/// Why an installation does not go on.
#[derive(Drop)]
pub enum Stop {
    Refused(InstallFault),
    NoMemory,
}

impl From<AllocError> for Stop {
    ghost use Rattle.ic_entry.specs.declared.staging.Stop.TheVariants.{NoMemory};

    ghost from_gives = { λ _ e. e ≡ NoMemory };

    fn from(_e: AllocError) -> Stop {
        Stop::NoMemory
    }
}

/// The store and the certified data that new code has so far.
#[derive(Drop)]
pub struct Draft {
    pub store: StorePlace,
    pub certified: Bytes,
}

impl Draft {
    /// A new store with these certified data.
    pub fn begin(alloc: Global, store: Store, certified: Bytes) -> Result<Draft, NoMemory>
        ensures { IfOk result (λ d. d ≡ record { store = store; certified = certified }) }
    {
        let store = StorePlace::new(alloc, store)?;
        Ok(Draft { store, certified })
    }
}

// These pages become the stable memory of a store that has none.
fn fill_stable(store: &mut Store, pages: u32, stable: &[u8]) -> Result<(), NoMemory>
    requires none { store.old.lists.stable ≡ [] }
    requires whole { 65536 * pages ≡ length stable.now }
    requires few { pages ≤ 256 }
    ensures lists { IfOk result (λ _. store.new.lists ≡ with_stable stable.now store.old.lists) }
    ensures begun { store.new.begun ≡ store.old.begun }
{
    let grown = store.stable_grow(u64::from(pages))?;
    prove!(grown.is_some());
    let written = store.stable_write(0, stable)?;
    prove!(written.is_some());
    Ok(())
}

// The store that new code begins with: that of its module, with a copy of these pages as its stable
// memory.
pub fn new_store(alloc: Global, valid: &Valid, pages: u32, stable: &[u8]) -> Result<Store, Stop>
    requires whole { 65536 * pages ≡ length stable.now }
    requires few { pages ≤ 256 }
    ensures made { Makes result (option_map (with_stable stable.now) (instance valid.now.«module»)) }
    ensures fits { IfOk result (λ s. Fits valid.now.«module» s.lists) }
    ensures begun { IfOk result (λ s. s.begun ≡ None) }
{
    match instantiate(alloc, valid) {
        Ok(store) => {
            let mut store = store;
            fill_stable(&mut store, pages, stable)?;
            Ok(store)
        }
        Err(InstanceFault::SegmentOut) => Err(Stop::Refused(InstallFault::Segment)),
        Err(InstanceFault::NoMemory) => Err(Stop::NoMemory),
    }
}

// What an entry point of an installation sees.
pub fn install_view(
    alloc: Global,
    env: Env,
    canister: &Canister,
    sender: Principal,
    arg: Bytes,
    certified: &Bytes,
) -> Result<View, NoMemory>
    ensures { IfOk result (λ v. v ≡ install_view env (seen canister.now) sender arg certified.now) }
{
    let mut view = user_view(alloc, env, canister, sender, "", arg)?;
    view.certified = certified.copy()?;
    Ok(view)
}

/// An entry point or the start function, where code has it.
#[derive(Clone, Copy)]
pub struct Point {
    pub target: Option<Target>,
    pub kind: EntryKind,
}

// Runs the point, if the code has it, and gives the certified data that are left.
pub fn run_point(
    alloc: Global,
    code: &Code,
    point: Point,
    view: View,
    store: &mut StorePlace,
    meter: &mut Meter,
) -> Result<Bytes, Stop>
    requires fits { Fits code.now.valid.«module» store.old.lists }
    requires target { IfSome point.target (IsTarget code.now.valid.«module») }
    requires cycles { view.balance + view.available < 2 ^ 127 }
    requires outstanding { view.outstanding ≤ 500 }
    ensures leaves { Leaves result store.new.lists meter.new.used
        (entered (enters_after system_api) (code_of code.now) point.target point.kind view meter.old.limit (stage_of store.old.lists view.certified meter.old.used)) }
    ensures fits { IfOk result (λ _. Fits code.now.valid.«module» store.new.lists) }
    ensures begun { store.new.begun ≡ store.old.begun }
    ensures limit { meter.new.limit ≡ meter.old.limit }
{
    let Some(target) = point.target else {
        return Ok(view.certified);
    };
    let entry = Entry {
        target,
        kind: point.kind,
        view,
    };
    match enter_after(alloc, code, store, entry, meter)? {
        Ok(effects) => Ok(effects.certified),
        Err(cause) => Err(Stop::Refused(InstallFault::Trapped(cause))),
    }
}

/// What goes with an installation on its way: who asks for it, the caller of each entry point, and what new code
/// is told.
#[derive(Drop)]
pub struct Asked {
    pub arg: Bytes,
    pub sender: Principal,
    pub env: Env,
}

/// The entry point that new code is told by, and what it is told.
#[derive(Drop)]
pub struct Told {
    pub name: EntryName,
    pub asked: Asked,
}

// New code starts: its start function, and then the entry point with the argument.
fn start(
    alloc: Global,
    canister: &Canister,
    code: &Code,
    told: Told,
    draft: &mut Draft,
    meter: &mut Meter,
) -> Result<(), Stop>
    requires fits { Fits code.now.valid.«module» draft.old.store.lists }
    requires cycles { canister.now.balance < 2 ^ 127 }
    requires outstanding { canister.now.outstanding ≤ 500 }
    requires limit { meter.old.limit ≡ told.asked.env.limit }
    ensures steps { Steps result (stage_of draft.new.store.lists draft.new.certified meter.new.used)
        (started (asked_of told.asked.env canister.now told.asked.sender) (code_of code.now) told.name told.asked.arg (stage_of draft.old.store.lists draft.old.certified meter.old.used)) }
    ensures fits { IfOk result (λ _. Fits code.now.valid.«module» draft.new.store.lists) }
    ensures begun { draft.new.store.begun ≡ draft.old.store.begun }
    ensures limit { meter.new.limit ≡ meter.old.limit }
{
    let Told { name, asked } = told;
    let Asked { arg, sender, env } = asked;
    let point = Point {
        target: start_target(&code.valid),
        kind: EntryKind::Start,
    };
    let view = install_view(
        alloc,
        env,
        canister,
        sender,
        no_bytes(alloc),
        &draft.certified,
    )?;
    draft.certified = run_point(alloc, code, point, view, &mut draft.store, meter)?;
    let point = Point {
        target: entry_target(&code.valid, name, ""),
        kind: EntryKind::Init,
    };
    let view = install_view(alloc, env, canister, sender, arg, &draft.certified)?;
    draft.certified = run_point(alloc, code, point, view, &mut draft.store, meter)?;
    Ok(())
}

/// As `start`. Whoever listens to the canister hears what new code says, also where it is not installed.
pub fn start_heard(
    alloc: Global,
    canister: &mut Canister,
    code: &Code,
    told: Told,
    draft: &mut Draft,
    meter: &mut Meter,
) -> Result<(), Stop>
    requires fits { Fits code.now.valid.«module» draft.old.store.lists }
    requires cycles { canister.old.balance < 2 ^ 127 }
    requires outstanding { canister.old.outstanding ≤ 500 }
    requires limit { meter.old.limit ≡ told.asked.env.limit }
    ensures steps { Steps result (stage_of draft.new.store.lists draft.new.certified meter.new.used)
        (started (asked_of told.asked.env canister.old told.asked.sender) (code_of code.now) told.name told.asked.arg (stage_of draft.old.store.lists draft.old.certified meter.old.used)) }
    ensures fits { IfOk result (λ _. Fits code.now.valid.«module» draft.new.store.lists) }
    ensures begun { draft.new.store.begun ≡ draft.old.store.begun }
    ensures canister { canister.new ≡ canister.old }
    ensures limit { meter.new.limit ≡ meter.old.limit }
{
    draft.store.put_ear(canister.store.take_ear());
    let started = start(alloc, canister, code, told, draft, meter);
    canister.store.put_ear(draft.store.take_ear());
    started
}
