ghost use Rattle.std.specs.Prelude.{◌≡◌, ◌+◌, ◌<◌, ◌≤◌, ◌^◌, false, None, IfOk, OnErr};
ghost use Rattle.wm_store.specs.Fits.{Fits};
ghost use Rattle.wm_semantics.specs.Begin.{IsTarget};
ghost use Rattle.ic_behaviour.specs.Entry.{enters_by};
ghost use Rattle.ic_behaviour.specs.Installing.{enters_after};
ghost use Rattle.ic_state.specs.Seen.{code_of};
ghost use Rattle.ic_api.specs.System.{system_api};
ghost use Rattle.ic_api.specs.Executed.{Executed as KeepsRules};
ghost use Rattle.ic_api.specs.Hearing.{heard_after};
ghost use Rattle.ic_entry.specs.Entered.{outcome_by, outcome_in, told, store_after};

use ic_api::{
    Api, Hearing, entries_are_lawful, hearing_changes_nothing, hearing_is_function,
    host_is_function,
};
use ic_base::NoMemory;
use ic_heard::{Ear, Heard, Place, Places, Trapped};
use ic_principal::Text;
use ic_state::{Code, Effects, EntryKind, StorePlace, View};
use std::alloc::Global;
use std::mem::replace;
use wm_backtrace::{Located, locate};
use wm_run::{Backtrace, Traced, invoke, invoke_traced};
use wm_semantics::{Ended, Meter, Target, Trap};
use wm_store::Store;
use wm_valid::Valid;

/// Where code is entered, as what kind of entry point, and what it sees.
#[derive(Drop)]
pub struct Entry {
    pub target: Target,
    pub kind: EntryKind,
    pub view: View,
}

/// How code ended that was entered: what it did beside the store, or why it trapped.
#[derive(Drop)]
pub struct Entered {
    pub ended: Result<Effects, Trap>,
    /// How many instructions were used.
    pub used: u64,
}

// As `enter_after`, where nobody listens.
fn enter_unheard(
    alloc: Global,
    code: &Code,
    store: &mut Store,
    entry: Entry,
    meter: &mut Meter,
) -> Result<Result<Effects, Trap>, NoMemory>
    requires fits { Fits code.now.valid.«module» store.old.lists }
    requires target { IsTarget code.now.valid.«module» entry.target }
    requires cycles { entry.view.balance + entry.view.available < 2 ^ 127 }
    requires outstanding { entry.view.outstanding ≤ 500 }
    ensures outcome { IfOk result (λ ended. outcome_by store.new.lists meter.new.used ended
        ≡ enters_after system_api (code_of code.now) store.old.lists entry.target entry.kind entry.view meter.old.limit meter.old.used) }
    ensures fits { IfOk result (λ _. Fits code.now.valid.«module» store.new.lists) }
    ensures begun { store.new.begun ≡ store.old.begun }
    ensures limit { meter.new.limit ≡ meter.old.limit }
{
    host_is_function();
    let Entry { target, kind, view } = entry;
    let mut api = Api::new(alloc, kind, view);
    let ended = invoke(alloc, &code.valid, store, target, &mut api, meter)?;
    match ended {
        Ended::Returned => Ok(Ok(api.finish())),
        Ended::Trapped(cause) => Ok(Err(cause)),
    }
}

// As `enter_after`, where somebody listens; with the functions that were under way, if it trapped.
fn enter_traced(
    alloc: Global,
    code: &Code,
    store: &mut Store,
    entry: Entry,
    meter: &mut Meter,
    heard: &mut Heard,
) -> Result<(Result<Effects, Trap>, Backtrace), NoMemory>
    requires fits { Fits code.now.valid.«module» store.old.lists }
    requires target { IsTarget code.now.valid.«module» entry.target }
    requires cycles { entry.view.balance + entry.view.available < 2 ^ 127 }
    requires outstanding { entry.view.outstanding ≤ 500 }
    ensures outcome { IfOk result (λ r. outcome_by store.new.lists meter.new.used r.0
        ≡ enters_after system_api (code_of code.now) store.old.lists entry.target entry.kind entry.view meter.old.limit meter.old.used) }
    ensures heard { IfOk result (λ _. heard.new
        ≡ heard_after heard.old (code_of code.now) store.old.lists entry.target entry.kind entry.view meter.old.limit meter.old.used) }
    ensures fits { IfOk result (λ _. Fits code.now.valid.«module» store.new.lists) }
    ensures begun { store.new.begun ≡ store.old.begun }
    ensures limit { meter.new.limit ≡ meter.old.limit }
{
    hearing_is_function();
    hearing_changes_nothing();
    let Entry { target, kind, view } = entry;
    let spent = meter.used();
    let before = replace(heard, Heard::new(alloc));
    let mut host = Hearing::new(alloc, kind, view, before);
    let Traced { ended, backtrace } = invoke_traced(
        alloc,
        &code.valid,
        store,
        target,
        &mut host,
        meter,
    )?;
    let (api, now) = host.end();
    *heard = now;
    heard.spend(meter.used().saturating_sub(spent));
    match ended {
        Ended::Returned => Ok((Ok(api.finish()), backtrace)),
        Ended::Trapped(trap) => Ok((Err(trap), backtrace)),
    }
}

fn call_name(alloc: Global, located: &Located) -> Result<Option<Text>, NoMemory> {
    match &located.call {
        Some(call) => {
            let items = String::from_str(alloc, call.name())?;
            Ok(Some(Text { items }))
        }
        None => Ok(None),
    }
}

fn places_of(alloc: Global, located: &Located) -> Result<Places, NoMemory> {
    let mut items = Vec::new(alloc);
    for place in &located.places.items {
        let name = place.function.items.as_str();
        items.push(Place::new(alloc, name, place.offset)?)?;
    }
    Ok(Places { items })
}

// Keeps where it trapped, by names: the code may be another one when somebody asks.
fn keep_trap(
    alloc: Global,
    valid: &Valid,
    backtrace: &Backtrace,
    heard: &mut Heard,
) -> Result<(), NoMemory>
    ensures { heard.new ≡ heard.old }
{
    let located = locate(alloc, valid, backtrace)?;
    let call = call_name(alloc, &located)?;
    let places = places_of(alloc, &located)?;
    heard.trap(Trapped {
        call,
        places,
        more: located.more,
    })
}

/// As `enter_after`, where somebody listens, who also learns where it trapped. What is heard changes nothing else.
/// Without memory it is lost.
pub fn enter_heard(
    alloc: Global,
    code: &Code,
    store: &mut Store,
    entry: Entry,
    meter: &mut Meter,
    heard: &mut Heard,
) -> Result<Result<Effects, Trap>, NoMemory>
    requires fits { Fits code.now.valid.«module» store.old.lists }
    requires target { IsTarget code.now.valid.«module» entry.target }
    requires cycles { entry.view.balance + entry.view.available < 2 ^ 127 }
    requires outstanding { entry.view.outstanding ≤ 500 }
    ensures outcome { IfOk result (λ ended. outcome_by store.new.lists meter.new.used ended
        ≡ enters_after system_api (code_of code.now) store.old.lists entry.target entry.kind entry.view meter.old.limit meter.old.used) }
    ensures heard { IfOk result (λ _. heard.new
        ≡ heard_after heard.old (code_of code.now) store.old.lists entry.target entry.kind entry.view meter.old.limit meter.old.used) }
    ensures fits { IfOk result (λ _. Fits code.now.valid.«module» store.new.lists) }
    ensures begun { store.new.begun ≡ store.old.begun }
    ensures limit { meter.new.limit ≡ meter.old.limit }
{
    let (ended, backtrace) = enter_traced(alloc, code, store, entry, meter, heard)?;
    if ended.is_err() {
        keep_trap(alloc, &code.valid, &backtrace, heard)?;
    }
    Ok(ended)
}

/// Enters code, with a host of its own. What it uses is added to the meter. Whoever listens hears what it says.
pub fn enter_after(
    alloc: Global,
    code: &Code,
    store: &mut StorePlace,
    entry: Entry,
    meter: &mut Meter,
) -> Result<Result<Effects, Trap>, NoMemory>
    requires fits { Fits code.now.valid.«module» store.old.lists }
    requires target { IsTarget code.now.valid.«module» entry.target }
    requires cycles { entry.view.balance + entry.view.available < 2 ^ 127 }
    requires outstanding { entry.view.outstanding ≤ 500 }
    ensures outcome { IfOk result (λ ended. outcome_by store.new.lists meter.new.used ended
        ≡ enters_after system_api (code_of code.now) store.old.lists entry.target entry.kind entry.view meter.old.limit meter.old.used) }
    ensures fits { IfOk result (λ _. Fits code.now.valid.«module» store.new.lists) }
    ensures begun { store.new.begun ≡ store.old.begun }
    ensures limit { meter.new.limit ≡ meter.old.limit }
{
    match store.take_ear().into_heard() {
        None => enter_unheard(alloc, code, store.get_mut(), entry, meter),
        Some(heard) => {
            let mut heard = heard;
            let ended = enter_heard(alloc, code, store.get_mut(), entry, meter, &mut *heard);
            store.put_ear(Ear::of(heard));
            ended
        }
    }
}

// Enters code, with a host and a meter of its own.
fn enter(
    alloc: Global,
    code: &Code,
    store: &mut StorePlace,
    entry: Entry,
    limit: u64,
) -> Result<Entered, NoMemory>
    requires fits { Fits code.now.valid.«module» store.old.lists }
    requires target { IsTarget code.now.valid.«module» entry.target }
    requires cycles { entry.view.balance + entry.view.available < 2 ^ 127 }
    requires outstanding { entry.view.outstanding ≤ 500 }
    ensures outcome { IfOk result (λ e. outcome_in store.new.lists e ≡ enters_by system_api (code_of code.now) store.old.lists entry.target entry.kind entry.view limit) }
    ensures fits { IfOk result (λ _. Fits code.now.valid.«module» store.new.lists) }
    ensures begun { store.new.begun ≡ store.old.begun }
    ensures used { IfOk result (λ e. e.used ≤ limit) }
{
    let mut meter = Meter::new(limit);
    let ended = enter_after(alloc, code, store, entry, &mut meter)?;
    Ok(Entered {
        ended,
        used: meter.used(),
    })
}

/// Enters code as a message of its own: what it does to the store is kept where it returns and
/// `keeps` says so, and else undone. After `NoMemory` the store is as before.
pub fn attempt(
    alloc: Global,
    code: &Code,
    store: &mut StorePlace,
    entry: Entry,
    limit: u64,
    keeps: bool,
) -> Result<Entered, NoMemory>
    requires idle { store.old.begun ≡ None }
    requires fits { Fits code.now.valid.«module» store.old.lists }
    requires target { IsTarget code.now.valid.«module» entry.target }
    requires cycles { entry.view.balance + entry.view.available < 2 ^ 127 }
    requires outstanding { entry.view.outstanding ≤ 500 }
    ensures entered { IfOk result (λ e. e ≡ told (enters_by system_api (code_of code.now) store.old.lists entry.target entry.kind entry.view limit)) }
    ensures store { IfOk result (λ _. store.new.lists ≡ store_after keeps store.old.lists (enters_by system_api (code_of code.now) store.old.lists entry.target entry.kind entry.view limit)) }
    ensures same { OnErr result (store.new ≡ store.old) }
    ensures undone { keeps ≡ false → store.new ≡ store.old }
    ensures idle { store.new.begun ≡ None }
    ensures fits { Fits code.now.valid.«module» store.new.lists }
    ensures used { IfOk result (λ e. e.used ≤ limit) }
    ensures lawful { IfOk result (λ e. IfOk e.ended (KeepsRules entry.kind entry.view)) }
{
    entries_are_lawful();
    store.get_mut().begin();
    match enter(alloc, code, store, entry, limit) {
        Ok(entered) => {
            if keeps && entered.ended.is_ok() {
                store.get_mut().keep();
            } else {
                store.get_mut().undo();
            }
            Ok(entered)
        }
        Err(e) => {
            store.get_mut().undo();
            Err(e)
        }
    }
}
