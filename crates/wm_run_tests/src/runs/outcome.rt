ghost use Rattle.std.specs.Prelude.{IfOk};
ghost use Rattle.wm_store.specs.Fits.{Fits};
ghost use Rattle.wm_semantics.specs.Begin.{IsTarget};

use super::hosts::Counting;
use super::modules::module;
use std::alloc::Global;
use std::test::Fail;
use wm_decode::decode;
use wm_run::{Ended, Host, Meter, Target, entry_target, instantiate, invoke, start_target};
use wm_store::Store;
use wm_valid::{EntryName, Valid, validate};

/// Where a run begins.
#[derive(Clone, Copy, Debug)]
pub enum Beginning {
    /// The method `run`.
    Method,
    /// The start function.
    Start,
    /// A callback at a place of the table.
    Callback(u32),
}

/// How a run ended, what it used, and what it left.
#[derive(Debug, Drop)]
pub struct Outcome {
    pub text: String,
    pub used: u64,
    pub pages: u32,
    /// The first bytes of memory.
    pub bytes: [u8; 8],
}

fn text_of(ended: &Ended) -> &str {
    match ended {
        Ended::Returned => "returned",
        Ended::Trapped(trap) => trap.text(),
    }
}

pub fn valid_of(alloc: Global, bytes: &[u8]) -> Option<Valid> {
    match decode(alloc, bytes) {
        Ok(module) => validate(alloc, module).ok(),
        Err(_) => None,
    }
}

pub fn instance_of(alloc: Global, valid: &Valid) -> Result<Store, Fail>
    ensures { IfOk result (λ store. Fits valid.now.«module» store.lists) }
{
    match instantiate(alloc, valid) {
        Ok(store) => Ok(store),
        Err(fault) => Err(Fail::from(fault)),
    }
}

fn method_target(valid: &Valid) -> Result<Target, Fail>
    ensures { IfOk result (IsTarget valid.now.«module») }
{
    match entry_target(valid, EntryName::Update, "run") {
        Some(target) => Ok(target),
        None => Err(Fail::new("no method")),
    }
}

fn start_of(valid: &Valid) -> Result<Target, Fail>
    ensures { IfOk result (IsTarget valid.now.«module») }
{
    match start_target(valid) {
        Some(target) => Ok(target),
        None => Err(Fail::new("no start function")),
    }
}

fn target_of(valid: &Valid, beginning: Beginning) -> Result<Target, Fail>
    ensures { IfOk result (IsTarget valid.now.«module») }
{
    match beginning {
        Beginning::Method => method_target(valid),
        Beginning::Start => start_of(valid),
        Beginning::Callback(index) => Ok(Target::Element { index, env: 9 }),
    }
}

/// The first bytes of memory, or zeros where there are not that many.
fn first_bytes(store: &Store) -> [u8; 8] {
    let mut bytes = [0; 8];
    store.copy_out(0, &mut bytes);
    bytes
}

/// Runs a target on the store of its module.
fn run_target<H: Host>(
    alloc: Global,
    valid: &Valid,
    store: &mut Store,
    target: Target,
    limit: u64,
    host: &mut H,
) -> Result<Outcome, Fail>
    requires fits { Fits valid.now.«module» store.old.lists }
    requires target { IsTarget valid.now.«module» target }
{
    let mut meter = Meter::new(limit);
    let ended = invoke(alloc, valid, store, target, host, &mut meter)?;
    Ok(Outcome {
        text: String::from_str(alloc, text_of(&ended))?,
        used: meter.used(),
        pages: store.pages(),
        bytes: first_bytes(store),
    })
}

/// Runs the target on a new store.
fn run_valid<H: Host>(
    alloc: Global,
    valid: &Valid,
    beginning: Beginning,
    limit: u64,
    host: &mut H,
) -> Result<Outcome, Fail> {
    let target = target_of(valid, beginning)?;
    let mut store = instance_of(alloc, valid)?;
    run_target(alloc, valid, &mut store, target, limit, host)
}

/// Runs a module's function with a host.
pub fn run_module<H: Host>(
    alloc: Global,
    bytes: &[u8],
    beginning: Beginning,
    limit: u64,
    host: &mut H,
) -> Result<Outcome, Fail> {
    // The module is owned here alone: each place that may drop it is dear to prove.
    match valid_of(alloc, bytes) {
        Some(valid) => run_valid(alloc, &valid, beginning, limit, host),
        None => Err(Fail::new("no valid module")),
    }
}

/// Runs a body () -> () with two locals of type i32 and one of type i64, in the module of `modules`, with a host.
pub fn run_with<H: Host>(
    alloc: Global,
    body: &[u8],
    limit: u64,
    host: &mut H,
) -> Result<Outcome, Fail> {
    let bytes = module(alloc, 3, body)?;
    run_module(alloc, &bytes, Beginning::Method, limit, host)
}

/// Runs such a body with a host that counts.
pub fn run(alloc: Global, body: &[u8], limit: u64) -> Result<Outcome, Fail> {
    run_with(alloc, body, limit, &mut Counting { calls: 0 })
}
