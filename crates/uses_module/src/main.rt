//! Reads WebAssembly modules, says in words why one is refused, and runs a query of a good one with a
//! host of three calls.
#![tactic(auto)]

ghost use Rattle.std.specs.Prelude.{IfOk};
ghost use Rattle.wm_tree.specs.IsModule.{IsModule};

mod bytes;
mod clock;
mod words;

use anyhow::{Context, anyhow, bail};
use bytes::{FOUR_IMPORTS, ONE_EXPORT, THREE_IMPORTS, TWO_EXPORTS, module_with};
use clock::Clock;
use std::alloc::Global;
use wm_decode::decode;
use wm_run::{Ended, Meter, entry_target, instantiate, invoke};
use wm_tree::Module;
use wm_valid::{EntryName, Valid, validate};

/// The module that bytes spell.
fn module_of(alloc: Global, bytes: &[u8]) -> anyhow::Result<Module>
    ensures { IfOk result IsModule }
{
    match decode(alloc, bytes) {
        Ok(module) => Ok(module),
        Err(fault) => Err(anyhow!("{fault:?}")),
    }
}

/// The module that bytes spell, where it is valid.
fn valid_of(alloc: Global, bytes: &[u8]) -> anyhow::Result<Valid> {
    match validate(alloc, module_of(alloc, bytes)?) {
        Ok(valid) => Ok(valid),
        Err(refused) => Err(words::refusal(&refused)),
    }
}

/// Runs a query of the module, on a store of its own and with at most 1,000 instructions.
fn ask(alloc: Global, valid: &Valid, query: &str, clock: &mut Clock) -> anyhow::Result<Ended> {
    let Some(target) = entry_target(valid, EntryName::Query, query) else {
        bail!("there is no query {query}");
    };
    let mut meter = Meter::new(1_000);
    match instantiate(alloc, valid) {
        Ok(mut store) => invoke(alloc, valid, &mut store, target, clock, &mut meter).context(
            "out of memory",
        ),
        Err(fault) => Err(anyhow!("{fault:?}")),
    }
}

/// Prints what the query `now` of the module replies, at the time 258.
fn show_reply(rt: &impl Print, alloc: Global, valid: &Valid) -> anyhow::Result<()> {
    let mut clock = Clock::new(alloc, 258);
    match ask(alloc, valid, "now", &mut clock)? {
        Ended::Returned => println!(rt; "replied {:?}", clock.reply)?,
        Ended::Trapped(trap) => println!(rt; "trapped: {}", trap.text())?,
    }
    Ok(())
}

/// Prints why bytes are no module that is run here, or what its query replies.
fn show(rt: &impl Print, alloc: Global, bytes: &[u8]) -> anyhow::Result<()> {
    match valid_of(alloc, bytes) {
        Ok(valid) => show_reply(rt, alloc, &valid),
        Err(error) => Ok(println!(rt; "refused: {error}")?),
    }
}

fn main(rt: HostRuntime) -> anyhow::Result<()> {
    let alloc = rt.alloc();
    show(&rt, alloc, &module_with(alloc, THREE_IMPORTS, ONE_EXPORT)?)?;
    show(&rt, alloc, &module_with(alloc, FOUR_IMPORTS, ONE_EXPORT)?)?;
    show(&rt, alloc, &module_with(alloc, THREE_IMPORTS, TWO_EXPORTS)?)
}
