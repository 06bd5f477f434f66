ghost use Rattle.std.specs.Prelude.{◌≡◌, ℕ, length, reverse, IfOk};
ghost use Rattle.wm_run.specs.Backtrace.{IsBacktrace, site_of, sites_of, nothing_told};
ghost use Rattle.wm_run.specs.UnderWay.{HaltedIn};

use crate::activation::{Activation, Halted, Innermost};
use crate::stack::Stacks;
use ic_base::NoMemory;
use std::alloc::Global;
use std::marker::Model;
use wm_semantics::{Ended, Trap};
use wm_typing::Op;
use wm_valid::Valid;
use wm_valid::system_api::SystemCall;

/// The most functions that are told.
const MOST: usize = 32;

/// A function under way, and the word of its body at which it is: the one that trapped, or the call after which
/// it waits. Words are counted from 0.
#[derive(Clone, Copy, Debug, PartialEq, Eq)]
pub struct Site {
    /// The index of the function. The imported functions come first.
    pub function: u64,
    pub word: usize,
}

/// Functions under way, the innermost first.
#[derive(Debug, Drop)]
pub struct Sites {
    pub items: Vec<Site>,
}

impl Model for Sites {
    ghost use Rattle.std.specs.Prelude.{List};
    ghost use Rattle.wm_run.specs.declared.backtrace.Site.{Site};

    ghost Value = { List Site };

    ghost view = { λ l. l.items.items };
}

/// Where a run trapped.
#[derive(Debug, Drop)]
pub struct Backtrace {
    /// The call of the System API that trapped, if one did.
    pub call: Option<SystemCall>,
    /// The functions under way, at most 32.
    pub sites: Sites,
    /// How many more there are, which wait around these.
    pub more: usize,
}

/// Nothing, but for a call of the System API.
fn nothing(alloc: Global, call: Option<SystemCall>) -> Backtrace
    ensures { result ≡ nothing_told call }
{
    Backtrace {
        call,
        sites: Sites {
            items: Vec::new(alloc),
        },
        more: 0,
    }
}

/// A function under way, at that word.
fn site_at(valid: &Valid, function: u32, word: usize) -> Site
    ensures { result ≡ site_of (length valid.now.«module».imports) function word }
{
    Site {
        function: valid.module().imports.items.len() as u64 + u64::from(function),
        word,
    }
}

/// The functions under way, the innermost first. The callers are those that wait, the first first; each goes on
/// after its call.
fn told_sites(
    alloc: Global,
    valid: &Valid,
    callers: &[Activation],
    here: Activation,
) -> Result<Sites, NoMemory>
    ensures { IfOk result (λ sites. sites ≡ sites_of (length valid.now.«module».imports) here (reverse callers.now)) }
{
    let mut items = Vec::new(alloc);
    items.push(site_at(valid, here.function, here.place))?;
    for place in (callers.len().saturating_sub(MOST - 1)..callers.len()).rev() {
        let caller = &callers[place];
        items.push(site_at(valid, caller.function, caller.place.saturating_sub(1)))?;
    }
    Ok(Sites { items })
}

/// The import that an indirect call at the topmost operand reaches.
fn import_at(
    valid: &Valid,
    table: &[Option<u32>],
    stack: &[u64],
    top: usize,
) -> Option<SystemCall> {
    let place = stack.get(top.checked_sub(1)?)?;
    let function = table.get(*place as usize).copied().flatten()?;
    valid.system_call(function)
}

/// The call of the System API at which the function stopped, if its word is one.
fn call_at(
    valid: &Valid,
    table: &[Option<u32>],
    stack: &[u64],
    here: Activation,
) -> Option<SystemCall> {
    match valid.code(here.function)?.ops.get(here.place).copied()? {
        Op::CallHost(number) => SystemCall::numbered(number),
        Op::CallIndirect(_) => import_at(valid, table, stack, here.top),
        _ => None,
    }
}

/// Whether a call of the System API may have trapped so: by a wrong type none was reached.
fn may_be_of_call(ended: &Ended) -> bool {
    match ended {
        Ended::Returned => false,
        Ended::Trapped(Trap::Signature) => false,
        Ended::Trapped(_) => true,
    }
}

/// Where a run trapped; nothing of one that returned.
pub(crate) fn backtrace_of(
    alloc: Global,
    valid: &Valid,
    table: &[Option<u32>],
    stacks: &Stacks,
    halted: &Halted,
) -> Result<Backtrace, NoMemory>
    ensures { IfOk result (λ b. (entered : ℕ) → HaltedIn valid.now entered stacks.now halted.now → IsBacktrace valid.now.«module» entered b) }
{
    let _module = valid.module();
    let traps = may_be_of_call(&halted.ended);
    match halted.innermost {
        Innermost::Nowhere => Ok(nothing(alloc, None)),
        Innermost::Host(number) if traps => Ok(nothing(alloc, SystemCall::numbered(number))),
        Innermost::Host(_) => Ok(nothing(alloc, None)),
        Innermost::Own(here) => {
            if let Ended::Returned = &halted.ended {
                return Ok(nothing(alloc, None));
            }
            let callers = stacks.callers.as_slice();
            let stack = stacks.operands.as_slice();
            let call = if traps {
                call_at(valid, table, stack, here)
            } else {
                None
            };
            Ok(Backtrace {
                call,
                sites: told_sites(alloc, valid, callers, here)?,
                more: callers.len().saturating_sub(MOST - 1),
            })
        }
    }
}
