ghost use Rattle.std.specs.Prelude.{◌≡◌, IfOk};
ghost use Rattle.ic_behaviour.specs.declared.call.Response.TheVariants.{Reject};
ghost use Rattle.ic_behaviour.specs.Texts as texts;
ghost use Rattle.ic_behaviour.specs.Closing.{empty_reply};

use ic_base::NoMemory;
use ic_principal::{Bytes, Principal, Text};
use ic_state::{Refusal, Response};
use std::alloc::Global;
use wm_semantics::Trap;

// The reject codes of the standard that are given here.
const SYS_TRANSIENT: u32 = 2;

const DESTINATION_INVALID: u32 = 3;

const CANISTER_ERROR: u32 = 5;

fn reject(alloc: Global, code: u32, text: &str) -> Result<Response, NoMemory>
    ensures { IfOk result (λ r. r ≡ Reject code text.now) }
{
    Ok(Response::Reject {
        code,
        message: Text {
            items: String::from_str(alloc, text)?,
        },
    })
}

fn refusal_text(refusal: Refusal) -> &'static str
    ensures { result.now ≡ texts.refusal_text refusal }
{
    match refusal {
        Refusal::NotRunning => "canister is not running",
        Refusal::NoModule => "canister has no module",
        Refusal::NoMethod => "canister has no such method",
    }
}

/// For a call that the canister refuses.
pub fn refused(alloc: Global, refusal: Refusal) -> Result<Response, NoMemory>
    ensures { IfOk result (λ r. r ≡ texts.refuses refusal) }
{
    reject(alloc, CANISTER_ERROR, refusal_text(refusal))
}

/// For a call to a canister whose balance is below the price of all instructions that the limit
/// allows.
pub fn out_of_cycles(alloc: Global) -> Result<Response, NoMemory>
    ensures { IfOk result (λ r. r ≡ texts.out_of_cycles) }
{
    reject(alloc, SYS_TRANSIENT, "canister out of cycles")
}

/// For a call to a principal that is no canister.
pub fn no_canister(alloc: Global, callee: &Principal) -> Result<Response, NoMemory>
    ensures { IfOk result (λ r. r ≡ texts.no_canister callee.now) }
{
    Ok(Response::Reject {
        code: DESTINATION_INVALID,
        message: Text {
            items: format!(in alloc; "no canister {callee}")?,
        },
    })
}

/// For a context that has no answer and awaits none.
pub fn no_response(alloc: Global) -> Result<Response, NoMemory>
    ensures { IfOk result (λ r. r ≡ texts.no_response) }
{
    reject(alloc, CANISTER_ERROR, "canister did not respond")
}

/// For the context of a message that trapped.
pub fn trapped_by(alloc: Global, trap: &Trap) -> Result<Response, NoMemory>
    ensures { IfOk result (λ r. r ≡ texts.trapped_by trap.now) }
{
    let mut message = String::from_str(alloc, "canister trapped: ")?;
    message.push_str(trap.text())?;
    Ok(Response::Reject {
        code: CANISTER_ERROR,
        message: Text { items: message },
    })
}

/// No values, in Candid.
#[tactic(auto, unfolding(ic_behaviour::specs::Closing::empty_reply))]
pub fn empty_reply(alloc: Global) -> Result<Response, NoMemory>
    ensures { IfOk result (λ r. r ≡ empty_reply) }
{
    Ok(Response::Reply(Bytes {
        items: Vec::from_slice(alloc, b"DIDL\x00\x00")?,
    }))
}
