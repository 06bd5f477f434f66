ghost use Rattle.std.specs.Prelude.{◌≡◌, ◌++◌, List, IfOk, length, count_by, is_none};
ghost use Rattle.ic_behaviour.specs.declared.call.Message.{Message};
ghost use Rattle.ic_state.specs.Seen.{state_of};
ghost use Rattle.ic_state.specs.IsWorld.{IsWorld};
ghost use Rattle.ic_behaviour.specs.declared.request.Request.{Request as Asked};
ghost use Rattle.ic_output.specs.Texts.{calls_line, closing, is_rejected, is_replied, root_line, state_line, witness_text};

use crate::values::state_text;
use ic_base::NoMemory;
use ic_principal::Bytes;
use ic_state::{Parts, Request, Response, World};
use ic_tree::state_root;
use ic_witness::{Path, witness_of_parts};
use std::alloc::Global;

/// The line that shows a state.
pub fn state_line(alloc: Global, world: &World) -> Result<Bytes, NoMemory>
    ensures { IfOk result (λ line. line ≡ state_line world.now) }
{
    let parts = world.parts();
    line_of_parts(alloc, parts, parts.messages.items.len())
}

/// The line that shows a state, by the parts of its world and the number of its messages, which may be elsewhere.
#[tactic(auto, unfolding(crate::specs::Texts::state_line))]
pub fn line_of_parts(alloc: Global, parts: &Parts, messages: usize) -> Result<Bytes, NoMemory>
    requires keeps { (list : List Message) × IsWorld (record parts.now { messages = list }) }
    ensures { IfOk result (λ line. (list : List Message) → IsWorld (record parts.now { messages = list }) → length list ≡ messages
        → line ≡ state_line (state_of (record parts.now { messages = list }))) }
{
    let mut line = state_text(alloc, parts, messages)?;
    line.items.push(b'\n')?;
    Ok(line)
}

/// The root hash of the tree of a state.
#[tactic(auto, unfolding(crate::specs::Texts::root_line))]
fn root_line(alloc: Global, world: &World) -> Result<Bytes, NoMemory>
    ensures { IfOk result (λ line. line ≡ root_line world.now) }
{
    let hash = state_root(alloc, world)?;
    let digits = hex::encode(alloc, hash.as_slice())?;
    Ok(Bytes {
        items: format!(in alloc; "root {digits}\n")?.into_bytes(),
    })
}

/// The witness of a state for paths.
pub fn witness_line(alloc: Global, world: &World, paths: &[Path]) -> Result<Bytes, NoMemory>
    ensures { IfOk result (λ line. line ≡ witness_text world.now paths.now) }
{
    witness_line_of_parts(alloc, world.parts(), paths)
}

/// The witness of a state for paths, by the parts of its world. The messages may be elsewhere.
#[tactic(auto, unfolding(crate::specs::Texts::witness_text))]
pub fn witness_line_of_parts(
    alloc: Global,
    parts: &Parts,
    paths: &[Path],
) -> Result<Bytes, NoMemory>
    requires keeps { (messages : List Message) × IsWorld (record parts.now { messages = messages }) }
    ensures { IfOk result (λ line. line ≡ witness_text (state_of parts.now) paths.now) }
{
    let bytes = witness_of_parts(alloc, parts, paths)?;
    let digits = hex::encode(alloc, &bytes.items)?;
    Ok(Bytes {
        items: format!(in alloc; "witness {digits}\n")?.into_bytes(),
    })
}

/// What is printed last: the state, and the root hash of its tree.
pub fn closing(alloc: Global, world: &World) -> Result<Bytes, NoMemory>
    ensures { IfOk result (λ text. text ≡ closing world.now) }
{
    let mut text = state_line(alloc, world)?;
    let root = root_line(alloc, world)?;
    text.items.extend_from_slice(&root.items)?;
    Ok(text)
}

/// What is printed of a generated script: the counts of its calls, and what is printed last.
pub fn summary(alloc: Global, world: &World) -> Result<Bytes, NoMemory>
    ensures { IfOk result (λ text. text ≡ calls_line world.now.requests ++ closing world.now) }
{
    let mut text = calls_line(alloc, &world.parts().requests.items)?;
    let closing = closing(alloc, world)?;
    text.items.extend_from_slice(&closing.items)?;
    Ok(text)
}

#[tactic(auto, unfolding(crate::specs::Texts::calls_line))]
fn calls_line(alloc: Global, requests: &[Request]) -> Result<Bytes, NoMemory>
    ensures { IfOk result (λ line. line ≡ calls_line requests.now) }
{
    let calls = requests.len();
    let replied = replied_count(requests);
    let rejected = rejected_count(requests);
    let waiting = waiting_count(requests);
    Ok(Bytes {
        items: format!(in alloc;
            "calls {calls} replied {replied} rejected {rejected} waiting {waiting}\n"
        )?.into_bytes(),
    })
}

fn replied_count(requests: &[Request]) -> usize
    ensures { result ≡ count_by (λ (r : Asked). is_replied r.answer) requests.now }
{
    requests
        .iter()
        .filter(|request| is_replied(&request.answer))
        .count()
}

fn rejected_count(requests: &[Request]) -> usize
    ensures { result ≡ count_by (λ (r : Asked). is_rejected r.answer) requests.now }
{
    requests
        .iter()
        .filter(|request| is_rejected(&request.answer))
        .count()
}

fn waiting_count(requests: &[Request]) -> usize
    ensures { result ≡ count_by (λ (r : Asked). is_none r.answer) requests.now }
{
    requests
        .iter()
        .filter(|request| request.answer.is_none())
        .count()
}

fn is_replied(answer: &Option<Response>) -> bool
    ensures { result ≡ is_replied answer.now }
{
    match answer {
        Some(Response::Reply(_)) => true,
        Some(Response::Reject { .. }) => false,
        None => false,
    }
}

fn is_rejected(answer: &Option<Response>) -> bool
    ensures { result ≡ is_rejected answer.now }
{
    match answer {
        Some(Response::Reply(_)) => false,
        Some(Response::Reject { .. }) => true,
        None => false,
    }
}
