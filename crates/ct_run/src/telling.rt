//! Deliveries, as a trace has them.

use ct_script::{CallName, Script, Sent};
use ic_base::NoMemory;
use ic_principal::{Bytes, Principal, Text};
use ic_script::Ask;
use ic_state::{Message, Origin, Request, Response, World};
use std::alloc::Global;

/// The longest argument or answer that is told, and how much is told of a text.
const LONGEST: usize = 4_096;

// Bytes, or none where they are long.
fn short(alloc: Global, bytes: &Bytes) -> Result<Bytes, NoMemory> {
    if bytes.items.len() > LONGEST {
        return Ok(Bytes {
            items: Vec::new(alloc),
        });
    }
    bytes.copy()
}

// The front of a text.
fn front_of(alloc: Global, text: &Text) -> Result<Text, NoMemory> {
    let mut items = String::new(alloc);
    for character in text.items.chars() {
        if items.len() >= LONGEST {
            return Ok(Text { items });
        }
        items.push(character)?;
    }
    Ok(Text { items })
}

fn name_of(origin: &Origin) -> CallName {
    match origin {
        Origin::Ingress(number) => CallName::User(*number),
        Origin::Canister { caller, number, .. } => CallName::Canister {
            caller: *caller,
            number: *number,
        },
    }
}

fn answer_of(
    alloc: Global,
    name: CallName,
    sender: Principal,
    response: &Response,
) -> Result<Sent, NoMemory> {
    match response {
        Response::Reply(bytes) => Ok(Sent::Reply {
            name,
            sender,
            reply: short(alloc, bytes)?,
        }),
        Response::Reject { code, message } => Ok(Sent::Reject {
            name,
            sender,
            code: *code,
            text: front_of(alloc, message)?,
        }),
    }
}

// A message, as it is told.
fn sent_of(alloc: Global, message: &Message) -> Result<Sent, NoMemory> {
    match message {
        Message::Call {
            origin,
            sender,
            callee,
            method,
            arg,
            ..
        } => Ok(Sent::Call {
            name: name_of(origin),
            sender: *sender,
            callee: *callee,
            method: front_of(alloc, method)?,
            arg: short(alloc, arg)?,
        }),
        Message::Answer {
            origin,
            sender,
            response,
            ..
        } => answer_of(alloc, name_of(origin), *sender, response),
    }
}

/// A delivery begins: that of the message at a place.
pub(crate) fn tell(
    alloc: Global,
    world: &World,
    place: usize,
    script: &mut Script,
) -> Result<(), NoMemory> {
    match world.parts().messages.items.get(place) {
        None => Ok(()),
        Some(message) => script.deliver(sent_of(alloc, message)?),
    }
}

fn tell_request(
    alloc: Global,
    request: &Request,
    number: u32,
    script: &mut Script,
) -> Result<(), NoMemory> {
    match &request.answer {
        None => Ok(()),
        Some(response) => {
            let name = CallName::User(number);
            script.deliver(answer_of(alloc, name, request.callee, response)?)
        }
    }
}

/// The answer of the user's call with a number comes, if there is one.
pub(crate) fn tell_answer(
    alloc: Global,
    world: &World,
    number: u32,
    script: &mut Script,
) -> Result<(), NoMemory> {
    if !script.traces() {
        return Ok(());
    }
    match world.parts().requests.items.get(number as usize) {
        None => Ok(()),
        Some(request) => tell_request(alloc, request, number, script),
    }
}

/// A query begins.
pub(crate) fn tell_query(alloc: Global, ask: &Ask, script: &mut Script) -> Result<(), NoMemory> {
    if !script.traces() {
        return Ok(());
    }
    script.deliver(Sent::Call {
        name: CallName::Query,
        sender: ask.sender,
        callee: ask.callee,
        method: front_of(alloc, &ask.method)?,
        arg: short(alloc, &ask.arg)?,
    })
}

/// A query is answered.
pub(crate) fn tell_response(
    alloc: Global,
    callee: Principal,
    response: &Response,
    script: &mut Script,
) -> Result<(), NoMemory> {
    if !script.traces() {
        return Ok(());
    }
    script.deliver(answer_of(alloc, CallName::Query, callee, response)?)
}
