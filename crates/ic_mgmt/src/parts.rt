ghost use Rattle.std.specs.Prelude.{◌≡◌, [], IfOk};
ghost use Rattle.ic_mgmt.specs.Sweeping.{among};

use ic_base::NoMemory;
use ic_state::{Messages, Parts};
use std::alloc::Global;
use std::mem::replace;

/// The parts without their messages, and these.
pub fn taken_apart(alloc: Global, parts: Parts) -> (Parts, Messages)
    ensures rest { result.0 ≡ record parts { messages = [] } }
    ensures messages { result.1 ≡ parts.messages }
{
    let mut rest = parts;
    let none = Messages {
        items: Vec::new(alloc),
    };
    let messages = replace(&mut rest.messages, none);
    (rest, messages)
}

/// The parts with messages before their own.
pub fn put_together(kept: Messages, rest: Parts) -> Result<Parts, NoMemory>
    ensures { IfOk result (λ p. p ≡ among kept [] rest) }
{
    let mut parts = rest;
    let messages = replace(&mut parts.messages, kept);
    parts.messages.append(messages)?;
    Ok(parts)
}
