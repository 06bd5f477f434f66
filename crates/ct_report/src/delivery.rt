use crate::came::{reject_text, values_text};
use cd_tokens::is_name;
use ct_orders::Delivery;
use ct_outcomes::{At, Named, name_of};
use ct_sources::{Sources, quoted};
use ic_base::NoMemory;
use ic_principal::{Bytes, Principal, Text};
use ic_state::Response;
use std::alloc::Global;

/// The longest text of arguments or results that is told.
const SHOWN: usize = 80;

/// What deliveries are told with: the files of a test, and what names stand for.
#[derive(Clone, Copy)]
struct Telling<'t> {
    alloc: Global,
    sources: &'t Sources,
    names: &'t [Named],
}

// A method after a dot, in quotes where it is no word.
fn push_method(alloc: Global, method: &Text, out: &mut Vec<u8>) -> Result<(), NoMemory> {
    let name = method.items.as_str();
    out.push(b'.')?;
    if is_name(name.as_bytes()) {
        out.extend_from_slice(name.as_bytes())
    } else {
        out.extend_from_slice(quoted(alloc, name)?.as_bytes())
    }
}

/// Adds the first name of a principal, or its text where it has none.
pub fn push_principal(
    alloc: Global,
    names: &[Named],
    id: &Principal,
    out: &mut Vec<u8>,
) -> Result<(), NoMemory> {
    match name_of(names, id) {
        Some(name) => out.extend_from_slice(name),
        None => out.extend_from_slice(id.to_text(alloc)?.items.as_bytes()),
    }
}

impl<'t> Telling<'t> {
    fn push_principal(self, id: &Principal, out: &mut Vec<u8>) -> Result<(), NoMemory> {
        push_principal(self.alloc, self.names, id, out)
    }

    // Who sends to whom, with this between.
    fn front(
        self,
        first: &Principal,
        between: &str,
        callee: &Principal,
    ) -> Result<Vec<u8>, NoMemory> {
        let mut items = Vec::new(self.alloc);
        self.push_principal(first, &mut items)?;
        items.extend_from_slice(between.as_bytes())?;
        self.push_principal(callee, &mut items)?;
        Ok(items)
    }

    // What is sent: a method with its arguments, or an answer.
    fn push_label(self, delivery: &Delivery<'_>, out: &mut Vec<u8>) -> Result<(), NoMemory> {
        match delivery {
            Delivery::Call {
                method,
                arg,
                at,
                ..
            } => {
                push_method(self.alloc, method, out)?;
                self.push_values(at, arg, out)
            }
            Delivery::Answer {
                method,
                response,
                at,
                ..
            } => {
                if let Some(method) = method {
                    push_method(self.alloc, method, out)?;
                }
                self.push_response(at, response, out)
            }
        }
    }

    // Arguments or results, unless they cannot be read or are too long.
    fn push_values(
        self,
        at: &Option<At<'_>>,
        bytes: &Bytes,
        out: &mut Vec<u8>,
    ) -> Result<(), NoMemory> {
        let Some(at) = at else {
            return Ok(());
        };
        let Some(part) = at.needed(self.alloc)? else {
            return Ok(());
        };
        match values_text(self.alloc, self.sources, *at, &part, self.names, bytes)? {
            Ok(text) if text.items.len() <= SHOWN => {
                out.push(b' ')?;
                out.extend_from_slice(&text.items)
            }
            _ => Ok(()),
        }
    }

    fn push_response(
        self,
        at: &Option<At<'_>>,
        response: &Response,
        out: &mut Vec<u8>,
    ) -> Result<(), NoMemory> {
        match response {
            Response::Reply(bytes) => {
                out.extend_from_slice(b" replies")?;
                self.push_values(at, bytes, out)
            }
            Response::Reject { code, message } => {
                let text = reject_text(self.alloc, " ", *code, message)?;
                out.extend_from_slice(&text.items)
            }
        }
    }
}

/// What is sent by a delivery, as it is told: a method after a dot, with its arguments, or an answer.
pub fn label_text(
    alloc: Global,
    sources: &Sources,
    names: &[Named],
    delivery: &Delivery<'_>,
) -> Result<Bytes, NoMemory> {
    let telling = Telling {
        alloc,
        sources,
        names,
    };
    let mut items = Vec::new(alloc);
    telling.push_label(delivery, &mut items)?;
    Ok(Bytes { items })
}

/// A delivery as it is told, with names for principals.
pub fn delivery_text(
    alloc: Global,
    sources: &Sources,
    names: &[Named],
    delivery: &Delivery<'_>,
) -> Result<Bytes, NoMemory> {
    let telling = Telling {
        alloc,
        sources,
        names,
    };
    let mut items = match delivery {
        Delivery::Call { sender, callee, .. } => telling.front(sender, " -> ", callee)?,
        Delivery::Answer { caller, callee, .. } => telling.front(caller, " <- ", callee)?,
    };
    telling.push_label(delivery, &mut items)?;
    Ok(Bytes { items })
}
