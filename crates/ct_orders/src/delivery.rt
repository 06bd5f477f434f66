use crate::interfaces::Interfaces;
use ct_outcomes::{At, Named};
use ct_script::{CallName, Sent};
use ct_sources::Sources;
use ic_base::NoMemory;
use ic_principal::{Bytes, Principal, Text};
use ic_state::{Message, Origin, Response};
use std::alloc::Global;

/// A delivery, or a query of a trace. Arguments and results are read at types of the callee's interface, if it has a name
/// and the method.
#[derive(Drop)]
pub enum Delivery<'i> {
    Call {
        sender: Principal,
        callee: Principal,
        method: Text,
        arg: Bytes,
        at: Option<At<'i>>,
    },
    /// The answer to a call, whose method is known if the call was told before.
    Answer {
        caller: Principal,
        callee: Principal,
        method: Option<Text>,
        response: Response,
        at: Option<At<'i>>,
    },
}

/// A call that was delivered.
#[derive(Drop)]
struct Called {
    name: CallName,
    caller: Principal,
    method: Text,
}

/// Calls that were delivered: those of canisters in the interleaves of a test, or all that a trace has.
#[derive(Drop)]
pub(crate) struct CalledList {
    items: Vec<Called>,
}

/// What messages are told with: the files of a test, what names stand for before the interleave, and the interfaces
/// of canisters there.
#[derive(Clone, Copy)]
pub(crate) struct Naming<'n, 'i> {
    pub(crate) sources: &'i Sources,
    pub(crate) names: &'n [Named],
    pub(crate) interfaces: &'n Interfaces,
}

fn copied(response: &Response) -> Result<Response, NoMemory> {
    match response {
        Response::Reply(bytes) => Ok(Response::Reply(bytes.copy()?)),
        Response::Reject { code, message } => Ok(Response::Reject {
            code: *code,
            message: message.copy()?,
        }),
    }
}

/// Which types of a method are meant.
#[derive(Clone, Copy, Debug, PartialEq, Eq)]
enum Part {
    Arguments,
    Results,
}

impl<'n, 'i> Naming<'n, 'i> {
    // Types of a method of a canister.
    fn at(&self, callee: &Principal, method: &Text, part: Part) -> Option<At<'i>> {
        let id = self.interfaces.find(self.names, callee)?;
        let sources = self.sources;
        let interface = sources.interface(id)?;
        let method = interface.method(method.items.as_str())?;
        let types = match part {
            Part::Arguments => method.args,
            Part::Results => method.results,
        };
        Some(At::new(id, interface, types))
    }

    fn result_at(&self, callee: &Principal, method: &Option<Text>) -> Option<At<'i>> {
        match method {
            None => None,
            Some(method) => self.at(callee, method, Part::Results),
        }
    }
}

// An answer, as it is told.
fn answer_of<'i>(
    naming: Naming<'_, 'i>,
    caller: Principal,
    callee: Principal,
    method: Option<Text>,
    response: &Response,
) -> Result<Delivery<'i>, NoMemory> {
    let at = naming.result_at(&callee, &method);
    Ok(Delivery::Answer {
        caller,
        callee,
        method,
        response: copied(response)?,
        at,
    })
}

// A call, as it is told.
fn call_of<'i>(
    naming: Naming<'_, 'i>,
    sender: Principal,
    callee: Principal,
    method: &Text,
    arg: &Bytes,
) -> Result<Delivery<'i>, NoMemory> {
    Ok(Delivery::Call {
        sender,
        callee,
        method: method.copy()?,
        arg: arg.copy()?,
        at: naming.at(&callee, method, Part::Arguments),
    })
}

fn is_same(name: &CallName, other: &CallName) -> bool {
    match (name, other) {
        (CallName::User(number), CallName::User(also)) => number == also,
        (CallName::Query, CallName::Query) => true,
        (
            CallName::Canister { caller, number },
            CallName::Canister {
                caller: by,
                number: also,
            },
        ) => number == also && caller == by,
        _ => false,
    }
}

impl CalledList {
    pub(crate) fn new(alloc: Global) -> CalledList {
        CalledList {
            items: Vec::new(alloc),
        }
    }

    fn push(&mut self, name: CallName, caller: Principal, method: &Text) -> Result<(), NoMemory> {
        self.items.push(Called {
            name,
            caller,
            method: method.copy()?,
        })?;
        Ok(())
    }

    /// After a delivery.
    pub(crate) fn pass(&mut self, message: &Message) -> Result<(), NoMemory> {
        match message {
            Message::Call {
                origin: Origin::Canister { caller, number, .. },
                method,
                ..
            } => {
                let name = CallName::Canister {
                    caller: *caller,
                    number: *number,
                };
                self.push(name, *caller, method)
            }
            _ => Ok(()),
        }
    }

    /// After a delivery of a trace.
    pub(crate) fn pass_sent(&mut self, sent: &Sent) -> Result<(), NoMemory> {
        match sent {
            Sent::Call {
                name,
                sender,
                method,
                ..
            } => self.push(*name, *sender, method),
            Sent::Reply { .. } | Sent::Reject { .. } => Ok(()),
        }
    }

    // The last call of that name.
    fn find(&self, name: &CallName) -> Option<&Called> {
        for place in (0..self.items.len()).rev() {
            if is_same(&self.items[place].name, name) {
                return Some(&self.items[place]);
            }
        }
        None
    }

    fn method_of(&self, name: &CallName) -> Result<Option<Text>, NoMemory> {
        match self.find(name) {
            None => Ok(None),
            Some(called) => Ok(Some(called.method.copy()?)),
        }
    }

    /// A delivery that is to be made, as it is told.
    pub(crate) fn delivery<'i>(
        &self,
        naming: Naming<'_, 'i>,
        message: &Message,
    ) -> Result<Option<Delivery<'i>>, NoMemory> {
        match message {
            Message::Call {
                sender,
                callee,
                method,
                arg,
                ..
            } => Ok(Some(call_of(naming, *sender, *callee, method, arg)?)),
            Message::Answer {
                origin: Origin::Canister { caller, number, .. },
                sender,
                response,
                ..
            } => {
                let name = CallName::Canister {
                    caller: *caller,
                    number: *number,
                };
                let method = self.method_of(&name)?;
                Ok(Some(answer_of(naming, *caller, *sender, method, response)?))
            }
            Message::Answer {
                origin: Origin::Ingress(_),
                ..
            } => Ok(None),
        }
    }

    // Who is answered, where a call of that name was delivered.
    fn caller_of(&self, name: &CallName, other: Principal) -> Principal {
        if let CallName::Canister { caller, .. } = name {
            return *caller;
        }
        match self.find(name) {
            None => other,
            Some(called) => called.caller,
        }
    }

    /// A delivery of a trace, as it is told.
    pub(crate) fn delivery_of<'i>(
        &self,
        naming: Naming<'_, 'i>,
        sent: &Sent,
    ) -> Result<Delivery<'i>, NoMemory> {
        match sent {
            Sent::Call {
                sender,
                callee,
                method,
                arg,
                ..
            } => call_of(naming, *sender, *callee, method, arg),
            Sent::Reply {
                name,
                sender,
                reply,
            } => {
                let response = Response::Reply(reply.copy()?);
                let caller = self.caller_of(name, *sender);
                answer_of(naming, caller, *sender, self.method_of(name)?, &response)
            }
            Sent::Reject {
                name,
                sender,
                code,
                text,
            } => {
                let response = Response::Reject {
                    code: *code,
                    message: text.copy()?,
                };
                let caller = self.caller_of(name, *sender);
                answer_of(naming, caller, *sender, self.method_of(name)?, &response)
            }
        }
    }
}
