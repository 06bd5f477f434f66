ghost use Rattle.std.specs.Prelude.{◌≡◌, ◌↔◌, IfOk, IsTrue};

use crate::exact::{Exact, Same};
use ic_base::NoMemory;
use ic_behaviour::{CallId, Callback, Message, Origin, Request, Response};
use std::alloc::Global;

impl Same for CallId {
    fn same(&self, other: &CallId) -> bool {
        match self {
            CallId::Ingress(a) => match other {
                CallId::Ingress(b) => a == b,
                CallId::Canister { .. } => false,
            },
            CallId::Canister {
                caller: a,
                number: m,
            } => match other {
                CallId::Ingress(_) => false,
                CallId::Canister {
                    caller: b,
                    number: n,
                } => m == n && a.same(b),
            },
        }
    }
}

// Whether both are the same function with the same argument, or neither is one.
fn same_cleanup(a: Option<(u32, u32)>, b: Option<(u32, u32)>) -> bool
    ensures { IsTrue result ↔ (a ≡ b) }
{
    match (a, b) {
        (Some((f, x)), Some((g, y))) => f == g && x == y,
        (None, None) => true,
        _ => false,
    }
}

impl Same for Callback {
    fn same(&self, other: &Callback) -> bool {
        self.reply_fun == other.reply_fun
            && self.reply_env == other.reply_env
            && self.reject_fun == other.reject_fun
            && self.reject_env == other.reject_env
            && same_cleanup(self.cleanup, other.cleanup)
    }
}

impl Same for Origin {
    fn same(&self, other: &Origin) -> bool {
        match self {
            Origin::Ingress(a) => match other {
                Origin::Ingress(b) => a == b,
                Origin::Canister { .. } => false,
            },
            Origin::Canister {
                caller: a,
                number: m,
                context: p,
                callback: f,
            } => match other {
                Origin::Ingress(_) => false,
                Origin::Canister {
                    caller: b,
                    number: n,
                    context: q,
                    callback: g,
                } => m == n && a.same(b) && p.same(q) && f.same(g),
            },
        }
    }
}

impl Same for Response {
    fn same(&self, other: &Response) -> bool {
        match self {
            Response::Reply(a) => match other {
                Response::Reply(b) => a.same(b),
                Response::Reject { .. } => false,
            },
            Response::Reject {
                code: m,
                message: a,
            } => match other {
                Response::Reply(_) => false,
                Response::Reject {
                    code: n,
                    message: b,
                } => m == n && a.same(b),
            },
        }
    }
}

impl Exact for Response {
    fn copy(&self, alloc: Global) -> Result<Response, NoMemory> {
        match self {
            Response::Reply(bytes) => Ok(Response::Reply(Exact::copy(bytes, alloc)?)),
            Response::Reject { code, message } => Ok(Response::Reject {
                code: *code,
                message: Exact::copy(message, alloc)?,
            }),
        }
    }
}

impl Same for Message {
    fn same(&self, other: &Message) -> bool {
        match self {
            Message::Call {
                origin: o,
                sender: s,
                callee: c,
                method: m,
                arg: a,
                cycles: x,
            } => match other {
                Message::Call {
                    origin,
                    sender,
                    callee,
                    method,
                    arg,
                    cycles,
                } => {
                    x == cycles
                        && o.same(origin)
                        && s.same(sender)
                        && c.same(callee)
                        && m.same(method)
                        && a.same(arg)
                }
                Message::Answer { .. } => false,
            },
            Message::Answer {
                origin: o,
                sender: s,
                response: r,
                refund: x,
            } => match other {
                Message::Call { .. } => false,
                Message::Answer {
                    origin,
                    sender,
                    response,
                    refund,
                } => x == refund && o.same(origin) && s.same(sender) && r.same(response),
            },
        }
    }
}

impl Exact for Message {
    fn copy(&self, alloc: Global) -> Result<Message, NoMemory> {
        match self {
            Message::Call {
                origin,
                sender,
                callee,
                method,
                arg,
                cycles,
            } => Ok(Message::Call {
                origin: *origin,
                sender: *sender,
                callee: *callee,
                method: Exact::copy(method, alloc)?,
                arg: Exact::copy(arg, alloc)?,
                cycles: *cycles,
            }),
            Message::Answer {
                origin,
                sender,
                response,
                refund,
            } => Ok(Message::Answer {
                origin: *origin,
                sender: *sender,
                response: response.copy(alloc)?,
                refund: *refund,
            }),
        }
    }
}

// Whether both are the same response, or neither is one.
fn same_answer(a: &Option<Response>, b: &Option<Response>) -> bool
    ensures { IsTrue result ↔ (a.now ≡ b.now) }
{
    match a {
        Some(a) => match b {
            Some(b) => a.same(b),
            None => false,
        },
        None => b.is_none(),
    }
}

fn copied_answer(alloc: Global, answer: &Option<Response>) -> Result<Option<Response>, NoMemory>
    ensures { IfOk result (λ copy. copy ≡ answer.now) }
{
    match answer {
        Some(answer) => Ok(Some(answer.copy(alloc)?)),
        None => Ok(None),
    }
}

impl Same for Request {
    fn same(&self, other: &Request) -> bool {
        self.time == other.time
            && self.sender.same(&other.sender)
            && self.callee.same(&other.callee)
            && self.method.same(&other.method)
            && self.arg.same(&other.arg)
            && same_answer(&self.answer, &other.answer)
    }
}

impl Exact for Request {
    fn copy(&self, alloc: Global) -> Result<Request, NoMemory> {
        Ok(Request {
            sender: self.sender,
            callee: self.callee,
            method: Exact::copy(&self.method, alloc)?,
            arg: Exact::copy(&self.arg, alloc)?,
            time: self.time,
            answer: copied_answer(alloc, &self.answer)?,
        })
    }
}
