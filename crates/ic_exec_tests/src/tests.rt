ghost use Rattle.std.specs.Prelude.{◌≡◌, ◌≤◌, [], IfSome};
ghost use Rattle.ic_state.specs.IsCanister.{IsCanister};

use crate::canisters::{probing, relaying};
use crate::rows::{Row, relaying as relaying_rows};
use ic_calls::{admit, take_call};
use ic_exec::{Env, Executed, execute, inspect, query};
use ic_principal::{Bytes, Principal, Text};
use ic_state::{Canister, Message, Origin, Response};
use std::alloc::Global;
use std::process::Abort;
use std::test::*;

fn no_bytes(alloc: Global) -> Bytes {
    Bytes {
        items: Vec::new(alloc),
    }
}

/// A user's call is executed.
fn run(alloc: Global, canister: Canister, method: Text, arg: Bytes, env: Env) -> Option<Executed>
    requires keeps { IsCanister canister }
    requires fresh { canister.contexts ≡ [] }
    requires limit { env.limit ≤ 1000000000000 }
{
    execute(
        alloc,
        canister,
        Message::Call {
            origin: Origin::Ingress(0),
            sender: Principal::canister_id(7),
            callee: Principal::canister_id(0),
            method,
            arg,
            cycles: 0,
        },
        env,
    )
    .ok()
}

fn run_row(alloc: Global, canister: Option<Canister>, row: &Row) -> Option<Executed>
    requires keeps { IfSome canister IsCanister }
    requires fresh { IfSome canister (λ c. c.contexts ≡ []) }
{
    let method = Text {
        items: String::from_str(alloc, row.method).ok()?,
    };
    let env = Env {
        time: 7,
        limit: row.limit.min(1000),
        price: row.price,
    };
    match canister {
        Some(canister) => run(alloc, canister, method, no_bytes(alloc), env),
        None => None,
    }
}

/// The relay module calls another canister, with 500 cycles, at a price at which all instructions of
/// the limit cost 960.
fn relay_on(alloc: Global, canister: Option<Canister>) -> Option<Executed>
    requires keeps { IfSome canister IsCanister }
    requires fresh { IfSome canister (λ c. c.contexts ≡ []) }
{
    let method = Text {
        items: String::from_str(alloc, "relay").ok()?,
    };
    let arg = Bytes {
        items: Vec::from_slice(alloc, Principal::canister_id(1).bytes()).ok()?,
    };
    let env = Env {
        time: 7,
        limit: 80,
        price: 12,
    };
    match canister {
        Some(canister) => run(alloc, canister, method, arg, env),
        None => None,
    }
}

/// The code of a response, or 0 for a reply, and its bytes.
fn parts(response: &Response) -> (u32, &[u8]) {
    match response {
        Response::Reply(arg) => (0, arg.items.as_slice()),
        Response::Reject { code, message } => (*code, message.items.as_bytes()),
    }
}

fn compare(rt: &impl Abort, row: &Row, done: &Option<Executed>) {
    let Some(done) = done else {
        panic!(rt; "not executed");
    };
    assert_eq!(rt;
        (done.used, done.canister.balance, done.burned),
        (row.used, row.balance, 1000 - row.balance.min(1000))
    );
    assert_eq!(rt; (done.calls.items.len(), done.answers.items.len()), (0, 1));
    assert_eq!(rt;
        parts(&done.answers.items[0].response),
        (row.code, row.answer)
    );
    assert_eq!(rt; done.canister.store.get().stable_pages(), 0);
}

// Executes a row's call. What is executed is owned here alone.
fn check_row(rt: &impl Abort, alloc: Global, canister: Option<Canister>, row: &Row)
    requires keeps { IfSome canister IsCanister }
    requires fresh { IfSome canister (λ c. c.contexts ≡ []) }
{
    let done = run_row(alloc, canister, row);
    compare(rt, row, &done);
}

#[test]
fn relay_is_called(rt: HostRuntime) {
    for row in &relaying_rows() {
        check_row(&rt, rt.alloc(), relaying(rt.alloc()), row);
    }
}

// What the message used costs more than the 500 cycles that its call leaves, so it takes them all.
#[test]
fn a_message_empties_the_balance(rt: HostRuntime) {
    match relay_on(rt.alloc(), relaying(rt.alloc())) {
        Some(done) => {
            assert!(rt; done.used > 41);
            assert_eq!(rt; (done.burned, done.canister.balance), (500, 0));
            assert_eq!(rt; (done.calls.items.len(), done.answers.items.len()), (1, 0));
        }
        None => panic!(rt; "not executed"),
    }
}

fn env() -> Env
    ensures { result.limit ≤ 1000 }
{
    Env {
        time: 7,
        limit: 1000,
        price: 1,
    }
}

/// A query of a method answers so.
fn compare_query(
    rt: &impl Abort,
    alloc: Global,
    canister: &mut Canister,
    method: &str,
    wanted: (u32, &[u8]),
)
    requires { IsCanister canister.old }
    ensures { IsCanister canister.new }
{
    let sender = Principal::canister_id(7);
    match query(alloc, canister, sender, method, no_bytes(alloc), env()) {
        Ok(response) => assert_eq!(rt; parts(&response), wanted),
        Err(_) => panic!(rt; "no memory"),
    }
    assert_eq!(rt; canister.balance, 1000);
}

fn is_accepted(alloc: Global, canister: &mut Canister) -> Option<bool>
    requires { IsCanister canister.old }
{
    let sender = Principal::canister_id(7);
    inspect(alloc, canister, sender, "divide", no_bytes(alloc), env()).ok()
}

#[test]
fn queries(rt: HostRuntime) {
    match probing(rt.alloc(), 11) {
        Some(mut canister) => {
            compare_query(
                &rt,
                rt.alloc(),
                &mut canister,
                "get",
                (0, b"\x00\x00\x00\x00"),
            );
            compare_query(
                &rt,
                rt.alloc(),
                &mut canister,
                "divide",
                (5, b"canister has no such method"),
            );
        }
        None => panic!(rt; "no canister"),
    }
}

#[test]
fn inspections(rt: HostRuntime) {
    for (function, accepted) in [(11, true), (13, false)] {
        match probing(rt.alloc(), function) {
            Some(mut canister) => assert_eq!(rt;
                is_accepted(rt.alloc(), &mut canister),
                Some(accepted)
            ),
            None => panic!(rt; "no canister"),
        }
    }
}

// How many contexts there are once a call is taken.
fn contexts_with_call(alloc: Global, canister: &mut Canister) -> Option<usize>
    requires keeps { IsCanister canister.old }
    requires fresh { canister.old.contexts ≡ [] }
{
    let method = Text {
        items: String::from_str(alloc, "relay").ok()?,
    };
    if admit(canister, method.items.as_str()).is_err() {
        return None;
    }
    let call = Message::Call {
        origin: Origin::Ingress(0),
        sender: Principal::canister_id(7),
        callee: canister.id,
        method,
        arg: no_bytes(alloc),
        cycles: 0,
    };
    take_call(canister, &call).ok()?;
    Some(canister.contexts.items.len())
}

#[test]
fn a_call_makes_a_context(rt: HostRuntime) {
    match relaying(rt.alloc()) {
        Some(mut canister) => assert_eq!(rt;
            contexts_with_call(rt.alloc(), &mut canister),
            Some(1)
        ),
        None => panic!(rt; "no canister"),
    }
}
