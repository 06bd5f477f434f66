ghost use Rattle.std.specs.Prelude.{◌≡◌, ◌+◌, ◌<◌, ◌^◌, length, IfOk, IfSome};
ghost use Rattle.ic_behaviour.specs.Counted.{dropped};
ghost use Rattle.ic_behaviour.specs.Submitted.{IsNew};
ghost use Rattle.ic_state.specs.Seen.{seen};
ghost use Rattle.ic_state.specs.IsCanister.{IsCanister};

use crate::canisters::{asking, relaying};
use crate::rows::{Row, Run, Seen, asking as asking_rows, relaying as relaying_rows};
use ic_base::NoMemory;
use ic_outside::OpenGate;
use ic_principal::{Bytes, Principal, Text};
use ic_queue_rounds::{round, run_rounds};
use ic_state::{Canister, Message, Origin, Response, World};
use std::alloc::Global;
use std::process::Abort;
use std::test::*;
use std::thread::Threads;

// A user calls a method of the first canister.
fn called(alloc: Global, world: World, method: &str, arg: &[u8]) -> Result<World, NoMemory>
    requires { length world.requests < 2 ^ 20 }
{
    let method = Text {
        items: String::from_str(alloc, method)?,
    };
    let arg = Bytes {
        items: Vec::from_slice(alloc, arg)?,
    };
    world.submit(
        Principal::canister_id(9),
        Principal::canister_id(0),
        method,
        arg,
    )
}

// A world with this canister and one that relays, and the call.
fn begun(alloc: Global, first: Option<Canister>, row: &Row) -> Option<World>
    requires new { IfSome first (λ c. IsNew 0 (dropped (seen c))) }
    requires keeps { IfSome first IsCanister }
    requires balance { IfSome first (λ c. c.balance ≡ 1000000000000) }
{
    let first = first?;
    let world = World::new(alloc).add(first).ok()?;
    let second = relaying(alloc, 1)?;
    let world = world.add(second).ok()?;
    called(alloc, world, row.method, row.arg).ok()
}

fn balance(world: &World, number: u64) -> u128 {
    match world.parts().canisters.get(&Principal::canister_id(number)) {
        Some(canister) => canister.get().balance,
        None => 0,
    }
}

// The first byte of the first canister's memory.
fn stored(world: &World) -> u8 {
    let mut bytes = [9; 1];
    if let Some(canister) = world.parts().canisters.get(&Principal::canister_id(0)) {
        canister.get().store.get().copy_out(0, &mut bytes);
    }
    bytes[0]
}

// Whether a call of this number is the canister's.
fn is_call_of(origin: &Origin, canister: &Principal, of_number: u64) -> bool {
    match origin {
        Origin::Canister { caller, number, .. } => {
            caller.cmp(canister).is_eq() && *number == of_number
        }
        Origin::Ingress(_) => false,
    }
}

// Whether the message is the one of this number.
fn is_one_of(message: &Message, run: &Run, number: u64) -> bool {
    let from = Principal::canister_id(run.sender);
    let to = Principal::canister_id(run.callee);
    match message {
        Message::Call {
            origin,
            sender,
            callee,
            ..
        } => {
            let is_between = sender.cmp(&from).is_eq() && callee.cmp(&to).is_eq();
            !run.is_answer && is_between && is_call_of(origin, &from, number)
        }
        Message::Answer { origin, sender, .. } => {
            run.is_answer && sender.cmp(&from).is_eq() && is_call_of(origin, &to, number)
        }
    }
}

// The messages of a run are at the beginning; gives those after it.
fn behind<'a>(rt: &impl Abort, messages: &'a [Message], run: &Run) -> &'a [Message] {
    let mut rest = messages;
    let [first, end] = run.numbers;
    for number in first..end {
        match rest.split_first() {
            Some((message, more)) => {
                assert!(rt; is_one_of(message, run, number));
                rest = more;
            }
            None => panic!(rt; "no message"),
        }
    }
    rest
}

// The cycles in what is under way.
fn cycles(messages: &[Message]) -> u128 {
    let mut sum = 0u128;
    for message in messages {
        let more = match message {
            Message::Call { cycles, .. } => *cycles,
            Message::Answer { refund, .. } => *refund,
        };
        sum = sum.wrapping_add(more);
    }
    sum
}

// The code of the answer, or 0 for a reply, and its bytes.
fn answer(world: &World) -> Option<(u32, &[u8])> {
    let request = world.parts().requests.items.first()?;
    match &request.answer {
        Some(Response::Reply(arg)) => Some((0, arg.items.as_slice())),
        Some(Response::Reject { code, message }) => Some((*code, message.items.as_bytes())),
        None => None,
    }
}

// What is under way, and the balances.
fn check_seen(rt: &impl Abort, world: &World, wanted: &Seen) {
    let messages = world.parts().messages.items.as_slice();
    let [front, back] = &wanted.listed;
    let rest = behind(rt, behind(rt, messages, front), back);
    assert!(rt; rest.is_empty());
    assert_eq!(rt; cycles(messages), wanted.cycles);
    assert_eq!(rt; [balance(world, 0), balance(world, 1)], wanted.balances);
}

// A round; the world is owned here, and looked at elsewhere.
fn after_round<R: Abort + Threads + Sync>(
    rt: &R,
    alloc: Global,
    world: World,
    price: u64,
    wanted: &Seen,
) -> Option<World> {
    match round(alloc, rt, world, 1, 5_000_000, price, &OpenGate) {
        Ok((world, _)) => {
            check_seen(rt, &world, wanted);
            Some(world)
        }
        Err(_) => None,
    }
}

// Three rounds, each looked at, and then all others.
fn followed<R: Abort + Threads + Sync>(
    rt: &R,
    alloc: Global,
    world: Option<World>,
    row: &Row,
) -> Option<(World, u32)> {
    let mut world = world?;
    for wanted in &row.seen {
        world = after_round(rt, alloc, world, row.price, wanted)?;
    }
    run_rounds(alloc, rt, world, 1000, 1, 5_000_000, row.price, &OpenGate).ok()
}

fn compare(rt: &impl Abort, row: &Row, done: &Option<(World, u32)>) {
    let Some((world, rounds)) = done else {
        panic!(rt; "no rounds");
    };
    check_seen(rt, world, &row.last);
    assert_eq!(rt; *rounds, row.rounds);
    assert_eq!(rt; world.totals().burned, row.burned);
    assert_eq!(rt; answer(world), Some((row.code, row.answer)));
    assert_eq!(rt; stored(world), row.stored);
}

fn check_row<R: Abort + Threads + Sync>(rt: &R, alloc: Global, first: Option<Canister>, row: &Row)
    requires new { IfSome first (λ c. IsNew 0 (dropped (seen c))) }
    requires keeps { IfSome first IsCanister }
    requires balance { IfSome first (λ c. c.balance ≡ 1000000000000) }
{
    let done = followed(rt, alloc, begun(alloc, first, row), row);
    compare(rt, row, &done);
}

#[test]
fn relayed(rt: HostRuntime) {
    for row in &relaying_rows() {
        check_row(&rt, rt.alloc(), relaying(rt.alloc(), 0), row);
    }
}

#[test]
fn asked(rt: HostRuntime) {
    for row in &asking_rows() {
        check_row(&rt, rt.alloc(), asking(rt.alloc(), 0), row);
    }
}
