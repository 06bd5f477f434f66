// What canisters say and where they trap is heard by whoever runs them, in rounds of two workers.
use crate::queues::asks::{Ask, creation, joined};
use crate::queues::talker::installing_talker;
use crate::queues::worlds::asked;
use ic_asking::answer_now;
use ic_heard::{Heard, Trapped};
use ic_outside::OpenGate;
use ic_principal::{Bytes, Principal, Text};
use ic_queue_rounds::run_rounds;
use ic_state::{Charge, World};
use std::alloc::Global;
use std::test::*;
use std::thread::Threads;

const LIMIT: u64 = 100_000_000;

const INSTALLED: &[u8] = b" init; init; init canister_init at 0001c1;";

fn moved<R: Threads + Sync>(alloc: Global, rt: &R, world: World) -> Option<World> {
    match run_rounds(alloc, rt, world, 1000, 2, LIMIT, 1, &OpenGate) {
        Ok((world, _)) => Some(world),
        Err(_) => None,
    }
}

fn calling(alloc: Global, number: u64, method: &str) -> Option<Ask> {
    joined(
        alloc,
        Principal::canister_id(number).bytes(),
        method,
        &[],
        &[],
    )
}

fn installation(alloc: Global, number: u64) -> Option<Ask> {
    let front = installing_talker(alloc, number == 2)?;
    let id = Principal::canister_id(number);
    joined(alloc, &[], "install_code", front.as_slice(), id.bytes())
}

fn listened(alloc: Global, world: World, number: u64) -> Option<World> {
    let mut world = world;
    match world.listen_to(alloc, &Principal::canister_id(number)) {
        Ok(()) => asked(world, installation(alloc, number)),
        Err(_) => None,
    }
}

// Somebody listens to three canisters. Two run the talker, and its `canister_init` traps on the third.
fn begun<R: Threads + Sync>(alloc: Global, rt: &R) -> Option<World> {
    let mut world = World::new(alloc);
    for _ in 0..3 {
        world = asked(world, creation(alloc))?;
    }
    let mut world = moved(alloc, rt, world)?;
    for number in 0..3 {
        world = listened(alloc, world, number)?;
    }
    moved(alloc, rt, world)
}

// A call of canister 0, while canister 1 is called too.
fn called<R: Threads + Sync>(alloc: Global, rt: &R, world: World, method: &str) -> Option<World> {
    let world = asked(world, calling(alloc, 0, method))?;
    let world = asked(world, calling(alloc, 1, "say"))?;
    moved(alloc, rt, world)
}

fn queried(alloc: Global, world: World) -> Option<World> {
    let ask = ic_script::Ask {
        sender: Principal::canister_id(900),
        callee: Principal::canister_id(0),
        method: Text {
            items: String::from_str(alloc, "ask").ok()?,
        },
        arg: Bytes {
            items: Vec::new(alloc),
        },
    };
    let charge = Charge {
        limit: LIMIT,
        price: 1,
    };
    let mut parts = world.open();
    match answer_now(alloc, charge, &mut parts, ask) {
        Ok(_) => Some(World::seal(parts)),
        Err(_) => None,
    }
}

fn push_word(text: &mut Vec<u8>, word: &[u8]) -> Option<()> {
    text.push(b' ').ok()?;
    text.extend_from_slice(word).ok()
}

// The call of the System API that trapped, and the functions that were under way, each with its offset.
fn push_trapped(alloc: Global, text: &mut Vec<u8>, trapped: &Trapped) -> Option<()> {
    if let Some(call) = &trapped.call {
        push_word(text, call.items.as_bytes())?;
    }
    for place in &trapped.places.items {
        push_word(text, place.function.text.items.as_slice())?;
        let offset = format!(in alloc; "at {:06x}", place.offset.unwrap_or(0)).ok()?;
        push_word(text, offset.as_bytes())?;
    }
    Some(())
}

fn push_heard(alloc: Global, text: &mut Vec<u8>, heard: &Heard) -> Option<()> {
    for said in &heard.texts().items {
        push_word(text, said.text.items.as_slice())?;
    }
    for trapped in heard.trapped() {
        push_trapped(alloc, text, trapped)?;
    }
    text.push(b';').ok()
}

/// What the three canisters said and where they trapped, one after another, and what they used.
#[derive(Drop)]
struct Told {
    text: Vec<u8>,
    used: u64,
}

fn heard_of_all(alloc: Global, world: &mut World) -> Option<Told> {
    let mut text = Vec::new(alloc);
    let mut used = 0u64;
    for number in 0..3 {
        let heard = world.take_heard(alloc, &Principal::canister_id(number));
        push_heard(alloc, &mut text, &heard)?;
        used = used.wrapping_add(heard.used());
    }
    Some(Told { text, used })
}

// What is told when canisters are installed, and then when they are called, and what the calls burned.
fn told_of_call<R: Threads + Sync>(
    alloc: Global,
    rt: &R,
    method: &str,
) -> Option<(Told, Told, u128)> {
    let mut world = begun(alloc, rt)?;
    let installed = heard_of_all(alloc, &mut world)?;
    let before = world.totals().burned;
    let mut world = called(alloc, rt, world, method)?;
    let called = heard_of_all(alloc, &mut world)?;
    let burned = world.totals().burned.wrapping_sub(before);
    Some((installed, called, burned))
}

// Each of two workers enters code whose canister has an ear. A callback that traps is heard, and then its cleanup; so is
// an entry point of an installation that is refused. The offsets are those of `wasm-objdump -d`.
#[test]
fn what_is_said_goes_up(rt: HostRuntime) {
    let rows = [
        (
            "fall",
            " breaks func[9] at 0001a2 canister_update fall at 0001b2; update;;",
        ),
        (
            "chain",
            " chain breaks cleanup func[9] at 0001a2 func[10] at 0001ac; update update;;",
        ),
    ];
    for (method, wanted) in rows {
        let Some((installed, called, burned)) = told_of_call(rt.alloc(), &rt, method) else {
            panic!(rt; "not run");
        };
        assert_eq!(rt; installed.text.as_slice(), INSTALLED);
        assert_eq!(rt; called.text.as_slice(), wanted.as_bytes());
        assert_eq!(rt; u128::from(called.used), burned);
    }
}

fn told_of_query<R: Threads + Sync>(alloc: Global, rt: &R) -> Option<Told> {
    let world = begun(alloc, rt)?;
    let mut world = queried(alloc, world)?;
    heard_of_all(alloc, &mut world)
}

#[test]
fn a_query_is_heard(rt: HostRuntime) {
    let Some(told) = told_of_query(rt.alloc(), &rt) else {
        panic!(rt; "not run");
    };
    assert_eq!(rt;
        told.text.as_slice(),
        b" init query msg_reply canister_query ask at 000173; init; init canister_init at 0001c1;".as_slice()
    );
}

// How many texts are kept of canister 0, how many came before them, and of the last one how much is kept and how
// much is not.
fn kept<R: Threads + Sync>(
    alloc: Global,
    rt: &R,
    method: &str,
) -> Option<(usize, u64, usize, usize)> {
    let world = begun(alloc, rt)?;
    let mut world = called(alloc, rt, world, method)?;
    let heard = world.take_heard(alloc, &Principal::canister_id(0));
    let texts = heard.texts().items.as_slice();
    let last = texts.last()?;
    Some((
        texts.len(),
        heard.earlier(),
        last.text.items.len(),
        last.more,
    ))
}

// A text as long as memory, and ten thousand texts.
#[test]
fn little_is_kept(rt: HostRuntime) {
    assert_eq!(rt;
        kept(rt.alloc(), &rt, "long"),
        Some((2, 0, 4096, 16_773_120))
    );
    assert_eq!(rt; kept(rt.alloc(), &rt, "often"), Some((100, 9_901, 6, 0)));
}
