use ic_order::way_of;
use ic_state::{Canister, Message, Parts, Request, World};
use std::alloc::Global;

// A digest of bytes after another one (FNV-1a).
fn mix(digest: u64, bytes: &[u8]) -> u64 {
    let mut digest = digest;
    for byte in bytes {
        digest = (digest ^ *byte as u64).wrapping_mul(1_099_511_628_211);
    }
    digest
}

fn mix_canister(alloc: Global, digest: u64, canister: &Canister) -> Option<u64> {
    let store = canister.store.get();
    let text = format!(in alloc;
        "{:?} {:?} {:?} {} {} {} {} {:?} {} {}",
        canister.id,
        canister.phase,
        canister.contexts,
        canister.balance,
        canister.next_call,
        canister.outstanding,
        canister.code.is_some(),
        canister.certified,
        store.pages(),
        store.stable_pages(),
    )
    .ok()?;
    Some(mix(mix(digest, text.as_bytes()), store.memory()))
}

fn mix_answers(alloc: Global, digest: u64, requests: &[Request]) -> Option<u64> {
    let mut digest = digest;
    for request in requests {
        let text = format!(in alloc; "{:?}", request.answer).ok()?;
        digest = mix(digest, text.as_bytes());
    }
    Some(digest)
}

// All but the messages.
fn mix_rest(alloc: Global, digest: u64, parts: &Parts) -> Option<u64> {
    let text = format!(in alloc; "{} {}", parts.burned, parts.next_canister).ok()?;
    let mut digest = mix(digest, text.as_bytes());
    digest = mix_answers(alloc, digest, parts.requests.items.as_slice())?;
    for canister in parts.canisters.values() {
        digest = mix_canister(alloc, digest, canister.get())?;
    }
    Some(digest)
}

/// A number for what is under way, what was answered, and what canisters keep beside their code, table, globals and the
/// bytes of stable memory, after the number before. `None` where memory ran out.
pub fn digest_with(alloc: Global, before: Option<u64>, world: &World) -> Option<u64> {
    let parts = world.parts();
    let text = format!(in alloc; "{:?}", parts.messages.items.as_slice()).ok()?;
    mix_rest(alloc, mix(before?, text.as_bytes()), parts)
}

// Of messages up to the order of those that go different ways.
fn mix_ways(alloc: Global, messages: &[Message]) -> Option<u64> {
    let mut digests = Vec::new(alloc);
    for message in messages {
        let text = format!(in alloc; "{message:?}").ok()?;
        digests
            .push((way_of(message), mix(0, text.as_bytes())))
            .ok()?;
    }
    digests.sort_by_key(|digest| digest.0).ok()?;
    let mut digest = 0;
    for (_, next) in &digests {
        digest = mix(digest, &next.to_le_bytes());
    }
    Some(digest)
}

/// The same up to the order of messages that go different ways.
pub fn digest_by_ways(alloc: Global, world: &World) -> Option<u64> {
    let parts = world.parts();
    let digest = mix_ways(alloc, parts.messages.items.as_slice())?;
    mix_rest(alloc, digest, parts)
}
