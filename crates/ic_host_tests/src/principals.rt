use ic_principal::{Bytes, Principal, Text};
use std::alloc::Global;
use std::cmp::Ordering;

// Numbers of canisters, and the texts of their principals, as Python's `zlib.crc32` and `base64.b32encode` give them.
static CANISTERS: [(u64, &str); 3] = [
    (0, "rwlgt-iiaaa-aaaaa-aaaaa-cai"),
    (1, "rrkah-fqaaa-aaaaa-aaaaq-cai"),
    (u64::MAX, "37pka-5h777-77777-7777q-cai"),
];

fn canisters() -> &'static [(u64, &'static str)] {
    &CANISTERS
}

fn is_shown(alloc: Global, principal: &Principal, text: &str) -> bool {
    match format!(in alloc; "{principal}{principal:?}") {
        Ok(shown) => shown.as_str().strip_prefix(text) == Some(text),
        Err(_) => false,
    }
}

#[test]
fn canister_ids(rt: HostRuntime) {
    for (counter, text) in canisters() {
        let id = Principal::canister_id(*counter);
        assert!(rt; Principal::from_text(text) == Ok(id) && is_shown(rt.alloc(), &id, text));
    }
}

static RISING: [&[u8]; 5] = [&[], &[0], &[0, 0], &[0, 1], &[1]];

fn rising() -> &'static [&'static [u8]] {
    &RISING
}

fn are_ordered(low: &[u8], high: &[u8], order: Ordering) -> bool {
    match (Principal::from_bytes(low), Principal::from_bytes(high)) {
        (Ok(low), Ok(high)) => {
            low.cmp(&high) == order && (low == high) == (order == Ordering::Equal)
        }
        _ => false,
    }
}

#[test]
fn order(rt: HostRuntime) {
    for (i, low) in rising().iter().enumerate() {
        for (j, high) in rising().iter().enumerate() {
            assert!(rt; are_ordered(low, high, i.cmp(&j)));
        }
    }
}

fn is_copied(bytes: &Bytes) -> bool {
    match bytes.copy() {
        Ok(copy) => copy.items.as_slice() == bytes.items.as_slice(),
        Err(_) => false,
    }
}

fn is_text_copied(text: &Text) -> bool {
    match text.copy() {
        Ok(copy) => copy.items.as_str() == text.items.as_str(),
        Err(_) => false,
    }
}

fn are_bytes_copied(alloc: Global) -> bool {
    match Vec::from_slice(alloc, &[1, 2, 3]) {
        Ok(items) => is_copied(&Bytes { items }),
        Err(_) => false,
    }
}

fn is_a_text_copied(alloc: Global) -> bool {
    match String::from_str(alloc, "text") {
        Ok(items) => is_text_copied(&Text { items }),
        Err(_) => false,
    }
}

#[test]
fn copies(rt: HostRuntime) {
    assert!(rt; are_bytes_copied(rt.alloc()));
    assert!(rt; is_a_text_copied(rt.alloc()));
}
