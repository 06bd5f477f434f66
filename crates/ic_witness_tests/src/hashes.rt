use crate::trees::bytes;
use ic_base::NoMemory;
use ic_principal::Text;
use ic_tree::{Field, request_id};
use sha2::{Digest, Sha256};
use std::alloc::{AllocError, Global};

fn has_digits(alloc: Global, hash: [u8; 32], digits: &str) -> bool {
    match hex::encode(alloc, hash.as_slice()) {
        Ok(text) => text.as_str() == digits,
        Err(_) => false,
    }
}

// ---- SHA-256 (FIPS 180-4)

static HASHES: [(&[u8], &str); 10] = [
    (
        b"",
        "e3b0c44298fc1c149afbf4c8996fb92427ae41e4649b934ca495991b7852b855",
    ),
    (
        b"\0asm\x01\0\0\0",
        "93a44bbb96c751218e4c00d479e4c14358122a389acca16205b1e4d0dc5f9476",
    ),
    (
        b"request_type",
        "769e6f87bdda39c859642b74ce9763cdd37cb1cd672733e8c54efaa33ab78af9",
    ),
    (
        b"call",
        "7edb360f06acaef2cc80dba16cf563f199d347db4443da04da0c8173e3f9e4ed",
    ),
    (
        b"canister_id",
        "0a3eb2ba16702a387e6321066dd952db7a31f9b5cc92981e0a92dd56802d3df9",
    ),
    (
        b"\0\0\0\0\0\0\x04\xD2",
        "4d8c47c3c1c837964011441882d745f7e92d10a40cef0520447c63029eafe396",
    ),
    (
        b"method_name",
        "293536232cf9231c86002f4ee293176a0179c002daa9fc24be9bb51acdd642b6",
    ),
    (
        b"hello",
        "2cf24dba5fb0a30e26e83b2ac5b9e29e1b161e5c1fa7425e73043362938b9824",
    ),
    (
        b"arg",
        "b25f03dedd69be07f356a06fe35c1b0ddc0de77dcd9066c4be0c6bbde14b23ff",
    ),
    (
        b"DIDL\0\xFD*",
        "6c0b2ae49718f6995c02ac5700c9c789d7b7862a0d53e6d40a73f1fcd2f70189",
    ),
];

fn hashes() -> &'static [(&'static [u8], &'static str)] {
    &HASHES
}

#[test]
fn messages_are_hashed(rt: HostRuntime) {
    for (message, digits) in hashes() {
        assert!(rt;
            has_digits(rt.alloc(), Sha256::digest(*message), digits),
            "{message:?}"
        );
    }
}

// ---- request ids

fn add_field(
    alloc: Global,
    fields: &mut Vec<(Text, Field)>,
    key: &str,
    value: &[u8],
) -> Result<(), NoMemory> {
    match (String::from_str(alloc, key), bytes(alloc, value)) {
        (Ok(items), Ok(value)) => {
            fields.push((Text { items }, Field::Bytes(value)))?;
            Ok(())
        }
        _ => Err(AllocError),
    }
}

// The example of the IC Interface Specification ("Request ids").
fn example(alloc: Global) -> Result<Vec<(Text, Field)>, NoMemory> {
    let mut fields = Vec::new(alloc);
    for (key, value) in [
        ("request_type", b"call".as_slice()),
        ("canister_id", b"\0\0\0\0\0\0\x04\xD2".as_slice()),
        ("method_name", b"hello".as_slice()),
        ("arg", b"DIDL\0\xFD*".as_slice()),
    ] {
        add_field(alloc, &mut fields, key, value)?;
    }
    Ok(fields)
}

fn has_id(alloc: Global, fields: &[(Text, Field)], digits: &str) -> bool {
    match request_id(alloc, fields) {
        Ok(id) => has_digits(alloc, id, digits),
        Err(_) => false,
    }
}

fn is_named(alloc: Global, digits: &str) -> bool {
    match example(alloc) {
        Ok(fields) => has_id(alloc, &fields, digits),
        Err(_) => false,
    }
}

#[test]
fn request_is_named(rt: HostRuntime) {
    let digits = "8781291c347db32a9d8c10eb62b710fce5a93be676474c42babc74c51858f94b";
    assert!(rt; is_named(rt.alloc(), digits));
}
