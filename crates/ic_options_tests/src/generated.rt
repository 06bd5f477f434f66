use ic_generate::generate;
use sha2::{Digest, Sha256};
use std::alloc::Global;

// Number, length and SHA-256 of a script, as a Python program makes it that encodes the relay module
// by itself.
static SCRIPTS: [(u32, usize, &str); 5] = [
    (
        0,
        9514,
        "99f27f58cd83c91ec5ca5d68d8b316d77c8ed13ce49b18fd758e956368bf230c",
    ),
    (
        1,
        9624,
        "ce9949530b08c53f56c94da88657933d1ffa9b1bc687e8b3b4ac97ce582222d7",
    ),
    (
        50,
        13_570,
        "5cf077dddd363e99441cdae91770374758c431d3af739f1b384a877080ab2523",
    ),
    (
        400,
        42_112,
        "88313379baaba0d48c743a0ced65ce808cc15425e019a7473b513d599dcd48ae",
    ),
    (
        10_000,
        812_253,
        "f2f8b3bb9deae1dc650c7cdb498b698542eeb085cdc4a69c05d6c4a56652e1cc",
    ),
];

fn scripts() -> &'static [(u32, usize, &'static str)] {
    &SCRIPTS
}

fn has_digits(alloc: Global, hash: [u8; 32], digits: &str) -> bool {
    match hex::encode(alloc, hash.as_slice()) {
        Ok(text) => text.as_str() == digits,
        Err(_) => false,
    }
}

fn is_made(alloc: Global, number: u32, length: usize, digits: &str) -> bool {
    match generate(alloc, number.min(10_000)) {
        Ok(script) => {
            script.items.len() == length
                && has_digits(alloc, Sha256::digest(script.items.as_slice()), digits)
        }
        Err(_) => false,
    }
}

#[test]
fn scripts_are_as_told(rt: HostRuntime) {
    for (number, length, digits) in scripts() {
        assert!(rt; is_made(rt.alloc(), *number, *length, digits), "{number}");
    }
}
