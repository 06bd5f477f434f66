/// How a call of a method without an argument ends, at a balance of 1,000.
#[derive(Clone, Copy)]
pub struct Row {
    pub method: &'static str,
    pub limit: u64,
    pub price: u64,
    pub used: u64,
    /// The reject code, or 0 for a reply.
    pub code: u32,
    pub answer: &'static [u8],
    pub balance: u128,
}

const fn ending(
    method: &'static str,
    limit: u64,
    price: u64,
    used: u64,
    code: u32,
    answer: &'static [u8],
    balance: u128,
) -> Row {
    Row {
        method,
        limit,
        price,
        used,
        code,
        answer,
        balance,
    }
}

/// Calls of the relay module.
pub fn relaying() -> [Row; 7] {
    let first = b"\x01\x00\x00\x00\x00\x00\x00\x00";
    let limit = b"canister trapped: instruction limit";
    [
        ending("relay", 29, 0, 29, 0, first, 1000),
        ending("relay", 28, 0, 28, 5, limit, 1000),
        ending("relay", 29, 34, 29, 0, first, 14),
        ending("relay", 29, 35, 0, 2, b"canister out of cycles", 1000),
        ending("relay", 28, 35, 28, 5, limit, 20),
        ending("relay", 1000, 1, 29, 0, first, 971),
        ending("other", 29, 35, 0, 5, b"canister has no such method", 1000),
    ]
}
