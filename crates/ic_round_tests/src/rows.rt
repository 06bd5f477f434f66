/// Messages that stand one after another in the list: all calls, or all answers, of one canister to another.
#[derive(Clone, Copy)]
pub struct Run {
    pub is_answer: bool,
    /// The canisters by their numbers.
    pub sender: u64,
    pub callee: u64,
    /// Of their calls: from the first to before the second.
    pub numbers: [u64; 2],
}

// No message.
const NONE: Run = Run {
    is_answer: false,
    sender: 0,
    callee: 1,
    numbers: [0, 0],
};

// Calls of the first canister to the second one.
const fn calls(from: u64, to: u64) -> Run {
    Run {
        is_answer: false,
        sender: 0,
        callee: 1,
        numbers: [from, to],
    }
}

// The second canister's answers to them.
const fn answers(from: u64, to: u64) -> Run {
    Run {
        is_answer: true,
        sender: 1,
        callee: 0,
        numbers: [from, to],
    }
}

/// What a round leaves: all that is under way in its order, the cycles in it, and the balances of both canisters.
#[derive(Clone, Copy)]
pub struct Seen {
    pub listed: [Run; 2],
    pub cycles: u128,
    pub balances: [u128; 2],
}

/// How a call of the first canister goes, which runs the module that calls, or else the relay module.
#[derive(Clone, Copy)]
pub struct Row {
    pub method: &'static str,
    pub arg: &'static [u8],
    pub price: u64,
    /// After each of the first three rounds.
    pub seen: [Seen; 3],
    /// The rounds that follow.
    pub rounds: u32,
    pub last: Seen,
    pub burned: u128,
    /// The reject code, or 0 for a reply.
    pub code: u32,
    pub answer: &'static [u8],
    /// The first byte of the first canister's memory.
    pub stored: u8,
}

const fn after(front: Run, back: Run, cycles: u128, first: u128, second: u128) -> Seen {
    Seen {
        listed: [front, back],
        cycles,
        balances: [first, second],
    }
}

/// Calls of the relay module: one is relayed and its second canister accepts 300 of 500 cycles, with 67
/// instructions for the call, 29 where it is taken and 30 for the callback; one has no argument.
pub fn relaying() -> [Row; 3] {
    let first = b"\x01\x00\x00\x00\x00\x00\x00\x00";
    let second = b"\x00\x00\x00\x00\x00\x00\x00\x01\x01\x01";
    [
        Row {
            method: "relay",
            arg: second,
            price: 0,
            seen: [
                after(calls(0, 1), NONE, 500, 999_999_999_500, 1_000_000_000_000),
                after(answers(0, 1), NONE, 200, 999_999_999_500, 1_000_000_000_300),
                after(NONE, NONE, 0, 999_999_999_700, 1_000_000_000_300),
            ],
            rounds: 0,
            last: after(NONE, NONE, 0, 999_999_999_700, 1_000_000_000_300),
            burned: 0,
            code: 0,
            answer: first,
            stored: b'r',
        },
        Row {
            method: "relay",
            arg: second,
            price: 1,
            seen: [
                after(calls(0, 1), NONE, 500, 999_999_999_433, 1_000_000_000_000),
                after(answers(0, 1), NONE, 200, 999_999_999_433, 1_000_000_000_271),
                after(NONE, NONE, 0, 999_999_999_603, 1_000_000_000_271),
            ],
            rounds: 0,
            last: after(NONE, NONE, 0, 999_999_999_603, 1_000_000_000_271),
            burned: 126,
            code: 0,
            answer: first,
            stored: b'r',
        },
        Row {
            method: "relay",
            arg: b"",
            price: 20_000,
            seen: [
                after(NONE, NONE, 0, 999_999_420_000, 1_000_000_000_000),
                after(NONE, NONE, 0, 999_999_420_000, 1_000_000_000_000),
                after(NONE, NONE, 0, 999_999_420_000, 1_000_000_000_000),
            ],
            rounds: 0,
            last: after(NONE, NONE, 0, 999_999_420_000, 1_000_000_000_000),
            burned: 580_000,
            code: 0,
            answer: first,
            stored: b'r',
        },
    ]
}

/// Calls of the module that calls. Its callback traps, of 1 instruction, and the cleanup of 3 stores; or it
/// replies again, which traps; or one of 501 calls is refused, of 39 instructions each, and the others come
/// back one a round.
pub fn asking() -> [Row; 6] {
    let trapped = b"canister trapped: unreachable";
    [
        Row {
            method: "cleans",
            arg: b"",
            price: 0,
            seen: [
                after(calls(0, 1), NONE, 500, 999_999_999_500, 1_000_000_000_000),
                after(answers(0, 1), NONE, 200, 999_999_999_500, 1_000_000_000_300),
                after(NONE, NONE, 0, 999_999_999_700, 1_000_000_000_300),
            ],
            rounds: 0,
            last: after(NONE, NONE, 0, 999_999_999_700, 1_000_000_000_300),
            burned: 0,
            code: 5,
            answer: trapped,
            stored: 1,
        },
        Row {
            method: "cleans",
            arg: b"",
            price: 1,
            seen: [
                after(calls(0, 1), NONE, 500, 999_999_999_465, 1_000_000_000_000),
                after(answers(0, 1), NONE, 200, 999_999_999_465, 1_000_000_000_271),
                after(NONE, NONE, 0, 999_999_999_661, 1_000_000_000_271),
            ],
            rounds: 0,
            last: after(NONE, NONE, 0, 999_999_999_661, 1_000_000_000_271),
            burned: 68,
            code: 5,
            answer: trapped,
            stored: 1,
        },
        Row {
            method: "replies",
            arg: b"",
            price: 0,
            seen: [
                after(calls(0, 1), NONE, 500, 999_999_999_500, 1_000_000_000_000),
                after(answers(0, 1), NONE, 200, 999_999_999_500, 1_000_000_000_300),
                after(NONE, NONE, 0, 999_999_999_700, 1_000_000_000_300),
            ],
            rounds: 0,
            last: after(NONE, NONE, 0, 999_999_999_700, 1_000_000_000_300),
            burned: 0,
            code: 0,
            answer: b"relay",
            stored: 0,
        },
        Row {
            method: "replies",
            arg: b"",
            price: 1,
            seen: [
                after(calls(0, 1), NONE, 500, 999_999_999_458, 1_000_000_000_000),
                after(answers(0, 1), NONE, 200, 999_999_999_458, 1_000_000_000_271),
                after(NONE, NONE, 0, 999_999_999_656, 1_000_000_000_271),
            ],
            rounds: 0,
            last: after(NONE, NONE, 0, 999_999_999_656, 1_000_000_000_271),
            burned: 73,
            code: 0,
            answer: b"relay",
            stored: 0,
        },
        Row {
            method: "many",
            arg: b"",
            price: 0,
            seen: [
                after(
                    calls(0, 500),
                    NONE,
                    250_000,
                    999_999_750_000,
                    1_000_000_000_000,
                ),
                after(
                    calls(1, 500),
                    answers(0, 1),
                    249_700,
                    999_999_750_000,
                    1_000_000_000_300,
                ),
                after(
                    calls(2, 500),
                    answers(1, 2),
                    249_200,
                    999_999_750_200,
                    1_000_000_000_600,
                ),
            ],
            rounds: 499,
            last: after(NONE, NONE, 0, 999_999_850_000, 1_000_000_150_000),
            burned: 0,
            code: 0,
            answer: b"\x02\x00\x00\x00",
            stored: 2,
        },
        Row {
            method: "many",
            arg: b"",
            price: 1,
            seen: [
                after(
                    calls(0, 500),
                    NONE,
                    250_000,
                    999_999_730_448,
                    1_000_000_000_000,
                ),
                after(
                    calls(1, 500),
                    answers(0, 1),
                    249_700,
                    999_999_730_448,
                    1_000_000_000_271,
                ),
                after(
                    calls(2, 500),
                    answers(1, 2),
                    249_200,
                    999_999_730_648,
                    1_000_000_000_542,
                ),
            ],
            rounds: 499,
            last: after(NONE, NONE, 0, 999_999_830_448, 1_000_000_135_500),
            burned: 34_052,
            code: 0,
            answer: b"\x02\x00\x00\x00",
            stored: 2,
        },
    ]
}
