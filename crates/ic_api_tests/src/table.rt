// The table of the System API: of each call the kinds, an example of its arguments, what the example
// costs and answers, and what it leaves. The values are worked out by hand.
use crate::machine::{Answer, Left, UNTOUCHED};
use wm_valid::system_api::SystemCall;

/// What is called before the example, where its kind may use it.
#[derive(Clone, Copy)]
pub enum Before {
    Nothing,
    /// Five bytes are appended to the reply.
    Append,
    /// A call is begun.
    Call,
}

#[derive(Clone, Copy)]
pub struct Row {
    pub call: SystemCall,
    /// I init and post_upgrade, G pre_upgrade, U update, Q query, Y reply, T reject, C cleanup,
    /// S start, F inspect.
    pub kinds: &'static str,
    pub before: Before,
    pub args: [u64; 8],
    pub charge: u64,
    pub answer: Answer,
    pub left: Left,
}

const ALL_BUT_START: &str = "IGUQYTCF";

const ALL: &str = "IGUQYTCSF";

fn plain(call: SystemCall, kinds: &'static str, charge: u64, answer: Answer) -> Row {
    Row {
        call,
        kinds,
        before: Before::Nothing,
        args: [0; 8],
        charge,
        answer,
        left: UNTOUCHED,
    }
}

/// A copy of that many bytes from the place to 64.
fn copies(
    call: SystemCall,
    kinds: &'static str,
    [offset, size]: [u64; 2],
    charge: u64,
    memory: u64,
) -> Row {
    Row {
        args: [64, offset, size, 0, 0, 0, 0, 0],
        left: Left {
            memory,
            ..UNTOUCHED
        },
        ..plain(call, kinds, charge, Answer::Nothing)
    }
}

/// Sixteen bytes to 64.
fn puts(call: SystemCall, kinds: &'static str, memory: u64) -> Row {
    Row {
        args: [64, 0, 0, 0, 0, 0, 0, 0],
        left: Left {
            memory,
            ..UNTOUCHED
        },
        ..plain(call, kinds, 17, Answer::Nothing)
    }
}

/// Five bytes of memory, the word `relay`.
fn takes(call: SystemCall, kinds: &'static str, answer: Answer, left: Left) -> Row {
    Row {
        args: [10, 5, 0, 0, 0, 0, 0, 0],
        left,
        ..plain(call, kinds, 6, answer)
    }
}

fn on_call(call: SystemCall, args: [u64; 8], charge: u64, answer: Answer, calls: usize) -> Row {
    Row {
        before: Before::Call,
        args,
        left: Left { calls, ..UNTOUCHED },
        ..plain(call, "UYT", charge, answer)
    }
}

pub fn messages() -> [Row; 10] {
    [
        plain(SystemCall::MsgArgDataSize, "IUQYF", 1, Answer::Number(8)),
        copies(SystemCall::MsgArgDataCopy, "IUQYF", [2, 3], 4, 0x6d_75_67),
        plain(
            SystemCall::MsgCallerSize,
            ALL_BUT_START,
            1,
            Answer::Number(10),
        ),
        copies(
            SystemCall::MsgCallerCopy,
            ALL_BUT_START,
            [7, 3],
            4,
            0x01_01_05,
        ),
        plain(SystemCall::MsgRejectCode, "YT", 1, Answer::Code),
        plain(SystemCall::MsgRejectMsgSize, "T", 1, Answer::Number(3)),
        copies(SystemCall::MsgRejectMsgCopy, "T", [0, 3], 4, 0x79_68_77),
        plain(SystemCall::MsgMethodNameSize, "F", 1, Answer::Number(6)),
        copies(
            SystemCall::MsgMethodNameCopy,
            "F",
            [0, 6],
            7,
            0x64_6f_68_74_65_6d,
        ),
        Row {
            left: Left {
                accepted: true,
                ..UNTOUCHED
            },
            ..plain(SystemCall::AcceptMessage, "F", 1, Answer::Nothing)
        },
    ]
}

pub fn answers() -> [Row; 9] {
    let replied = Left {
        available: 0,
        said: Some((0, "relay", 500)),
        ..UNTOUCHED
    };
    let rejected = Left {
        available: 0,
        said: Some((4, "relay", 500)),
        ..UNTOUCHED
    };
    [
        takes(
            SystemCall::MsgReplyDataAppend,
            "UQYT",
            Answer::Nothing,
            UNTOUCHED,
        ),
        Row {
            before: Before::Append,
            left: replied,
            ..plain(SystemCall::MsgReply, "UQYT", 1, Answer::Nothing)
        },
        takes(SystemCall::MsgReject, "UQYT", Answer::Nothing, rejected),
        plain(
            SystemCall::MsgCyclesAvailable,
            "UYT",
            1,
            Answer::Number(500),
        ),
        puts(SystemCall::MsgCyclesAvailable128, "UYT", 500),
        plain(SystemCall::MsgCyclesRefunded, "YT", 1, Answer::Number(20)),
        puts(SystemCall::MsgCyclesRefunded128, "YT", 20),
        Row {
            args: [300, 0, 0, 0, 0, 0, 0, 0],
            left: Left {
                balance: 1_300,
                available: 200,
                ..UNTOUCHED
            },
            ..plain(SystemCall::MsgCyclesAccept, "UYT", 1, Answer::Number(300))
        },
        Row {
            args: [0, 600, 64, 0, 0, 0, 0, 0],
            left: Left {
                balance: 1_500,
                available: 0,
                memory: 500,
                ..UNTOUCHED
            },
            ..plain(SystemCall::MsgCyclesAccept128, "UYT", 17, Answer::Nothing)
        },
    ]
}

pub fn canisters() -> [Row; 9] {
    let named = Left {
        certified: "relay",
        ..UNTOUCHED
    };
    [
        plain(
            SystemCall::CanisterSelfSize,
            ALL_BUT_START,
            1,
            Answer::Number(10),
        ),
        copies(
            SystemCall::CanisterSelfCopy,
            ALL_BUT_START,
            [7, 3],
            4,
            0x01_01_03,
        ),
        plain(
            SystemCall::CanisterCycleBalance,
            ALL_BUT_START,
            1,
            Answer::Number(1_000),
        ),
        puts(SystemCall::CanisterCycleBalance128, ALL_BUT_START, 1_000),
        plain(
            SystemCall::CanisterStatus,
            ALL_BUT_START,
            1,
            Answer::Number(1),
        ),
        Row {
            args: [0, 10, 0, 0, 0, 0, 0, 0],
            ..plain(
                SystemCall::IsController,
                ALL_BUT_START,
                11,
                Answer::Number(1),
            )
        },
        takes(
            SystemCall::CertifiedDataSet,
            "IGUYT",
            Answer::Nothing,
            named,
        ),
        plain(
            SystemCall::DataCertificatePresent,
            ALL_BUT_START,
            1,
            Answer::Number(0),
        ),
        plain(SystemCall::Time, ALL_BUT_START, 1, Answer::Number(7)),
    ]
}

pub fn calls() -> [Row; 6] {
    [
        Row {
            args: [0, 10, 10, 5, 1, 2, 3, 4],
            ..plain(SystemCall::CallNew, "UYT", 16, Answer::Nothing)
        },
        on_call(
            SystemCall::CallOnCleanup,
            [5, 6, 0, 0, 0, 0, 0, 0],
            1,
            Answer::Nothing,
            0,
        ),
        on_call(
            SystemCall::CallDataAppend,
            [10, 2, 0, 0, 0, 0, 0, 0],
            3,
            Answer::Nothing,
            0,
        ),
        on_call(
            SystemCall::CallCyclesAdd,
            [100, 0, 0, 0, 0, 0, 0, 0],
            1,
            Answer::Nothing,
            0,
        ),
        on_call(
            SystemCall::CallCyclesAdd128,
            [0, 100, 0, 0, 0, 0, 0, 0],
            1,
            Answer::Nothing,
            0,
        ),
        on_call(SystemCall::CallPerform, [0; 8], 1, Answer::Number(0), 1),
    ]
}

fn grows(call: SystemCall) -> Row {
    Row {
        args: [2, 0, 0, 0, 0, 0, 0, 0],
        left: Left {
            pages: 3,
            ..UNTOUCHED
        },
        ..plain(call, ALL_BUT_START, 3, Answer::Number(1))
    }
}

fn writes(call: SystemCall) -> Row {
    Row {
        args: [0, 10, 5, 0, 0, 0, 0, 0],
        left: Left {
            stable: *b"relay\0\0\0",
            ..UNTOUCHED
        },
        ..plain(call, ALL_BUT_START, 6, Answer::Nothing)
    }
}

pub fn stable_memory() -> [Row; 10] {
    [
        plain(SystemCall::StableSize, ALL_BUT_START, 1, Answer::Number(1)),
        grows(SystemCall::StableGrow),
        writes(SystemCall::StableWrite),
        copies(
            SystemCall::StableRead,
            ALL_BUT_START,
            [16, 5],
            6,
            0x73_70_65_65_6b,
        ),
        plain(
            SystemCall::Stable64Size,
            ALL_BUT_START,
            1,
            Answer::Number(1),
        ),
        grows(SystemCall::Stable64Grow),
        writes(SystemCall::Stable64Write),
        copies(
            SystemCall::Stable64Read,
            ALL_BUT_START,
            [16, 5],
            6,
            0x73_70_65_65_6b,
        ),
        Row {
            args: [70_000, 10, 0, 0, 0, 0, 0, 0],
            ..plain(SystemCall::DebugPrint, ALL, 11, Answer::Nothing)
        },
        takes(SystemCall::Trap, ALL, Answer::Trap("relay"), UNTOUCHED),
    ]
}
