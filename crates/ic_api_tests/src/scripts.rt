// Calls one after the other: limits on both sides, and what comes after an answer or a call.
use crate::machine::*;
use ic_api::EntryKind;
use ic_base::NoMemory;
use std::alloc::Global;
use std::process::Abort;
use std::test::*;
use wm_valid::system_api::SystemCall;

const REFUSED: Answer = Answer::Trap("system call");

fn two(call: SystemCall, a: u64, b: u64, answer: Answer) -> Turn {
    asking(call, [a, b, 0, 0, 0, 0, 0, 0], answer)
}

fn three(call: SystemCall, a: u64, b: u64, c: u64, answer: Answer) -> Turn {
    asking(call, [a, b, c, 0, 0, 0, 0, 0], answer)
}

/// A call to that many bytes of memory, with a name of that many.
fn new_call(callee: u64, name: u64, answer: Answer) -> Turn {
    asking(
        SystemCall::CallNew,
        [64, callee, 128, name, 0, 0, 0, 0],
        answer,
    )
}

/// Answers: once, of 2 MiB at most, with what is available then.
fn answering() -> [Turn; 10] {
    [
        two(SystemCall::MsgCyclesAccept, 300, 0, Answer::Number(300)),
        two(SystemCall::MsgReplyDataAppend, 0, 2_097_153, REFUSED),
        two(
            SystemCall::MsgReplyDataAppend,
            64,
            2_097_147,
            Answer::Nothing,
        ),
        two(SystemCall::MsgReplyDataAppend, 10, 6, REFUSED),
        two(SystemCall::MsgReplyDataAppend, 10, 5, Answer::Nothing),
        two(SystemCall::MsgReject, 10, 6, REFUSED),
        two(SystemCall::MsgReject, 10, 5, Answer::Nothing),
        two(SystemCall::MsgReply, 0, 0, REFUSED),
        two(SystemCall::MsgReplyDataAppend, 0, 0, REFUSED),
        two(SystemCall::MsgCyclesAvailable, 0, 0, Answer::Number(0)),
    ]
}

/// Calls: ids of 29 bytes, names of 20,000, arguments of 2 MiB at most. 499 calls have no answer
/// yet: one more goes out, the next is dropped, and its cycles return.
fn calling() -> [Turn; 22] {
    [
        two(SystemCall::CallCyclesAdd, 1, 0, REFUSED),
        two(SystemCall::CallPerform, 0, 0, REFUSED),
        new_call(30, 0, REFUSED),
        new_call(29, 20_001, REFUSED),
        two(SystemCall::CallDataAppend, 0, 0, REFUSED),
        new_call(29, 20_000, Answer::Nothing),
        two(SystemCall::CallCyclesAdd128, 0, 100, Answer::Nothing),
        // another call takes its place, and the cycles return
        new_call(0, 0, Answer::Nothing),
        two(SystemCall::CallCyclesAdd128, 1, 0, REFUSED),
        two(SystemCall::CallCyclesAdd, 1_001, 0, REFUSED),
        two(SystemCall::CallCyclesAdd, 1_000, 0, Answer::Nothing),
        two(SystemCall::CanisterCycleBalance, 0, 0, Answer::Number(0)),
        two(SystemCall::CallOnCleanup, 1, 2, Answer::Nothing),
        two(SystemCall::CallOnCleanup, 1, 2, REFUSED),
        two(SystemCall::CallDataAppend, 0, 2_097_153, REFUSED),
        two(SystemCall::CallDataAppend, 0, 2_097_152, Answer::Nothing),
        two(SystemCall::CallPerform, 0, 0, Answer::Number(0)),
        two(SystemCall::CallPerform, 0, 0, REFUSED),
        new_call(0, 0, Answer::Nothing),
        two(SystemCall::CallPerform, 0, 0, Answer::Number(2)),
        two(SystemCall::CallOnCleanup, 1, 2, REFUSED),
        new_call(15, 0, Answer::Nothing),
    ]
}

/// Ends of memory, of a source and of stable memory. No bytes one past an end are refused.
fn ends() -> [Turn; 12] {
    let memory = 40 * 65_536;
    [
        three(
            SystemCall::MsgArgDataCopy,
            memory - 8,
            0,
            8,
            Answer::Nothing,
        ),
        three(SystemCall::MsgArgDataCopy, memory - 7, 0, 8, REFUSED),
        three(SystemCall::MsgArgDataCopy, memory, 8, 0, Answer::Nothing),
        three(SystemCall::MsgArgDataCopy, 0, 9, 0, REFUSED),
        two(SystemCall::CanisterCycleBalance128, memory - 15, 0, REFUSED),
        three(SystemCall::Stable64Write, 65_531, 10, 5, Answer::Nothing),
        three(SystemCall::Stable64Write, 65_532, 10, 5, REFUSED),
        three(
            SystemCall::Stable64Read,
            memory - 5,
            65_531,
            5,
            Answer::Nothing,
        ),
        three(
            SystemCall::Stable64Read,
            0,
            u64::MAX,
            u64::MAX,
            Answer::Trap("instruction limit"),
        ),
        two(
            SystemCall::StableGrow,
            256,
            0,
            Answer::Number(4_294_967_295),
        ),
        two(
            SystemCall::Stable64Grow,
            u64::MAX,
            0,
            Answer::Number(u64::MAX),
        ),
        two(SystemCall::StableGrow, 255, 0, Answer::Number(1)),
    ]
}

/// Controllers, certified data, inspection and messages of traps.
fn rest() -> [Turn; 8] {
    [
        two(SystemCall::IsController, 64, 29, Answer::Number(0)),
        two(SystemCall::IsController, 64, 30, REFUSED),
        two(SystemCall::AcceptMessage, 0, 0, Answer::Nothing),
        two(SystemCall::AcceptMessage, 0, 0, REFUSED),
        two(SystemCall::Trap, 10, 6, REFUSED),
        two(SystemCall::Trap, 64, 8_193, REFUSED),
        two(SystemCall::Trap, 10, 0, Answer::Trap("")),
        two(SystemCall::CertifiedDataSet, 0, 1, REFUSED),
    ]
}

fn ask_all(
    rt: &impl Abort,
    machine: &mut Machine,
    kind: EntryKind,
    turns: &[Turn],
) -> Result<(), NoMemory> {
    for turn in turns {
        let answer = machine.ask(rt, turn)?;
        check_answer(rt, kind, turn.call, &answer, turn.answer);
    }
    Ok(())
}

fn try_all(
    rt: &impl Abort,
    alloc: Global,
    kind: EntryKind,
    turns: &[Turn],
    left: &Left,
) -> Result<(), NoMemory> {
    let mut machine = begun(alloc, kind, 499, 40, 100_000_000)?;
    let asked = ask_all(rt, &mut machine, kind, turns);
    asked?;
    check_end(rt, SystemCall::Time, machine, left);
    Ok(())
}

#[test]
fn calls_one_after_the_other(rt: HostRuntime) -> Result<(), NoMemory> {
    let alloc = rt.alloc();
    let answered = Left {
        balance: 1_300,
        available: 0,
        said: Some((4, "relay", 200)),
        ..UNTOUCHED
    };
    try_all(&rt, alloc, EntryKind::Update, &answering(), &answered)?;
    let called = Left {
        balance: 0,
        calls: 1,
        ..UNTOUCHED
    };
    try_all(&rt, alloc, EntryKind::Reject, &calling(), &called)?;
    let grown = Left {
        pages: 256,
        ..UNTOUCHED
    };
    try_all(&rt, alloc, EntryKind::Query, &ends(), &grown)?;
    let accepted = Left {
        accepted: true,
        ..UNTOUCHED
    };
    try_all(&rt, alloc, EntryKind::Inspect, &rest(), &accepted)
}
