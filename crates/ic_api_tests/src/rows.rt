// Every row of the table in every kind, at its charge and one below.
use crate::machine::*;
use crate::table::*;
use ic_api::EntryKind;
use ic_base::NoMemory;
use std::alloc::Global;
use std::process::Abort;
use std::test::*;
use wm_semantics::Meter;
use wm_valid::system_api::SystemCall;

/// Each kind, and its letter.
fn kinds() -> [(EntryKind, char); 9] {
    [
        (EntryKind::Init, 'I'),
        (EntryKind::PreUpgrade, 'G'),
        (EntryKind::Update, 'U'),
        (EntryKind::Query, 'Q'),
        (EntryKind::Reply, 'Y'),
        (EntryKind::Reject, 'T'),
        (EntryKind::Cleanup, 'C'),
        (EntryKind::Start, 'S'),
        (EntryKind::Inspect, 'F'),
    ]
}

/// Makes the call that comes before.
fn prepare(rt: &impl Abort, machine: &mut Machine, before: Before) -> Result<(), NoMemory> {
    let (call, args) = match before {
        Before::Nothing => return Ok(()),
        Before::Append => (SystemCall::MsgReplyDataAppend, [10, 5, 0, 0, 0, 0, 0, 0]),
        Before::Call => (SystemCall::CallNew, [0, 10, 10, 5, 1, 2, 3, 4]),
    };
    machine.ask(rt, &asking(call, args, Answer::Nothing))?;
    Ok(())
}

/// What the call answers, and what it uses.
fn expected(row: &Row, may: bool, limit: u64) -> (Answer, u64) {
    if limit < row.charge {
        (Answer::Trap("instruction limit"), 0)
    } else if may {
        (row.answer, row.charge)
    } else {
        (Answer::Trap("system call"), row.charge)
    }
}

fn ask_row(
    rt: &impl Abort,
    machine: &mut Machine,
    row: &Row,
    kind: EntryKind,
    may: bool,
    limit: u64,
) -> Result<(), NoMemory> {
    if may {
        prepare(rt, machine, row.before)?;
    }
    machine.meter = Meter::new(limit);
    let answer = machine.ask(rt, &asking(row.call, row.args, row.answer))?;
    let (told, used) = expected(row, may, limit);
    check_answer(rt, kind, row.call, &answer, told);
    assert_eq!(rt; machine.meter.used(), used, "{:?} in {kind:?}", row.call);
    Ok(())
}

fn try_row(
    rt: &impl Abort,
    alloc: Global,
    row: &Row,
    (kind, letter): (EntryKind, char),
    limit: u64,
) -> Result<(), NoMemory> {
    let may = row.kinds.contains(letter);
    let mut machine = begun(alloc, kind, 0, 1, 1_000)?;
    let asked = ask_row(rt, &mut machine, row, kind, may, limit);
    let runs = may && limit >= row.charge;
    let left = if runs { row.left } else { UNTOUCHED };
    asked?;
    check_end(rt, row.call, machine, &left);
    Ok(())
}

fn try_row_in_kinds(rt: &impl Abort, alloc: Global, row: &Row) -> Result<(), NoMemory> {
    for kind in kinds() {
        try_row(rt, alloc, row, kind, row.charge)?;
        try_row(rt, alloc, row, kind, row.charge.saturating_sub(1))?;
    }
    Ok(())
}

fn try_rows(rt: &impl Abort, alloc: Global, rows: &[Row]) -> Result<(), NoMemory> {
    for row in rows {
        try_row_in_kinds(rt, alloc, row)?;
    }
    Ok(())
}

#[test]
fn every_row_in_every_kind(rt: HostRuntime) -> Result<(), NoMemory> {
    let alloc = rt.alloc();
    try_rows(&rt, alloc, &messages())?;
    try_rows(&rt, alloc, &answers())?;
    try_rows(&rt, alloc, &canisters())?;
    try_rows(&rt, alloc, &calls())?;
    try_rows(&rt, alloc, &stable_memory())
}
