// An execution whose code is a list of calls, and what it is to leave.
ghost use Rattle.std.specs.Prelude.{◌≡◌, ◌+◌, ◌<◌, ◌≤◌, true, IfOk};
ghost use Rattle.wm_store.specs.Values.{limit_of, AreValues};

use ic_api::{Api, Controllers, Effects, EntryKind, Response, View};
use ic_base::NoMemory;
use ic_principal::{Bytes, Principal, Text};
use std::alloc::Global;
use std::process::Abort;
use std::test::*;
use wm_semantics::{Host, HostAnswer, Meter};
use wm_store::Store;
use wm_tree::ValType;
use wm_valid::system_api::SystemCall;

/// What a call is to answer.
#[derive(Clone, Copy)]
pub enum Answer {
    Nothing,
    Number(u64),
    /// A trap with this text.
    Trap(&'static str),
    /// 0 in a reply callback, else 5.
    Code,
}

/// A call with its arguments, the first of which are taken, and what it is to answer.
#[derive(Clone, Copy)]
pub struct Turn {
    pub call: SystemCall,
    pub args: [u64; 8],
    pub answer: Answer,
}

pub fn asking(call: SystemCall, args: [u64; 8], answer: Answer) -> Turn {
    Turn { call, args, answer }
}

/// What an execution is to leave.
#[derive(Clone, Copy)]
pub struct Left {
    pub balance: u128,
    pub available: u128,
    /// Code (0 for a reply), bytes and refund.
    pub said: Option<(u32, &'static str, u128)>,
    pub calls: usize,
    pub certified: &'static str,
    pub accepted: bool,
    /// Eight bytes of memory from 64 on, and of stable memory from 0 on.
    pub memory: u64,
    pub stable: [u8; 8],
    pub pages: u32,
}

pub const UNTOUCHED: Left = Left {
    balance: 1_000,
    available: 500,
    said: None,
    calls: 0,
    certified: "old",
    accepted: false,
    memory: 0,
    stable: [0; 8],
    pages: 1,
};

/// The host of an execution, with what the code has.
#[derive(Drop)]
pub struct Machine {
    pub api: Api,
    pub store: Store,
    pub meter: Meter,
}

fn text(alloc: Global, s: &str) -> Result<Text, NoMemory> {
    Ok(Text {
        items: String::from_str(alloc, s)?,
    })
}

fn bytes(alloc: Global, s: &str) -> Result<Bytes, NoMemory> {
    Ok(Bytes {
        items: Vec::from_slice(alloc, s.as_bytes())?,
    })
}

fn view(alloc: Global, outstanding: u32) -> Result<View, NoMemory>
    ensures cycles { IfOk result (λ v. v.balance + v.available ≤ 1500) }
    ensures outstanding { IfOk result (λ v. v.outstanding ≡ outstanding) }
{
    Ok(View {
        time: 7,
        id: Principal::canister_id(3),
        balance: 1_000,
        phase_number: 1,
        controllers: Controllers {
            items: vec![in alloc; Principal::canister_id(4)]?,
        },
        caller: Principal::canister_id(5),
        arg: bytes(alloc, "argument")?,
        method: text(alloc, "method")?,
        reject_code: 5,
        reject_message: text(alloc, "why")?,
        refund: 20,
        available: 500,
        responded: false,
        outstanding,
        next_call: 9,
        certified: bytes(alloc, "old")?,
    })
}

/// A page of stable memory, in which `keeps` is at 16, and that many of memory, in which the id of
/// canister 4 is at 0 and `relay` and a byte that is no UTF-8 after it.
fn store(alloc: Global, pages: u32) -> Result<Store, NoMemory>
    requires { pages ≤ 256 }
{
    let mut store = Store::make(alloc, pages, None, Vec::new(alloc), Vec::new(alloc))?;
    store.copy_into(0, b"\0\0\0\0\0\0\0\x04\x01\x01relay\xff")?;
    store.stable_grow(1)?;
    store.stable_write(16, b"keeps")?;
    Ok(store)
}

/// A machine with that many pages of memory, and that many calls that have no answer yet.
pub fn begun(
    alloc: Global,
    kind: EntryKind,
    outstanding: u32,
    pages: u32,
    limit: u64,
) -> Result<Machine, NoMemory>
    requires calls { outstanding ≤ 500 }
    requires pages { pages ≤ 256 }
{
    let store = store(alloc, pages)?;
    let view = view(alloc, outstanding)?;
    Ok(Machine {
        api: Api::new(alloc, kind, view),
        store,
        meter: Meter::new(limit),
    })
}

fn is_value(t: ValType, value: u64) -> bool
    ensures { result ≡ true → value < limit_of t }
{
    match t {
        ValType::I32 => value <= u32::MAX as u64,
        ValType::I64 => true,
    }
}

/// Whether the numbers are values of the types.
fn are_values(types: &[ValType], args: &[u64]) -> bool
    ensures { result ≡ true → AreValues types.now args.now }
{
    match (types.split_first(), args.split_first()) {
        (None, None) => true,
        (Some((t, types)), Some((value, args))) => {
            is_value(*t, *value) && are_values(types, args)
        }
        _ => false,
    }
}

impl Machine {
    /// Makes the call.
    pub fn ask(&mut self, rt: &impl Abort, turn: &Turn) -> Result<HostAnswer, NoMemory> {
        let params = turn.call.params();
        assert!(rt; params.len() <= 8);
        let args = &turn.args[..params.len()];
        assert!(rt; are_values(params, args), "{:?}", turn.call);
        self.api
            .call(turn.call.number(), args, &mut self.store, &mut self.meter)
    }
}

pub fn check_answer(
    rt: &impl Abort,
    kind: EntryKind,
    call: SystemCall,
    answer: &HostAnswer,
    expected: Answer,
) {
    let code = match kind {
        EntryKind::Reply => 0,
        _ => 5,
    };
    let agrees = match (answer, expected) {
        (HostAnswer::Nothing, Answer::Nothing) => true,
        (HostAnswer::Number(n), Answer::Number(m)) => *n == m,
        (HostAnswer::Number(n), Answer::Code) => *n == code,
        (HostAnswer::Trap(trap), Answer::Trap(text)) => trap.text() == text,
        _ => false,
    };
    assert!(rt; agrees, "{call:?} in {kind:?} answered {answer:?}");
}

fn check_said(rt: &impl Abort, effects: &Effects, expected: Option<(u32, &'static str, u128)>) {
    match (&effects.answer, expected) {
        (None, None) => {}
        (Some((Response::Reply(bytes), refund)), Some((code, text, back))) => {
            assert_eq!(rt; code, 0);
            assert_eq!(rt; bytes.items.as_slice(), text.as_bytes());
            assert_eq!(rt; *refund, back);
        }
        (Some((Response::Reject { code, message }, refund)), Some((expected, text, back))) => {
            assert_eq!(rt; *code, expected);
            assert_eq!(rt; message.items.as_str(), text);
            assert_eq!(rt; *refund, back);
        }
        _ => assert!(rt; false, "an answer is missing, or one too many"),
    }
}

fn check_left(rt: &impl Abort, call: SystemCall, effects: &Effects, store: &Store, left: &Left) {
    let numbers = [effects.balance, effects.available];
    assert_eq!(rt; numbers, [left.balance, left.available], "{call:?}");
    assert_eq!(rt; effects.calls.items.len(), left.calls, "{call:?}");
    assert_eq!(rt;
        effects.certified.items.as_slice(),
        left.certified.as_bytes(),
        "{call:?}"
    );
    assert_eq!(rt; effects.accepted_message, left.accepted, "{call:?}");
    assert_eq!(rt; store.load(64, 8), Some(left.memory), "{call:?}");
    let mut stable = [0; 8];
    store.stable_read(0, &mut stable);
    assert_eq!(rt; stable, left.stable, "{call:?}");
    assert_eq!(rt; store.stable_pages(), left.pages, "{call:?}");
    check_said(rt, effects, left.said);
}

/// Ends the execution, and compares what it leaves.
pub fn check_end(rt: &impl Abort, call: SystemCall, machine: Machine, left: &Left) {
    let Machine { api, store, .. } = machine;
    let effects = api.finish();
    check_left(rt, call, &effects, &store, left);
}
