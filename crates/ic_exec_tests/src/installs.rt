ghost use Rattle.std.specs.Prelude.{◌≡◌, true, IfSome};
ghost use Rattle.std.specs.Option.{IsSome};
ghost use Rattle.ic_state.specs.IsCanister.{IsCanister};
ghost use Rattle.ic_entry.specs.Installed.{is_upgrade};

use crate::canisters::empty_canister;
use crate::keeper::keeper;
use ic_exec::{Env, InstallFault, Installed, Mode, Order, install};
use ic_principal::{Bytes, Principal};
use ic_state::Canister;
use std::alloc::Global;
use std::process::Abort;
use std::test::*;
use wm_semantics::Trap;

/// How an order on a canister ends.
#[derive(Clone, Copy)]
struct Row {
    mode: Mode,
    /// Whether the segment is inside memory.
    is_inside: bool,
    arg: &'static [u8],
    limit: u64,
    /// Nothing, or why it is refused.
    refusal: &'static str,
    used: u64,
    /// The first bytes of stable memory, and those at the end of its second page.
    stable: (u32, &'static [u8; 4], &'static [u8; 4]),
    memory: &'static [u8; 4],
    certified: &'static [u8],
}

/// Each is given on a canister on which the first one was.
fn rows() -> [Row; 9] {
    let none = b"\x00\x00\x00\x00";
    let first = Row {
        mode: Mode::Install,
        is_inside: true,
        arg: b"",
        limit: 1000,
        refusal: "",
        used: 22,
        stable: (1, none, none),
        memory: b"\x07eed",
        certified: b"seed",
    };
    let upgrade = Mode::Upgrade {
        skip_pre_upgrade: false,
    };
    let upgraded = Row {
        mode: upgrade,
        used: 35,
        stable: (2, b"seed", b"\x07eed"),
        memory: b"seed",
        certified: b"\x07e",
        ..first
    };
    [
        first,
        upgraded,
        Row {
            mode: Mode::Upgrade {
                skip_pre_upgrade: true,
            },
            used: 15,
            stable: (1, b"seed", none),
            memory: b"seed",
            ..first
        },
        Row {
            mode: upgrade,
            arg: b"x",
            refusal: "unreachable",
            used: 36,
            ..first
        },
        Row {
            mode: upgrade,
            is_inside: false,
            refusal: "segment",
            used: 20,
            ..first
        },
        Row {
            mode: upgrade,
            limit: 34,
            refusal: "limit",
            used: 34,
            ..first
        },
        Row {
            mode: Mode::Reinstall,
            arg: b"x",
            refusal: "unreachable",
            used: 23,
            ..first
        },
        Row {
            mode: Mode::Reinstall,
            is_inside: false,
            refusal: "segment",
            used: 0,
            ..first
        },
        Row {
            mode: Mode::Reinstall,
            ..first
        },
    ]
}

fn bytes_of(alloc: Global, arg: &[u8]) -> Option<Bytes> {
    let items = Vec::from_slice(alloc, arg).ok()?;
    Some(Bytes { items })
}

/// The order of a row, but no upgrade of a canister that has no code.
fn order_of(alloc: Global, row: &Row, has_code: bool) -> Option<Order>
    ensures upgraded { IfSome result (λ o. is_upgrade o.mode ≡ true → has_code ≡ true) }
{
    if !has_code && row.mode != Mode::Install {
        return None;
    }
    let arg = bytes_of(alloc, row.arg)?;
    match keeper(alloc, row.is_inside) {
        Some(code) => Some(Order {
            mode: row.mode,
            code,
            arg,
            sender: Principal::canister_id(7),
        }),
        None => None,
    }
}

fn given(alloc: Global, canister: Canister, order: Order, limit: u64) -> Option<Installed>
    requires keeps { IsCanister canister }
    requires upgraded { is_upgrade order.mode ≡ true → IsSome canister.code }
    ensures keeps { IfSome result (λ i. IsCanister i.canister) }
{
    let env = Env {
        time: 7,
        limit,
        price: 1,
    };
    install(alloc, canister, order, env).ok()
}

fn ordered(alloc: Global, canister: Canister, row: &Row) -> Option<Installed>
    requires keeps { IsCanister canister }
    ensures keeps { IfSome result (λ i. IsCanister i.canister) }
{
    match order_of(alloc, row, canister.code.is_some()) {
        Some(order) => given(alloc, canister, order, row.limit),
        None => None,
    }
}

/// The order of a row is given on this canister.
fn installed(alloc: Global, canister: Option<Canister>, row: &Row) -> Option<Installed>
    requires keeps { IfSome canister IsCanister }
    ensures keeps { IfSome result (λ i. IsCanister i.canister) }
{
    match canister {
        Some(canister) => ordered(alloc, canister, row),
        None => None,
    }
}

fn refusal_of(installed: &Installed) -> &'static str {
    match &installed.refusal {
        None => "",
        Some(InstallFault::Segment) => "segment",
        Some(InstallFault::Trapped(Trap::Limit)) => "limit",
        Some(InstallFault::Trapped(Trap::Unreachable)) => "unreachable",
        Some(InstallFault::Trapped(_)) => "another trap",
    }
}

/// Four bytes of stable memory, or ones where they pass its end.
fn stable_word(canister: &Canister, at: u64) -> [u8; 4] {
    let mut bytes = [0; 4];
    canister.store.get().stable_read(at, &mut bytes);
    bytes
}

fn word(canister: &Canister) -> [u8; 4] {
    let mut bytes = [9; 4];
    canister.store.get().copy_out(0, &mut bytes);
    bytes
}

fn compare(rt: &impl Abort, row: &Row, installed: &Option<Installed>) {
    let Some(installed) = installed else {
        panic!(rt; "not installed");
    };
    assert_eq!(rt;
        (refusal_of(installed), installed.used),
        (row.refusal, row.used)
    );
    let canister = &installed.canister;
    assert_eq!(rt;
        (
            canister.store.get().stable_pages(),
            &stable_word(canister, 0),
            &stable_word(canister, 131_068)
        ),
        row.stable
    );
    assert_eq!(rt; (&word(canister), canister.balance), (row.memory, 1000));
    assert_eq!(rt; canister.certified.items.as_slice(), row.certified);
    match &canister.code {
        Some(code) => assert_eq!(rt; code.get().hash, [1; 32]),
        None => panic!(rt; "no code"),
    }
}

#[test]
fn orders_are_given(rt: HostRuntime) {
    let rows = rows();
    for row in &rows {
        let first = installed(rt.alloc(), empty_canister(rt.alloc()), &rows[0]);
        compare(&rt, &rows[0], &first);
        let canister = first.map(|installed| installed.canister);
        compare(&rt, row, &installed(rt.alloc(), canister, row));
    }
}
