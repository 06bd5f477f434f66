ghost use Rattle.std.specs.Prelude.{◌≡◌, ◌≤◌, IfSome, vec_len};
ghost use Rattle.std.specs.List.{AllByRecursion};
ghost use Rattle.ic_tickets.specs.Tickets.{IsOpen, IsOf, IsFresh};

use ic_tickets::{Pass, Tickets};
use std::snapshot::Snapshot;
use std::sync::Wait;
use std::test::Fail;
use std::thread;
use std::thread::{Promise, Threads};

// The passes of two workers.
fn both(tickets: &Tickets<u32>, passes: Vec<Pass<u32>>) -> (Pass<u32>, Pass<u32>)
    requires len { vec_len passes ≡ 2 }
    requires all { AllByRecursion (λ p. IsOf tickets.now p × IsFresh p) passes.items }
    ensures first { IsOf tickets.now result.0 × IsFresh result.0 }
    ensures second { IsOf tickets.now result.1 × IsFresh result.1 }
{
    let _at_these = tickets;
    let mut passes = passes;
    let second = passes.pop().unwrap();
    let first = passes.pop().unwrap();
    (first, second)
}

#[test]
fn draws_each_item_once(rt: HostRuntime) -> Result<(), Fail> {
    let items = Vec::from_array(rt.alloc(), [10u32, 20, 30])?;
    let (tickets, passes) = Tickets::new(rt.alloc(), items, 2)?;
    let (mut first, mut second) = both(&tickets, passes);
    let Some(drawn) = tickets.draw(&mut first) else {
        panic!(rt; "no first item")
    };
    assert!(rt; drawn == (0, 10));
    let Some(drawn) = tickets.draw(&mut second) else {
        panic!(rt; "no second item")
    };
    assert!(rt; drawn == (1, 20));
    let Some(drawn) = tickets.draw(&mut first) else {
        panic!(rt; "no third item")
    };
    assert!(rt; drawn == (2, 30));
    assert!(rt; tickets.draw(&mut second).is_none());
    assert!(rt; tickets.draw(&mut first).is_none());
    Ok(())
}

#[test]
fn ends_at_once_without_items(rt: HostRuntime) -> Result<(), Fail> {
    let (tickets, passes) = Tickets::<u32>::new(rt.alloc(), Vec::new(rt.alloc()), 2)?;
    let (mut first, _second) = both(&tickets, passes);
    assert!(rt; tickets.draw(&mut first).is_none());
    Ok(())
}

// What a thread drew: a bit for each number.
#[derive(Drop)]
struct Drawer {
    pass: Pass<u32>,
    numbers: u64,
}

// The pass comes back to its table.
#[derive(Drop)]
struct OfTable(Snapshot<Tickets<u32>>);

impl Promise<Drawer> for OfTable {
    ghost kept_by = { λ p d. IsOf p.0.value d.pass };
}

fn drain(tickets: &Tickets<u32>, pass: Pass<u32>) -> Drawer
    requires own { IsOf tickets.now pass }
    requires is_open { IsOpen pass }
    ensures { IsOf tickets.now result.pass }
{
    let mut pass = pass;
    let mut numbers = 0;
    for _ in 0..65 {
        let Some((number, _)) = tickets.draw(&mut pass) else {
            break;
        };
        numbers |= 1u64.checked_shl(number).unwrap_or(0);
    }
    Drawer { pass, numbers }
}

fn drained_by_two<R: Threads + Wait + Sync>(
    rt: &R,
    tickets: &Tickets<u32>,
    first: Pass<u32>,
    second: Pass<u32>,
) -> Option<(Drawer, Drawer)>
    requires first { IsOf tickets.now first × IsOpen first }
    requires second { IsOf tickets.now second × IsOpen second }
    ensures { IfSome result (λ r. IsOf tickets.now r.0.pass × IsOf tickets.now r.1.pass) }
{
    thread::scope(
        thread::scope_env(),
        rt,
        |scope| -> Option<(Drawer, Drawer)>
            requires { IsOf tickets.now first × IsOpen first × IsOf tickets.now second × IsOpen second }
            ensures { IfSome result (λ r. IsOf tickets.entry.now r.0.pass × IsOf tickets.entry.now r.1.pass) }
        {
            let Ok(one) = scope.spawn_with(OfTable(Snapshot::of(tickets)), || drain(tickets, first))
            else {
                return None;
            };
            let Ok(other) = scope.spawn_with(
                OfTable(Snapshot::of(tickets)),
                || drain(tickets, second),
            ) else {
                return None;
            };
            Some((one.join(rt), other.join(rt)))
        },
    )
}

#[test]
fn two_threads_draw_all(rt: HostRuntime) -> Result<(), Fail> {
    let mut items = Vec::new(rt.alloc());
    for number in 0..64u32 {
        items.push(number)?;
    }
    let (tickets, passes) = Tickets::new(rt.alloc(), items, 2)?;
    let (first, second) = both(&tickets, passes);
    let Some((first, second)) = drained_by_two(&rt, &tickets, first, second) else {
        panic!(rt; "no thread")
    };
    assert!(rt; first.numbers & second.numbers == 0 && first.numbers | second.numbers == u64::MAX);
    let mut passes = Vec::with_capacity(rt.alloc(), 2)?;
    passes.push_reserved(first.pass);
    passes.push_reserved(second.pass);
    tickets.close(passes);
    Ok(())
}
