ghost use Rattle.std.specs.Prelude.{◌≡◌, ◌++◌, ◌∷◌, [], not, IfOk, OnOk};
ghost use Rattle.std.specs.List.{filter, fold};
ghost use Rattle.std.specs.List.Sorted.{IsStrictlySortedBy};
ghost use Rattle.std.specs.Ordering.{nat_cmp};
ghost use Rattle.std.specs.Cmp.Lexicographic.{slice_cmp};
ghost use Rattle.std.specs.Map.{lookup, remove_entry, keys_of, values_of};
ghost use Rattle.ic_behaviour.specs.State.{at};
ghost use Rattle.ic_queues.specs.InLists.{AreQueued};
ghost use Rattle.ic_queues.specs.Moving.{is_to, line_of, outside_of, below, from, merge};

use crate::line::Line;
use crate::lists::Lists;
use crate::shelf::Shelf;
use ic_base::NoMemory;
use ic_principal::Principal;
use std::alloc::Global;
use std::collections::BTreeMap;
use std::mem::replace;

/// The same messages in queues of these canisters. The queue of a canister that stays is not looked at.
pub fn moved(alloc: Global, lists: Lists, canisters: Vec<Principal>) -> Result<Lists, NoMemory>
    requires rising { IsStrictlySortedBy (slice_cmp nat_cmp) canisters.items }
    requires queued { AreQueued lists }
    ensures keeps { IfOk result AreQueued }
    ensures messages { IfOk result (λ l. l.messages ≡ lists.messages) }
    ensures canisters { IfOk result (λ l. keys_of l.waiting.entries ≡ canisters.items) }
{
    let Lists {
        messages,
        waiting: mut before,
        mut outside,
    } = lists;
    let mut waiting = BTreeMap::new(alloc);
    for key in canisters {
        let line = line_of(alloc, &messages, &mut before, &mut outside, &key)?;
        waiting.insert(key, line)?;
    }
    let outside = with_lines(alloc, outside, before)?;
    Ok(Lists {
        messages,
        waiting,
        outside,
    })
}

// The queue of a canister leaves. That of a new one is of numbers that were to nobody.
fn line_of(
    alloc: Global,
    messages: &Shelf,
    before: &mut BTreeMap<Principal, Line>,
    outside: &mut Line,
    key: &Principal,
) -> Result<Line, NoMemory>
    ensures line { IfOk result (λ l. l ≡ line_of messages.now.entries outside.old key.now (lookup (at key.now) before.old.entries)) }
    ensures before { OnOk result (before.new.entries ≡ remove_entry (at key.now) before.old.entries) }
    ensures outside { OnOk result (outside.new ≡ outside_of messages.now.entries outside.old key.now (lookup (at key.now) before.old.entries)) }
{
    match before.remove(key) {
        Some(line) => Ok(line),
        None => taken_out(alloc, messages, outside, key),
    }
}

// The numbers of messages to a canister leave the others.
fn taken_out(
    alloc: Global,
    messages: &Shelf,
    outside: &mut Line,
    key: &Principal,
) -> Result<Line, NoMemory>
    ensures line { IfOk result (λ l. l ≡ filter (is_to messages.now.entries key.now) outside.old) }
    ensures others { OnOk result (outside.new ≡ filter (λ n. not (is_to messages.now.entries key.now n)) outside.old) }
{
    let mut line = Line::new(alloc);
    let mut others = Line::new(alloc);
    for number in replace(outside, Line::new(alloc)).open() {
        take_out(messages, key, number, &mut line, &mut others)?;
    }
    *outside = others;
    Ok(line)
}

// The number of a message to a canister comes into the first list, and another into the second.
fn take_out(
    messages: &Shelf,
    key: &Principal,
    number: u64,
    line: &mut Line,
    others: &mut Line,
) -> Result<(), NoMemory>
    ensures line { OnOk result (line.new ≡ line.old ++ filter (is_to messages.now.entries key.now) (number ∷ [])) }
    ensures others { OnOk result (others.new ≡ others.old ++ filter (λ n. not (is_to messages.now.entries key.now n)) (number ∷ [])) }
{
    if is_to(messages, key, number) {
        line.push(number)
    } else {
        others.push(number)
    }
}

// Whether the message of a number is to this canister.
fn is_to(messages: &Shelf, key: &Principal, number: u64) -> bool
    ensures { result ≡ is_to messages.now.entries key.now number }
{
    match messages.way(number) {
        Some(way) => key.cmp(&way.1).is_eq(),
        None => false,
    }
}

// The numbers of all these lists.
fn with_lines(
    alloc: Global,
    outside: Line,
    lines: BTreeMap<Principal, Line>,
) -> Result<Line, NoMemory>
    ensures { IfOk result (λ l. l ≡ fold merge outside (values_of lines.entries)) }
{
    let mut outside = outside;
    for line in lines.into_values() {
        outside = merged(alloc, outside, line)?;
    }
    Ok(outside)
}

// The numbers of two lists that rise.
fn merged(alloc: Global, line: Line, more: Line) -> Result<Line, NoMemory>
    ensures { IfOk result (λ l. l ≡ merge line more) }
{
    if more.is_empty() {
        return Ok(line);
    }
    let mut rest = line;
    let mut all = Line::new(alloc);
    for number in more.open() {
        shift_below(&mut rest, &mut all, number)?;
        all.push(number)?;
    }
    all.append(rest)?;
    Ok(all)
}

// The numbers at the front that are below this one go to the end of a second list.
fn shift_below(line: &mut Line, all: &mut Line, number: u64) -> Result<(), NoMemory>
    ensures rest { OnOk result (line.new ≡ from number line.old) }
    ensures all { OnOk result (all.new ≡ all.old ++ below number line.old) }
{
    while line.starts_below(number) {
        if let Some(first) = line.pop() {
            all.push(first)?;
        }
    }
    Ok(())
}
