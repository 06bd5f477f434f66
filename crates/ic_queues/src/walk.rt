ghost use Rattle.std.specs.Prelude.{◌≡◌, ◌<◌, ◌++◌, ◌∷◌, [], true, false, length, IfOk, OnOk};
ghost use Rattle.std.specs.List.{list_any, list_all, filter};
ghost use Rattle.std.specs.List.Sorted.{IsStrictlySortedBy};
ghost use Rattle.std.specs.Ordering.{nat_cmp, is_le, is_gt};
ghost use Rattle.std.specs.Cmp.Lexicographic.{slice_cmp};
ghost use Rattle.std.specs.Map.{lookup, remove_entry, keys_of};
ghost use Rattle.ic_queues.specs.Lines.{is_number};
ghost use Rattle.ic_queues.specs.Queued.{is_inside, Steps};
ghost use Rattle.ic_queues.specs.InLists.{queued_of, AreQueued};
ghost use Rattle.ic_queues.specs.Walking.{is_of_way};

use crate::line::Line;
use crate::lists::Lists;
use crate::moving::moved;
use crate::queues::{Queues, have_queues};
use crate::shelf::Shelf;
use ic_base::NoMemory;
use ic_principal::Principal;
use ic_state::{CanisterPlace, Message};
use std::alloc::Global;
use std::collections::BTreeMap;
use std::marker::Model;

/// A walk down the list, from one message to no canister to the next. It looks at no other message.
pub struct Walk {
    /// Of the messages to no canister, those that were not gone past.
    lists: Lists,
    /// The numbers of messages to no canister that were gone past: they stay.
    stay: Line,
    /// Messages of lower numbers were gone past.
    place: u64,
}

impl Drop for Walk {
    fn drop(self) {
        let Walk {
            lists: _lists,
            stay: _stay,
            place: _,
        } = self;
    }
}

impl Model for Walk {
    ghost use Rattle.ic_queues.specs.Queued.{Walked};
    ghost use Rattle.ic_queues.specs.InLists.{walk_of, AreWalked};

    ghost Value = { Walked };

    ghost view = { λ w. walk_of w.lists w.place };

    ghost invariant = { λ w. AreWalked w.lists w.stay w.place };
}

// Whether the messages of two numbers have one sender and one callee.
fn is_of_way(messages: &Shelf, number: u64, other: u64) -> bool
    ensures { result ≡ is_of_way messages.now.entries number other }
{
    match messages.way(number) {
        Some(way) => match messages.way(other) {
            Some(known) => way.0.cmp(&known.0).is_eq() && way.1.cmp(&known.1).is_eq(),
            None => false,
        },
        None => false,
    }
}

// Whether one of these numbers is of a message of the same way.
fn is_blocked(messages: &Shelf, stay: &Line, number: u64) -> bool
    ensures { result ≡ list_any (is_of_way messages.now.entries number) stay.now }
{
    for other in 0..stay.len() {
        if is_of_way(messages, number, stay.get(other)) {
            return true;
        }
    }
    false
}

// The message of a number leaves, if it is there.
fn taken_out(messages: &mut Shelf, number: u64) -> Option<Message>
    ensures entries { messages.new.entries ≡ remove_entry (is_number number) messages.old.entries }
    ensures next { messages.new.next ≡ messages.old.next }
    ensures message { result ≡ lookup (is_number number) messages.old.entries }
{
    match messages.take(number) {
        Some(held) => Some(held.take()),
        None => None,
    }
}

impl Walk {
    /// Before the first message.
    pub fn start(alloc: Global, lists: Lists) -> Walk
        requires { AreQueued lists }
        ensures { result ≡ record { canisters = (queued_of lists).canisters; kept = []; todo = (queued_of lists).messages } }
    {
        Walk {
            lists,
            stay: Line::new(alloc),
            place: 0,
        }
    }

    /// Whether each message to come is to a canister.
    pub fn is_over(&self) -> bool
        ensures { result ≡ list_all (is_inside self.now.canisters) self.now.todo }
    {
        self.lists.outside.is_empty()
    }

    /// Goes past messages to canisters to the first one to no canister, and takes it, unless it stays since one of its
    /// sender to its callee has stayed.
    pub fn next(self) -> Result<(Walk, Option<Message>), NoMemory>
        requires more { list_all (is_inside self.canisters) self.todo ≡ false }
        ensures steps { IfOk result (λ r. Steps self r.0 r.1) }
        ensures fewer { IfOk result (λ r. length r.0.todo < length self.todo) }
    {
        let Walk {
            mut lists,
            mut stay,
            place,
        } = self;
        match lists.outside.pop() {
            Some(number) => {
                let _end = lists.messages.next();
                if is_blocked(&lists.messages, &stay, number) {
                    stay.push(number)?;
                    let place = number + 1;
                    Ok((Walk { lists, stay, place }, None))
                } else {
                    let message = taken_out(&mut lists.messages, number);
                    let place = number;
                    Ok((Walk { lists, stay, place }, message))
                }
            }
            // There is one.
            None => Ok((Walk { lists, stay, place }, None)),
        }
    }

    /// The messages that were gone past, and those to come, in queues.
    pub fn finish(self) -> Queues
        requires over { list_all (is_inside self.canisters) self.todo ≡ true }
        ensures { result ≡ record { canisters = self.canisters; messages = self.kept ++ self.todo } }
    {
        let Walk {
            mut lists,
            stay,
            place: _,
        } = self;
        lists.outside = stay;
        Queues { lists }
    }

    /// The same walk, where these are the canisters.
    pub fn with_canisters(
        self,
        alloc: Global,
        canisters: &BTreeMap<Principal, CanisterPlace>,
    ) -> Result<Walk, NoMemory>
        requires rising { IsStrictlySortedBy (slice_cmp nat_cmp) (keys_of canisters.now.entries) }
        ensures { IfOk result (λ w. w ≡ record self { canisters = keys_of canisters.now.entries }) }
    {
        if have_queues(&self.lists.waiting, canisters) {
            return Ok(self);
        }
        let Walk {
            lists,
            mut stay,
            place,
        } = self;
        let Lists {
            messages,
            waiting,
            outside,
        } = lists;
        stay.append(outside)?;
        let lists = Lists {
            messages,
            waiting,
            outside: stay,
        };
        let ids = canisters.keys().copied().collect(alloc)?;
        let lists = moved(alloc, lists, ids)?;
        let (lists, stay) = parted(alloc, lists, place)?;
        Ok(Walk { lists, stay, place })
    }
}

// A number from this place on comes into the first list, and one below it into the second.
fn part(place: u64, number: u64, ahead: &mut Line, stay: &mut Line) -> Result<(), NoMemory>
    ensures ahead { OnOk result (ahead.new ≡ ahead.old ++ filter (λ n. is_le (nat_cmp place n)) (number ∷ [])) }
    ensures stay { OnOk result (stay.new ≡ stay.old ++ filter (λ n. is_gt (nat_cmp place n)) (number ∷ [])) }
{
    if place.cmp(&number).is_le() {
        ahead.push(number)
    } else {
        stay.push(number)
    }
}

// The numbers to no canister from this one on, and those below it.
fn parted(alloc: Global, lists: Lists, place: u64) -> Result<(Lists, Line), NoMemory>
    ensures same { IfOk result (λ r. (r.0.messages ≡ lists.messages) × (r.0.waiting ≡ lists.waiting)) }
    ensures ahead { IfOk result (λ r. r.0.outside ≡ filter (λ n. is_le (nat_cmp place n)) lists.outside) }
    ensures stay { IfOk result (λ r. r.1 ≡ filter (λ n. is_gt (nat_cmp place n)) lists.outside) }
{
    let Lists {
        messages,
        waiting,
        outside,
    } = lists;
    let mut ahead = Line::new(alloc);
    let mut stay = Line::new(alloc);
    for number in outside.open() {
        part(place, number, &mut ahead, &mut stay)?;
    }
    let lists = Lists {
        messages,
        waiting,
        outside: ahead,
    };
    Ok((lists, stay))
}
