ghost use Rattle.std.specs.Prelude.{◌≡◌, ◌+◌, ◌-◌, ◌++◌, ◌∷◌, ◌==◌, ◌<◌, ◌≤◌, ◌^◌, [], false, true, cond, length, take, slice_get, option_map, IfOk, OnOk};
ghost use Rattle.std.specs.Option.{option_to_list};
ghost use Rattle.std.specs.Map.{lookup, remove_entry, keys_of, values_of};
ghost use Rattle.std.specs.List.{list_any};
ghost use Rattle.ic_behaviour.specs.Steps.{same_way};
ghost use Rattle.ic_queues.specs.Queued.{first_of_way};
ghost use Rattle.ic_queues.specs.Lines.{is_number};
ghost use Rattle.ic_queues.specs.Walking.{way_of};
ghost use Rattle.ic_queues.specs.Shelved.{entries_from, starts_empty, starts_full, trim, emptied, message_at, messages_of, index_at, has_way};

use ic_base::NoMemory;
use ic_held::Held;
use ic_principal::Principal;
use ic_state::{Message, Messages};
use std::alloc::{AllocError, Global};
use std::collections::VecDeque;
use std::marker::Model;
use std::mem::replace;

/// Up to this many empty places the queues stay as they are.
const SPARSE: usize = 64;

/// Messages under numbers that rise. The place of one that left stays empty until all before it have
/// left, so that none is moved. Contracts see the messages with their numbers, and the next number.
#[derive(Drop)]
pub struct Shelf {
    /// The number of the first place.
    first: u64,
    places: VecDeque<Option<Held>>,
    /// The number of the next message.
    next: u64,
    /// How many places have a message.
    count: usize,
    /// None of this many places at the front is empty.
    full: usize,
}

impl Model for Shelf {
    ghost use Rattle.ic_queues.specs.Walking.{way_of};
    ghost use Rattle.ic_queues.specs.Shelved.{Shelved, entries_from, IsShelf};

    ghost Value = { Shelved };

    ghost view = { λ s. record { entries = entries_from s.first s.places.items; next = s.next } };

    ghost invariant = { λ s. IsShelf s.first s.places.items s.next s.count s.full };
}

// Whether the first place is empty.
fn starts_empty(places: &VecDeque<Option<Held>>) -> bool
    ensures { result ≡ starts_empty places.now.items }
{
    match places.front() {
        Some(place) => place.is_none(),
        None => false,
    }
}

// Lets go of the empty places before the first message.
fn trim(first: &mut u64, places: &mut VecDeque<Option<Held>>)
    requires small { first.old + length places.old.items < 2 ^ 64 }
    ensures entries { entries_from first.new places.new.items ≡ entries_from first.old places.old.items }
    ensures numbers { first.new + length places.new.items ≡ first.old + length places.old.items }
    ensures trimmed { starts_empty places.new.items ≡ false }
    ensures places { places.new.items ≡ trim places.old.items }
{
    while starts_empty(places) {
        places.pop_front();
        *first += 1;
    }
}

// Empties a place, if there is one of that index.
fn empty(places: &mut VecDeque<Option<Held>>, place: usize) -> Option<Held>
    ensures places { places.new.items ≡ emptied place places.old.items }
    ensures message { result ≡ message_at place places.old.items }
{
    if place < places.len() {
        replace(&mut places[place], None)
    } else {
        None
    }
}

// The index of the message at a place of the list, if there is one. None of `full` places at the front is empty.
fn index_at(places: &VecDeque<Option<Held>>, full: usize, place: usize) -> Option<usize>
    requires full { starts_full full places.now.items ≡ true }
    ensures { result ≡ index_at place places.now.items }
{
    if place < full {
        return Some(place);
    }
    let mut left = place - full;
    for index in full..places.len() {
        if places[index].is_some() {
            if left == 0 {
                return Some(index);
            }
            left -= 1;
        }
    }
    None
}

// The sender and the callee of the message of a place, if there is one of that index.
fn way_at(places: &VecDeque<Option<Held>>, place: usize) -> Option<(Principal, Principal)>
    ensures { result ≡ option_map way_of (message_at place places.now.items) }
{
    if places.len() <= place {
        return None;
    }
    match &places[place] {
        Some(held) => Some((held.sender(), held.callee())),
        None => None,
    }
}

// Whether a place has a message of the same way.
fn has_way(place: &Option<Held>, message: &Held) -> bool
    ensures { result ≡ has_way place.now message.now }
{
    match place {
        Some(other) => message.same_way(other),
        None => false,
    }
}

// Whether a place before this index has a message of the same way.
fn has_earlier(places: &VecDeque<Option<Held>>, index: usize, message: &Held) -> bool
    requires { index ≤ length places.now.items }
    ensures { result ≡ list_any (same_way message.now) (messages_of (take index places.now.items)) }
{
    for other in 0..index {
        if has_way(&places[other], message) {
            return true;
        }
    }
    false
}

// Whether no message before this index has the sender and the callee of the one that is there.
fn is_first_at(places: &VecDeque<Option<Held>>, index: usize) -> bool
    requires { index < length places.now.items }
    ensures { result ≡ first_of_way (messages_of (take index places.now.items)) (message_at index places.now.items) }
{
    match &places[index] {
        Some(message) => !has_earlier(places, index, message),
        None => false,
    }
}

// How many messages there are once this one, if there is one, has left.
fn count_without(count: usize, message: &Option<Held>) -> usize
    requires some { length (option_to_list message.now) ≤ count }
    ensures { result + length (option_to_list message.now) ≡ count }
{
    match message {
        Some(_) => count - 1,
        None => count,
    }
}

// How many places at the front have a message once this place is empty and the empty ones at the front are gone.
fn full_without(full: usize, place: usize) -> usize
    ensures first { place ≡ 0 → result ≡ full - 1 }
    ensures later { 0 < place → (result ≤ full) × (result ≤ place) }
{
    if place == 0 {
        full.saturating_sub(1)
    } else {
        full.min(place)
    }
}

// Puts the message of a place, if there is one, after the others.
fn put(items: &mut Vec<Message>, place: Option<Held>) -> Result<(), NoMemory>
    ensures { OnOk result (items.new.items ≡ items.old.items ++ option_to_list place) }
{
    if let Some(place) = place {
        items.push(place.take())?;
    }
    Ok(())
}

// The messages of places, in their order.
fn messages_of(alloc: Global, places: VecDeque<Option<Held>>) -> Result<Messages, NoMemory>
    ensures { IfOk result (λ l. l ≡ messages_of places.items) }
{
    let mut items = Vec::with_capacity(alloc, places.len())?;
    for place in places {
        put(&mut items, place)?;
    }
    Ok(Messages { items })
}

impl Shelf {
    /// No message.
    pub fn new(alloc: Global) -> Shelf
        ensures { result ≡ record { entries = []; next = 0 } }
    {
        Shelf {
            first: 0,
            places: VecDeque::new(alloc),
            next: 0,
            count: 0,
            full: 0,
        }
    }

    /// How many messages there are.
    pub fn len(&self) -> usize
        ensures { result ≡ length self.now.entries }
    {
        self.count
    }

    /// Puts a message after the others. Gives its number. After 2^64 messages there is none for one more, which is
    /// told as out of memory.
    pub fn push(&mut self, message: Held) -> Result<u64, NoMemory>
        ensures number { IfOk result (λ n. n ≡ self.old.next) }
        ensures pushed { OnOk result (self.new ≡ record { entries = self.old.entries ++ (self.old.next, message) ∷ []; next = self.old.next + 1 }) }
    {
        let number = self.next;
        let Some(after) = number.checked_add(1) else {
            return Err(AllocError);
        };
        let full = if self.full == self.places.len() {
            self.full + 1
        } else {
            self.full
        };
        self.places.push_back(Some(message))?;
        self.full = full;
        self.next = after;
        self.count += 1;
        Ok(number)
    }

    /// Takes the message of a number, if it is there.
    pub fn take(&mut self, number: u64) -> Option<Held>
        ensures message { result ≡ lookup (is_number number) self.old.entries }
        ensures rest { self.new ≡ record { entries = remove_entry (is_number number) self.old.entries; next = self.old.next } }
    {
        if number < self.first {
            return None;
        }
        let place = (number - self.first) as usize;
        self.full = full_without(self.full, place);
        let message = empty(&mut self.places, place);
        trim(&mut self.first, &mut self.places);
        self.count = count_without(self.count, &message);
        message
    }

    /// The number of the next message.
    pub fn next(&self) -> u64
        ensures { result ≡ self.now.next }
    {
        self.next
    }

    /// The sender and the callee of the message of a number, if it is there.
    pub fn way(&self, number: u64) -> Option<(Principal, Principal)>
        ensures { result ≡ option_map way_of (lookup (is_number number) self.now.entries) }
    {
        if number < self.first {
            return None;
        }
        way_at(&self.places, (number - self.first) as usize)
    }

    /// The number of the message at a place of the list, if there is one.
    pub fn number_at(&self, place: usize) -> Option<u64>
        ensures { result ≡ slice_get (keys_of self.now.entries) place }
    {
        let _next = self.next;
        match index_at(&self.places, self.full, place) {
            Some(index) => Some(self.first + index as u64),
            None => None,
        }
    }

    /// Whether there is a message at a place of the list, and none before it has its sender and its callee.
    pub fn is_eligible(&self, place: usize) -> bool
        ensures { result ≡ first_of_way (take place (values_of self.now.entries)) (slice_get (values_of self.now.entries) place) }
    {
        match index_at(&self.places, self.full, place) {
            Some(index) => is_first_at(&self.places, index),
            None => false,
        }
    }

    /// Whether more places are empty than have a message, and more than a few.
    pub fn is_sparse(&self) -> bool {
        self.places.len() / 2 > SPARSE.max(self.count)
    }

    /// The messages, in their order.
    pub fn open(self, alloc: Global) -> Result<Messages, NoMemory>
        ensures { IfOk result (λ l. l ≡ values_of self.entries) }
    {
        let Shelf { places, .. } = self;
        messages_of(alloc, places)
    }
}
