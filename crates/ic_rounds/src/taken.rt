ghost use Rattle.std.specs.Prelude.{◌≡◌, ◌++◌, true, IfOk, OnOk};
ghost use Rattle.std.specs.List.{fold};
ghost use Rattle.ic_rounds.specs.Taking.{is_first, is_key, take_out, leave, sort_out, none_taken, with_left, AreTheirs, HasAll};

use ic_base::NoMemory;
use ic_calls::callee;
use ic_held::Held;
use ic_principal::Principal;
use ic_state::{CanisterPlace, Message, Messages};
use std::alloc::Global;
use std::collections::{BTreeMap, VecDeque};
use std::marker::Model;

/// The first message to each canister that has one, and the other messages.
#[derive(Drop)]
pub struct Taken {
    firsts: BTreeMap<Principal, Held>,
    left: Vec<Message>,
}

impl Model for Taken {
    ghost use Rattle.ic_rounds.specs.Taking.{Taking};

    ghost Value = { Taking };

    ghost view = { λ w. record { firsts = w.firsts.entries; left = w.left.items } };
}

impl Taken {
    fn new(alloc: Global) -> Taken
        ensures { result ≡ none_taken }
    {
        Taken {
            firsts: BTreeMap::new(alloc),
            left: Vec::new(alloc),
        }
    }

    /// The first messages, in rising order of their canisters, and the other messages.
    pub fn open(self, alloc: Global) -> Result<(Vec<(Principal, Held)>, Messages), NoMemory>
        ensures firsts { IfOk result (λ r. r.0.items ≡ self.firsts) }
        ensures left { IfOk result (λ r. r.1 ≡ self.left) }
    {
        let Taken { firsts, left } = self;
        let firsts = firsts.into_iter().collect(alloc)?;
        Ok((firsts, Messages { items: left }))
    }

    fn is_first(&self, canisters: &BTreeMap<Principal, CanisterPlace>, callee: &Principal) -> bool
        ensures { result ≡ is_first (is_key canisters.now.entries) self.now callee.now }
    {
        canisters.contains_key(callee) && !self.firsts.contains_key(callee)
    }

    fn take_out(self, callee: Principal, message: Message) -> Result<Taken, NoMemory>
        ensures { IfOk result (λ w. w ≡ take_out self callee message) }
    {
        let Taken { mut firsts, left } = self;
        let message = Held::new(*left.allocator(), message)?;
        firsts.insert(callee, message)?;
        Ok(Taken { firsts, left })
    }

    fn leave(self, message: Message) -> Result<Taken, NoMemory>
        ensures { IfOk result (λ w. w ≡ leave self message) }
    {
        let Taken { firsts, mut left } = self;
        left.reserve(1)?;
        left.push_reserved(message);
        Ok(Taken { firsts, left })
    }

    // Goes past a message.
    fn sort_out(
        self,
        canisters: &BTreeMap<Principal, CanisterPlace>,
        message: Message,
    ) -> Result<Taken, NoMemory>
        ensures { IfOk result (λ w. w ≡ sort_out (is_key canisters.now.entries) self message) }
    {
        let callee = callee(&message);
        if self.is_first(canisters, &callee) {
            self.take_out(callee, message)
        } else {
            self.leave(message)
        }
    }

    // Whether each canister has its first message.
    fn has_all(&self, canisters: &BTreeMap<Principal, CanisterPlace>) -> bool
        requires theirs { AreTheirs (is_key canisters.now.entries) self.now }
        ensures { result ≡ true → HasAll (is_key canisters.now.entries) self.now }
    {
        let all = canisters.len();
        let first = self.firsts.len();
        all <= first
    }

    // Goes past messages until each canister has its first one.
    fn gather(
        self,
        canisters: &BTreeMap<Principal, CanisterPlace>,
        messages: &mut VecDeque<Message>,
    ) -> Result<Taken, NoMemory>
        requires theirs { AreTheirs (is_key canisters.now.entries) self }
        ensures { IfOk result (λ w. fold (sort_out (is_key canisters.now.entries)) self messages.old.items
            ≡ with_left w messages.new.items) }
    {
        let mut taken = self;
        while let Some(message) = messages.pop_front() {
            taken = taken.sort_out(canisters, message)?;
            if taken.has_all(canisters) {
                return Ok(taken);
            }
        }
        Ok(taken)
    }

    // Leaves messages after the others.
    fn leave_all(self, messages: VecDeque<Message>) -> Result<Taken, NoMemory>
        ensures { IfOk result (λ w. w ≡ with_left self messages.items) }
    {
        let Taken { firsts, left } = self;
        let left = joined(left, messages)?;
        Ok(Taken { firsts, left })
    }
}

// Puts messages before others.
fn put_before(front: Vec<Message>, back: &mut VecDeque<Message>) -> Result<(), NoMemory>
    ensures { OnOk result (back.new.items ≡ front.items ++ back.old.items) }
{
    let mut front = front;
    while let Some(message) = front.pop() {
        back.push_front(message)?;
    }
    Ok(())
}

// Messages and others after them. Those that are fewer are moved to the others.
fn joined(front: Vec<Message>, back: VecDeque<Message>) -> Result<Vec<Message>, NoMemory>
    ensures { IfOk result (λ all. all.items ≡ front.items ++ back.items) }
{
    let mut front = front;
    let mut back = back;
    if back.len() < front.len() {
        let mut more = back.into_vec();
        front.append(&mut more)?;
        Ok(front)
    } else {
        put_before(front, &mut back)?;
        Ok(back.into_vec())
    }
}

/// Takes out the first message to each canister that has one, in one pass. Where each canister has its
/// first message, the others are not looked at.
pub fn taken_out(
    alloc: Global,
    canisters: &BTreeMap<Principal, CanisterPlace>,
    messages: Messages,
) -> Result<Taken, NoMemory>
    ensures { IfOk result (λ w. w ≡ fold (sort_out (is_key canisters.now.entries)) none_taken messages) }
{
    let mut rest = VecDeque::from_vec(messages.items);
    let taken = Taken::new(alloc).gather(canisters, &mut rest)?;
    taken.leave_all(rest)
}
