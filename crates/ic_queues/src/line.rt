ghost use Rattle.std.specs.Prelude.{◌≡◌, ◌<◌, ◌==◌, ◌++◌, ◌∷◌, [], length, drop, slice_get, slice_index_or, OnOk};
ghost use Rattle.std.specs.List.Sorted.{IsStrictlySortedBy};
ghost use Rattle.std.specs.Ordering.{nat_cmp};
ghost use Rattle.ic_queues.specs.Lines.{without_number};
ghost use Rattle.ic_queues.specs.Moving.{starts_below};

use ic_base::NoMemory;
use std::alloc::Global;
use std::collections::VecDeque;
use std::marker::Model;

/// The numbers of the messages that wait in one queue, the first one first. Contracts see the list.
#[derive(Debug, Drop)]
pub struct Line {
    numbers: VecDeque<u64>,
}

impl Model for Line {
    ghost use Rattle.std.specs.Prelude.{ℕ, List};

    ghost Value = { List ℕ };

    ghost view = { λ l. l.numbers.items };
}

impl Line {
    /// No number.
    pub fn new(alloc: Global) -> Line
        ensures { result ≡ [] }
    {
        Line {
            numbers: VecDeque::new(alloc),
        }
    }

    /// Puts a number after the others.
    pub fn push(&mut self, number: u64) -> Result<(), NoMemory>
        ensures { OnOk result (self.new ≡ self.old ++ number ∷ []) }
    {
        self.numbers.push_back(number)?;
        Ok(())
    }

    /// Takes the first number.
    pub fn pop(&mut self) -> Option<u64>
        ensures first { result ≡ slice_get self.old 0 }
        ensures rest { self.new ≡ drop 1 self.old }
    {
        self.numbers.pop_front()
    }

    /// A number leaves, if it is there.
    pub fn remove(&mut self, number: u64)
        requires rising { IsStrictlySortedBy nat_cmp self.old }
        ensures { self.new ≡ without_number number self.old }
    {
        if let Ok(place) = self.numbers.binary_search(&number) {
            self.numbers.remove(place);
        }
    }

    /// Numbers come after these.
    pub fn append(&mut self, more: Line) -> Result<(), NoMemory>
        ensures { OnOk result (self.new ≡ self.old ++ more) }
    {
        let Line { numbers: mut more } = more;
        self.numbers.append(&mut more)?;
        Ok(())
    }

    /// Whether the first number is below this one.
    pub fn starts_below(&self, number: u64) -> bool
        ensures { result ≡ starts_below number self.now }
    {
        match self.numbers.front() {
            Some(first) => number.cmp(first).is_gt(),
            None => false,
        }
    }

    /// How many numbers wait.
    pub fn len(&self) -> usize
        ensures { result ≡ length self.now }
    {
        self.numbers.len()
    }

    /// Whether no number waits.
    pub fn is_empty(&self) -> bool
        ensures { result ≡ (length self.now == 0) }
    {
        self.numbers.is_empty()
    }

    /// The number at a place of the queue.
    pub fn get(&self, place: usize) -> u64
        requires { place < length self.now }
        ensures { result ≡ slice_index_or self.now place result }
    {
        self.numbers[place]
    }

    /// The numbers.
    pub fn open(self) -> VecDeque<u64>
        ensures { result.items ≡ self }
    {
        self.numbers
    }
}
