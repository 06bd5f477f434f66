ghost use Rattle.std.specs.Prelude.{◌≡◌, ◌==◌, ◌-◌, List, [], ◌∷◌, length, drop, OnOk, OnErr, MatchOption, slice_get};
ghost use Rattle.std.specs.Option.{option_copied};

use crate::no_memory::NoMemory;
use std::alloc::Global;
use std::marker::Model;

/// A stack. Contracts see the list of its items, the topmost first. Each call takes constant time,
/// but that `push` sometimes moves the items to a larger place and `truncate` drops what it takes
/// away.
#[derive(Debug, Drop)]
pub struct Stack<T> {
    // The last is the top.
    items: Vec<T>,
}

impl<T> Model for Stack<T> {
    ghost use Rattle.std.specs.Prelude.{List, reverse};

    ghost Value = { List T };

    ghost view = { λ s. reverse s.items.items };
}

impl<T> Stack<T> {
    /// The empty stack. It takes no memory; the allocator serves `push`.
    pub fn new(alloc: Global) -> Self
        ensures { result ≡ [] }
    {
        Stack {
            items: Vec::new(alloc),
        }
    }

    /// The number of items.
    pub fn len(&self) -> usize
        ensures { result ≡ length self.now }
    {
        self.items.len()
    }

    /// Whether there is no item.
    pub fn is_empty(&self) -> bool
        ensures { result ≡ (length self.now == 0) }
    {
        self.items.is_empty()
    }

    /// Puts an item on top. Without memory for it the item is dropped.
    pub fn push(&mut self, item: T) -> Result<(), NoMemory>
    where
        T: Drop,
        ensures ok { OnOk result (self.new ≡ item ∷ self.old) }
        ensures err { OnErr result (self.new ≡ self.old) }
    {
        self.items.push(item)?;
        Ok(())
    }

    /// Takes the topmost item away.
    pub fn pop(&mut self) -> Option<T>
        ensures { MatchOption result ((self.old ≡ []) × (self.new ≡ [])) (λ x. self.old ≡ x ∷ self.new) }
    {
        self.items.pop()
    }

    /// The topmost item.
    pub fn top(&self) -> Option<&T>
        ensures { option_copied result ≡ slice_get self.now 0 }
    {
        self.items.last()
    }

    /// The item below `depth` others.
    pub fn nth(&self, depth: usize) -> Option<&T>
        ensures { option_copied result ≡ slice_get self.now depth }
    {
        let len = self.items.len();
        if depth < len {
            self.items.get(len - 1 - depth)
        } else {
            None
        }
    }

    /// Takes items away from the top until at most `height` are left.
    pub fn truncate(&mut self, height: usize)
    where
        T: Drop,
        ensures { self.new ≡ drop (length self.old - height) self.old }
    {
        self.items.truncate(height);
    }
}
