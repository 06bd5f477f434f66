ghost use Rattle.std.specs.Prelude.{◌≡◌, ◌↔◌, Some, IfOk, IfSome, IfNone, IsTrue, All, [], slice_get};
ghost use Rattle.std.specs.Option.{option_copied, option_map};
ghost use Rattle.ic_state.specs.Seen.{code_of};
ghost use Rattle.ic_state.specs.declared.canister.Code.{Code as StoredCode};
ghost use Rattle.ic_exact.specs.Ranges.{Extends};
ghost use Rattle.ic_keep.specs.IsKept.{AreCodes};

use ic_base::NoMemory;
use ic_exact::Same;
use ic_state::{Code, CodePlace};
use std::alloc::{AllocError, Global};
use std::marker::Model;

/// Codes, each kept once, under a number: that of its place. Contracts see the list.
pub struct Codes {
    items: Vec<CodePlace>,
}

impl Model for Codes {
    ghost use Rattle.std.specs.Prelude.{List};
    ghost use Rattle.ic_state.specs.declared.canister.Code.{Code};
    ghost use Rattle.ic_keep.specs.IsKept.{AreCodes};

    ghost Value = { List Code };

    ghost view = { λ c. c.items.items };

    ghost invariant = { λ c. AreCodes c.items.items };
}

impl Drop for Codes {
    fn drop(self) {
        let Codes { items: _items } = self;
    }
}

// Whether both are the same module, of bytes with the same hash.
fn same_code(a: &Code, b: &Code) -> bool
    ensures { IsTrue result ↔ (code_of a.now ≡ code_of b.now) }
{
    same_hash(&a.hash, &b.hash) && a.valid.module().same(b.valid.module())
}

fn same_hash(a: &[u8; 32], b: &[u8; 32]) -> bool
    ensures { IsTrue result ↔ (a.now ≡ b.now) }
{
    a == b
}

impl Codes {
    /// No code. It takes no memory.
    pub fn new(alloc: Global) -> Codes
        ensures { result ≡ [] }
    {
        Codes {
            items: Vec::new(alloc),
        }
    }

    /// The code of this number.
    pub fn get(&self, number: u32) -> Option<&CodePlace>
        ensures { option_copied result ≡ slice_get self.now number }
    {
        self.items.get(number as usize)
    }

    /// Nothing happens. Tells callers that no two codes are equal.
    pub fn are_distinct(&self)
        ensures { AreCodes self.now }
    {
        let _items = &self.items;
    }

    // The place of this code, if it is kept.
    fn find(&self, code: &Code) -> Option<usize>
        ensures found { IfSome result (λ n. option_map code_of (slice_get self.now n) ≡ Some (code_of code.now)) }
        ensures none { IfNone result (All (λ (c : StoredCode). ¬ (code_of c ≡ code_of code.now)) self.now) }
    {
        for i in 0..self.items.len() {
            if same_code(self.items[i].get(), code) {
                return Some(i);
            }
        }
        None
    }

    /// The number of a code, which is kept if it was not.
    pub fn keep(&mut self, code: &CodePlace) -> Result<u32, NoMemory>
        ensures stays { Extends self.old self.new }
        ensures number { IfOk result (λ n. option_map code_of (slice_get self.new n) ≡ Some (code_of code.now)) }
    {
        if let Some(number) = self.find(code.get()) {
            return u32::try_from(number).map_err(|_| AllocError);
        }
        let number = self.items.len();
        if number > u32::MAX as usize {
            return Err(AllocError);
        }
        self.items.push(code.share()?)?;
        Ok(number as u32)
    }
}
