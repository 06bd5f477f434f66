ghost use Rattle.std.specs.Prelude.{◌≡◌, ◌*◌, ◌%◌, [], length, Some, IfOk, nat_eq, slice_get, slice_index_or, ◌<◌};
ghost use Rattle.std.specs.Option.{option_copied};
ghost use Rattle.std.specs.Cmp.{partial_equiv_from_equiv};
ghost use Rattle.std.specs.Cmp.Lexicographic.{bytes_decides, pointwise, nat_list_eq_equiv};
ghost use Rattle.std.proofs.Common.{ap};
ghost use Rattle.std.specs.Hash as fed;
ghost use Rattle.ic_exact.specs.Ranges.{AreDistinct, AreNumbers, Extends, bytes_of};
ghost use Rattle.ic_exact.specs.Key.{key_of_range};

use crate::key::key_of_range;
use crate::lists::Numbers;
use ic_base::NoMemory;
use indexmap::IndexSet;
use std::alloc::{AllocError, Global};
use std::hash::{Hash, Hasher};
use std::marker::Model;

/// The bytes of a range.
const RANGE: usize = 4_096;

/// The bytes of one range, and their key. Contracts see the list.
#[derive(Debug, Drop)]
struct Range {
    bytes: Vec<u8>,
    key: u64,
}

impl Model for Range {
    ghost use Rattle.std.specs.Prelude.{◌≡◌, List, ℕ};
    ghost use Rattle.ic_exact.specs.Key.{key_of_range};

    ghost Value = { List ℕ };

    ghost view = { λ r. r.bytes.items };

    ghost invariant = { λ r. r.key ≡ key_of_range r.bytes.items };
}

impl PartialEq for Range {
    ghost eq = { pointwise nat_eq };

    ghost laws = { partial_equiv_from_equiv nat_list_eq_equiv };

    fn eq(&self, other: &Range) -> bool {
        self.bytes.as_slice() == other.bytes.as_slice()
    }
}

impl Eq for Range {
    ghost laws = { nat_list_eq_equiv };
}

impl Hash for Range {
    ghost hash_input = { fed.slice fed.u8 };

    ghost respects_eq = { λ x y h. ap (fed.slice fed.u8) ((bytes_decides x y).0 h) };

    fn hash<H: Hasher>(&self, state: &mut H) {
        self.bytes.as_slice().hash(state);
    }
}

/// Ranges of 4,096 bytes, each kept once, under a number: that of its place. Contracts see the list of
/// their bytes.
#[derive(Drop)]
pub struct Ranges {
    set: IndexSet<Range>,
}

impl Model for Ranges {
    ghost use Rattle.std.specs.Prelude.{List, ℕ};
    ghost use Rattle.ic_exact.specs.Ranges.{AreDistinct};

    ghost Value = { List (List ℕ) };

    ghost view = { λ r. r.set.keys };

    ghost invariant = { λ r. AreDistinct r.set.keys };
}

impl Ranges {
    /// No range. It takes no memory.
    pub fn new(alloc: Global) -> Ranges
        ensures { result ≡ [] }
    {
        Ranges {
            set: IndexSet::new(alloc),
        }
    }

    /// The bytes of the range of this number.
    pub fn range(&self, number: u32) -> &[u8]
        requires { number < length self.now }
        ensures { result.now ≡ slice_index_or self.now number [] }
    {
        let ranges = self.set.as_slice();
        let range = &ranges[number as usize];
        range.bytes.as_slice()
    }

    /// A number of the bytes of the range of this number. It was made when the range was kept.
    pub fn key(&self, number: u32) -> u64
        requires { number < length self.now }
        ensures { result ≡ key_of_range (slice_index_or self.now number []) }
    {
        let ranges = self.set.as_slice();
        let range = &ranges[number as usize];
        range.key
    }

    // The range of this number, if there is one.
    fn get(&self, number: u32) -> Option<&[u8]>
        ensures { option_copied result ≡ slice_get self.now number }
    {
        let range = self.set.get_index(number as usize)?;
        Some(range.bytes.as_slice())
    }

    /// Nothing happens. Tells callers that each range is of 4,096 bytes and that no two are equal.
    pub fn are_distinct(&self)
        ensures { AreDistinct self.now }
    {
        let _set = &self.set;
    }

    /// The number of a range, which is kept if it was not. It is looked up only where it is not the range
    /// of the number that is tried first.
    fn number(&mut self, alloc: Global, bytes: &[u8], first: Option<u32>) -> Result<u32, NoMemory>
        requires { length bytes.now ≡ 4096 }
        ensures stays { Extends self.old self.new }
        ensures number { IfOk result (λ n. slice_get self.new n ≡ Some bytes.now) }
    {
        if let Some(number) = first {
            if let Some(range) = self.get(number) {
                if range == bytes {
                    return Ok(number);
                }
            }
        }
        let range = Range {
            bytes: Vec::from_slice(alloc, bytes)?,
            key: key_of_range(bytes),
        };
        let (number, _) = self.set.insert_full(range)?;
        u32::try_from(number).map_err(|_| AllocError)
    }

    /// The numbers of the ranges of these bytes, which are kept if they were not. Of bytes that differ little
    /// from those of the numbers near, few are looked up.
    pub fn keep(&mut self, alloc: Global, bytes: &[u8], near: &[u32]) -> Result<Numbers, NoMemory>
        requires { length bytes.now % 4096 ≡ 0 }
        ensures stays { Extends self.old self.new }
        ensures numbers { IfOk result (AreNumbers self.new) }
        ensures bytes { IfOk result (λ numbers. bytes_of self.new numbers ≡ bytes.now) }
    {
        let count = bytes.len() / RANGE;
        let mut numbers = Vec::with_capacity(alloc, count)?;
        for i in 0..count {
            let at = RANGE * i;
            let number = self.number(alloc, &bytes[at..at + RANGE], near.get(i).copied())?;
            numbers.push(number)?;
        }
        Ok(Numbers { items: numbers })
    }

    /// The bytes of the ranges of these numbers.
    pub fn bytes(&self, alloc: Global, numbers: &[u32]) -> Result<Vec<u8>, NoMemory>
        requires { AreNumbers self.now numbers.now }
        ensures { IfOk result (λ bytes. bytes.items ≡ bytes_of self.now numbers.now) }
    {
        let mut bytes = Vec::with_capacity(alloc, RANGE.saturating_mul(numbers.len()))?;
        for number in numbers {
            bytes.extend_from_slice(self.range(*number))?;
        }
        Ok(bytes)
    }
}
