ghost use Rattle.std.specs.Prelude.{◌≡◌, ◌↔◌, IfOk, IsTrue};

use ic_base::NoMemory;
use ic_principal::{Bytes, Principal, Text};
use std::alloc::Global;

/// A value that is compared as a whole.
pub trait Same {
    /// Whether both are the same.
    fn same(&self, other: &Self) -> bool
        ensures { IsTrue result ↔ (self.now ≡ other.now) };
}

/// A value that is compared and copied as a whole.
pub trait Exact: Same + Drop {
    /// An equal value, in memory of its own.
    fn copy(&self, alloc: Global) -> Result<Self, NoMemory>
        ensures { IfOk result (λ copy. copy ≡ self.now) };
}

impl Same for Principal {
    #[tactic(auto, using(crate::proofs::Deciding::same_bytes))]
    fn same(&self, other: &Principal) -> bool {
        self == other
    }
}

impl Exact for Principal {
    fn copy(&self, _alloc: Global) -> Result<Principal, NoMemory> {
        Ok(*self)
    }
}

impl Same for Bytes {
    #[tactic(auto, using(crate::proofs::Deciding::same_bytes))]
    fn same(&self, other: &Bytes) -> bool {
        self.items.as_slice() == other.items.as_slice()
    }
}

impl Exact for Bytes {
    fn copy(&self, alloc: Global) -> Result<Bytes, NoMemory> {
        Ok(Bytes {
            items: Vec::from_slice(alloc, self.items.as_slice())?,
        })
    }
}

impl Same for Text {
    #[tactic(auto, using(crate::proofs::Deciding::same_bytes))]
    fn same(&self, other: &Text) -> bool {
        self.items.as_bytes() == other.items.as_bytes()
    }
}

impl Exact for Text {
    fn copy(&self, alloc: Global) -> Result<Text, NoMemory> {
        Ok(Text {
            items: String::from_str(alloc, self.items.as_str())?,
        })
    }
}
