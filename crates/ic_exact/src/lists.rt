use crate::exact::{Exact, Same};
use ic_base::NoMemory;
use std::alloc::Global;
use std::marker::Model;

/// Numbers of 32 bits. Contracts see the list.
#[derive(Debug, Drop)]
pub struct Numbers {
    pub items: Vec<u32>,
}

impl Model for Numbers {
    ghost use Rattle.std.specs.Prelude.{List, ℕ};

    ghost Value = { List ℕ };

    ghost view = { λ l. l.items.items };
}

impl Same for Numbers {
    #[tactic(auto, using(crate::proofs::Deciding::same_bytes))]
    fn same(&self, other: &Numbers) -> bool {
        self.items.as_slice() == other.items.as_slice()
    }
}

impl Exact for Numbers {
    fn copy(&self, alloc: Global) -> Result<Numbers, NoMemory> {
        Ok(Numbers {
            items: Vec::from_slice(alloc, self.items.as_slice())?,
        })
    }
}

/// Numbers of 64 bits. Contracts see the list.
#[derive(Debug, Drop)]
pub struct Words {
    pub items: Vec<u64>,
}

impl Model for Words {
    ghost use Rattle.std.specs.Prelude.{List, ℕ};

    ghost Value = { List ℕ };

    ghost view = { λ l. l.items.items };
}

impl Same for Words {
    #[tactic(auto, using(crate::proofs::Deciding::same_bytes))]
    fn same(&self, other: &Words) -> bool {
        self.items.as_slice() == other.items.as_slice()
    }
}

impl Exact for Words {
    fn copy(&self, alloc: Global) -> Result<Words, NoMemory> {
        Ok(Words {
            items: Vec::from_slice(alloc, self.items.as_slice())?,
        })
    }
}

/// Places that have a number of 32 bits, or none. Contracts see the list.
#[derive(Debug, Drop)]
pub struct Entries {
    pub items: Vec<Option<u32>>,
}

impl Model for Entries {
    ghost use Rattle.std.specs.Prelude.{List, ℕ, Option};

    ghost Value = { List (Option ℕ) };

    ghost view = { λ l. l.items.items };
}

impl Same for Entries {
    #[tactic(auto, using(crate::proofs::Deciding::same_options))]
    fn same(&self, other: &Entries) -> bool {
        self.items.as_slice() == other.items.as_slice()
    }
}

impl Exact for Entries {
    fn copy(&self, alloc: Global) -> Result<Entries, NoMemory> {
        Ok(Entries {
            items: Vec::from_slice(alloc, self.items.as_slice())?,
        })
    }
}
