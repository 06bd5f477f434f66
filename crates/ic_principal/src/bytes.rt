ghost use Rattle.std.specs.Prelude.{◌≡◌, List, ℕ, IfOk};

use ic_base::NoMemory;
use std::marker::Model;

/// A list of bytes. Contracts see the list.
#[derive(Debug, Drop)]
pub struct Bytes {
    pub items: Vec<u8>,
}

impl Model for Bytes {
    ghost use Rattle.std.specs.Prelude.{List, ℕ};

    ghost Value = { List ℕ };

    ghost view = { λ b. b.items.items };
}

impl Bytes {
    /// An equal list in memory of its own, from the same allocator.
    pub fn copy(&self) -> Result<Bytes, NoMemory>
        ensures { IfOk result (λ b. b ≡ self.now) }
    {
        Ok(Bytes {
            items: self.items.clone()?,
        })
    }
}
