ghost use Rattle.std.specs.Prelude.{◌≡◌, List, ℕ, IfOk};

use ic_base::NoMemory;
use std::marker::Model;

/// A text. Contracts see the list of its bytes, which are UTF-8.
#[derive(Debug, Drop)]
pub struct Text {
    pub items: String,
}

impl Model for Text {
    ghost use Rattle.std.specs.Prelude.{List, ℕ, string_bytes};

    ghost Value = { List ℕ };

    ghost view = { λ t. string_bytes t.items };
}

impl Text {
    /// An equal text in memory of its own, from the same allocator.
    pub fn copy(&self) -> Result<Text, NoMemory>
        ensures { IfOk result (λ t. t ≡ self.now) }
    {
        Ok(Text {
            items: self.items.clone()?,
        })
    }
}
