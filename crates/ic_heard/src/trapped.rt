ghost use Rattle.std.specs.Prelude.{◌≡◌, IfOk};
ghost use Rattle.ic_heard.specs.Hears.{kept};

use crate::heard::{Said, kept};
use ic_base::NoMemory;
use ic_principal::Text;
use std::alloc::Global;
use std::marker::Model;

/// A function under way, where an execution trapped.
#[derive(Debug, Drop)]
pub struct Place {
    /// Its name.
    pub function: Said,
    /// The offset of its instruction in the module's bytes, where that is known.
    pub offset: Option<usize>,
}

impl Place {
    /// A function with that name, at that offset.
    pub fn new(alloc: Global, name: &str, offset: Option<usize>) -> Result<Place, NoMemory>
        ensures { IfOk result (λ p. p ≡ record { function = kept name.now; offset = offset }) }
    {
        let function = kept(alloc, name.as_bytes())?;
        Ok(Place { function, offset })
    }
}

/// Functions under way, the innermost first. Contracts see the list.
#[derive(Debug, Drop)]
pub struct Places {
    pub items: Vec<Place>,
}

impl Model for Places {
    ghost use Rattle.std.specs.Prelude.{List};
    ghost use Rattle.ic_heard.specs.declared.trapped.Place.{Place};

    ghost Value = { List Place };

    ghost view = { λ l. l.items.items };
}

/// Where an execution trapped.
#[derive(Debug, Drop)]
pub struct Trapped {
    /// The call of the System API that trapped, if one did.
    pub call: Option<Text>,
    /// The functions under way, at most 32.
    pub places: Places,
    /// How many more there are, which wait around these.
    pub more: usize,
}
