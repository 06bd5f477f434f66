ghost use Rattle.std.specs.Prelude.{◌≡◌};

use ic_principal::Text;

/// Why a run ended before it returned. What it did until then stands.
#[derive(Debug, Drop)]
pub enum Trap {
    /// The instruction `unreachable`.
    Unreachable,
    DivideByZero,
    /// The quotient of a signed division has no integer.
    Overflow,
    /// A load or a store passes the end of the memory.
    MemoryBounds,
    /// An index passes the end of the table.
    TableBounds,
    /// A table's entry is empty.
    Uninitialised,
    /// A function has another type than the one that it is called by.
    Signature,
    /// More than 512 frames of defined functions.
    Depth,
    /// A charge passes the limit.
    Limit,
    /// The System API refuses the call.
    Api,
    /// The canister traps, with a message.
    Explicit(Text),
}

impl Trap {
    ghost use Rattle.wm_semantics.specs.Texts.{text_of};

    /// The text that a caller is told.
    pub fn text(&self) -> &str
        ensures { result.now ≡ text_of self.now }
    {
        match self {
            Trap::Unreachable => "unreachable",
            Trap::DivideByZero => "division by zero",
            Trap::Overflow => "integer overflow",
            Trap::MemoryBounds => "memory out of bounds",
            Trap::TableBounds => "table out of bounds",
            Trap::Uninitialised => "uninitialised element",
            Trap::Signature => "signature mismatch",
            Trap::Depth => "call depth",
            Trap::Limit => "instruction limit",
            Trap::Api => "system call",
            Trap::Explicit(message) => message.items.as_str(),
        }
    }
}
