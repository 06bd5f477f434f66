use ic_principal::{Bytes, Path, Principal, Text};
use std::marker::Model;

/// A request to a canister, as a line spells it.
#[derive(Debug, Drop)]
pub struct Ask {
    /// Who asks.
    pub sender: Principal,
    /// The canister that is asked.
    pub callee: Principal,
    /// The name of the method. In a line of a script it has 1 to 20,000 bytes, each of them
    /// printable and no space.
    pub method: Text,
    /// The argument's bytes, which nothing here reads.
    pub arg: Bytes,
}

/// Paths into a state tree. In a line of a script there are 1 to 64, of 1 to 8 labels each, none of
/// which is empty. Contracts see the list.
#[derive(Debug, Drop)]
pub struct Paths {
    pub items: Vec<Path>,
}

impl Model for Paths {
    ghost use Rattle.std.specs.Prelude.{List, ℕ};

    ghost Value = { List (List (List ℕ)) };

    ghost view = { λ p. p.items.items };
}

/// What a line asks for.
#[derive(Debug, Drop)]
pub enum Command {
    /// An empty line or a comment.
    Nothing,
    /// A call that is submitted, and answered later.
    Call(Ask),
    /// A query, which is answered at once and changes nothing.
    Query(Ask),
    /// Up to that many rounds, at most 1,000,000.
    Run(u32),
    /// Rounds until no message is left, or as many as the command line allows.
    Drain,
    /// The time from here on, in nanoseconds since 1970-01-01, at most 9,223,372,036,854,775,807.
    Time(u64),
    /// The line that shows the state.
    State,
    /// A Candid message that is read at once, and what is to be the header of its expected types.
    /// Neither is looked at yet.
    Decode { expected: Bytes, bytes: Bytes },
    /// As `Decode`, where the text of what is read is wanted.
    Show { expected: Bytes, bytes: Bytes },
    /// The text of Candid values that is read at once, and what is to be the header of its
    /// expected types. Neither is looked at yet.
    Encode { expected: Bytes, text: Bytes },
    /// Whether a canister may be upgraded from one interface to another: two interface files of
    /// Candid. Neither is looked at yet.
    Upgradable { from: Bytes, to: Bytes },
    /// The part of the state tree that proves what is at these paths.
    Witness(Paths),
    /// The delivery of the message at this place of the list, from 0, at most 1,000,000.
    Pick(u32),
}
