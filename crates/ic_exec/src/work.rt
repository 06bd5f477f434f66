ghost use Rattle.std.specs.Prelude.{◌≡◌, [], None};

use ic_state::{AnsweredList, Messages};
use std::alloc::Global;
use wm_semantics::Trap;

/// What a message did beside its canister, before it is paid and contexts close.
#[derive(Drop)]
pub struct Work {
    pub calls: Messages,
    pub answers: AnsweredList,
    pub used: u64,
    /// Why it trapped, if it did.
    pub trapped: Option<Trap>,
}

/// What a message did beside its canister, at its end.
#[derive(Drop)]
pub struct Done {
    pub calls: Messages,
    pub answers: AnsweredList,
    pub used: u64,
    pub burned: u128,
    pub trapped: Option<Trap>,
}

/// Nothing is sent, and this many instructions were used.
pub fn silent(alloc: Global, used: u64, trapped: Option<Trap>) -> Work
    ensures { result ≡ record { calls = []; answers = []; used = used; trapped = trapped } }
{
    Work {
        calls: Messages {
            items: Vec::new(alloc),
        },
        answers: AnsweredList {
            items: Vec::new(alloc),
        },
        used,
        trapped,
    }
}
