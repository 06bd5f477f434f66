ghost use Rattle.std.specs.Prelude.{◌≡◌, [], IfOk, OnOk};
ghost use Rattle.std.specs.List.{fold};
ghost use Rattle.ic_queue_rounds.specs.Drawing.{draw, none_drawn};

use ic_base::NoMemory;
use ic_held::Held;
use ic_principal::Principal;
use ic_queues::Queues;
use std::alloc::Global;
use std::marker::Model;

/// The first message to each canister that has one, and the queues without them.
#[derive(Drop)]
pub struct Drawn {
    firsts: Vec<(Principal, Held)>,
    queues: Queues,
}

impl Model for Drawn {
    ghost use Rattle.ic_queue_rounds.specs.Drawing.{Drawing};

    ghost Value = { Drawing };

    ghost view = { λ w. record { firsts = w.firsts.items; queues = w.queues } };
}

impl Drawn {
    // With room for this many messages.
    fn new(alloc: Global, queues: Queues, count: usize) -> Result<Drawn, NoMemory>
        ensures { IfOk result (λ w. w ≡ none_drawn queues) }
    {
        let firsts = Vec::with_capacity(alloc, count)?;
        Ok(Drawn { firsts, queues })
    }

    /// The first messages, in rising order of their canisters, and the queues.
    pub fn open(self) -> (Vec<(Principal, Held)>, Queues)
        ensures firsts { result.0.items ≡ self.firsts }
        ensures queues { result.1 ≡ self.queues }
    {
        let Drawn { firsts, queues } = self;
        (firsts, queues)
    }

    // Takes the first message to a canister, if there is one.
    fn draw(&mut self, key: Principal) -> Result<(), NoMemory>
        ensures { OnOk result (self.new ≡ draw self.old key) }
    {
        if let Some(message) = self.queues.pop(&key) {
            self.firsts.reserve(1)?;
            self.firsts.push_reserved((key, message));
        }
        Ok(())
    }
}

/// Takes the first message to each of these canisters that has one.
pub fn draw_all(alloc: Global, canisters: Vec<Principal>, queues: Queues) -> Result<Drawn, NoMemory>
    ensures { IfOk result (λ w. w ≡ fold draw (none_drawn queues) canisters.items) }
{
    let mut drawn = Drawn::new(alloc, queues, canisters.len())?;
    for key in canisters {
        drawn.draw(key)?;
    }
    Ok(drawn)
}
