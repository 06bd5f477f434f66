ghost use Rattle.std.specs.Prelude.{◌≡◌, ◌<◌, length, IfOk};
ghost use Rattle.ct_cases.specs.Interleaves.{is_query};
ghost use Rattle.ct_cases.specs.Answers.{IsCallSent, IsSent, AreSent};

use crate::tester::Tester;
use ct_asked::Asked;
use ct_check::{CheckedAction, CheckedMove};
use ct_outcomes::{Came, Named};
use ct_run::MOST_CALLS;
use ct_script::Script;
use ic_base::NoMemory;
use ic_outside::Gate;
use ic_script::Ask;
use ic_state::World;
use std::thread::Threads;

/// What comes of a move that is to be submitted.
#[derive(Drop)]
enum Sent {
    /// Under which number it was accepted; none where it is a query, or was refused.
    As(Option<u32>),
    /// It cannot be submitted.
    Not(Came),
}

/// The place of a move in its interleave, and why it cannot be submitted.
#[derive(Drop)]
pub struct Unsent {
    pub place: usize,
    pub came: Came,
}

/// A state in which the moves of an interleave are submitted, up to one that cannot be; and under which number each
/// was accepted.
#[derive(Drop)]
pub struct Submitted {
    pub world: World,
    pub accepted: Vec<Option<u32>>,
    pub unsent: Option<Unsent>,
}

/// Whether it is a query.
pub fn is_query(action: &CheckedAction<'_, '_, '_>) -> bool
    ensures { result ≡ is_query action.now }
{
    match action {
        CheckedAction::Query(_) => true,
        CheckedAction::Call(_) | CheckedAction::Upgrade(_) | CheckedAction::Reinstall(_) => false,
    }
}

// How many calls users made.
fn calls_made(world: &World) -> usize
    ensures { result ≡ length world.now.requests }
{
    world.parts().requests.items.len()
}

impl<'i, R: Threads + Sync, G: Gate + Sync> Tester<'i, R, G> {
    fn submit_call(
        &self,
        world: World,
        ask: Ask,
        script: &mut Script,
    ) -> Result<(World, Sent), NoMemory>
        ensures { IfOk result (λ sent. IsCallSent self.now.setting.charge world ask sent.0 sent.1) }
    {
        if calls_made(&world) >= MOST_CALLS {
            return Ok((world, Sent::Not(Came::TooManyCalls)));
        }
        script.call(&ask.sender, &ask.callee, &ask.method, &ask.arg)?;
        let (world, number) = self.runner.submit(world, ask, script)?;
        Ok((world, Sent::As(number)))
    }

    // Queries are none of the calls, and are asked later.
    fn submit_move(
        &self,
        world: World,
        names: &[Named],
        made: &CheckedMove<'_, 'i, '_>,
        script: &mut Script,
    ) -> Result<(World, Sent), NoMemory>
        ensures { IfOk result (λ sent. IsSent self.now.setting names.now world made.now sent.0 sent.1) }
    {
        if is_query(&made.action) {
            return Ok((world, Sent::As(None)));
        }
        self.runner.comment(made.span, script)?;
        match self.runner.asker().asked(names, made)? {
            Asked::Call(ask) => self.submit_call(world, ask, script),
            Asked::Query(_) => Ok((world, Sent::As(None))),
            Asked::Nothing(came) => Ok((world, Sent::Not(came))),
        }
    }

    /// Submits the moves of an interleave, in order, without a round.
    pub fn submit(
        &self,
        world: World,
        names: &[Named],
        moves: &[CheckedMove<'_, 'i, '_>],
        script: &mut Script,
    ) -> Result<Submitted, NoMemory>
        ensures { IfOk result (λ sent. AreSent self.now.setting names.now world moves.now sent.accepted.items sent.world sent.unsent) }
    {
        let mut world = world;
        let mut accepted = Vec::with_capacity(self.alloc(), moves.len())?;
        for (place, made) in moves.iter().enumerate() {
            let (next, sent) = self.submit_move(world, names, made, script)?;
            world = next;
            match sent {
                Sent::As(number) => accepted.push(number)?,
                Sent::Not(came) => {
                    let unsent = Some(Unsent { place, came });
                    return Ok(Submitted {
                        world,
                        accepted,
                        unsent,
                    });
                }
            }
        }
        Ok(Submitted {
            world,
            accepted,
            unsent: None,
        })
    }
}
