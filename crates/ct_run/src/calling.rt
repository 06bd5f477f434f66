ghost use Rattle.std.specs.Prelude.{◌≡◌, ◌<◌, length, IfOk};
ghost use Rattle.std.specs.Option.{option_copied};
ghost use Rattle.ic_state.specs.Seen.{answer_at};
ghost use Rattle.ic_behaviour.specs.State.{State};
ghost use Rattle.ct_run.specs.Called.{Done, acts_of_rounds, after_acts, called, came_now, came_of, doing, if_accepted, most_calls, nothing};
ghost use Rattle.ic_asking.specs.Asking.{answer_now};

use crate::runner::Runner;
use crate::telling::{tell_answer, tell_query, tell_response};
use ct_asked::Asked;
use ct_outcomes::Came;
use ct_script::Script;
use ic_asking::{accepts_now, answer_now};
use ic_base::NoMemory;
use ic_outside::Gate;
use ic_queue_rounds::run_rounds;
use ic_script::Ask;
use ic_state::{Response, World};
use std::thread::Threads;

/// The most calls that users may make.
pub const MOST_CALLS: usize = 1_048_576;

/// The most rounds that are made after a call.
pub(crate) const MOST_ROUNDS: u32 = 100_000;

// What a response tells.
fn came_of(response: Response) -> Came
    ensures { result ≡ came_of response }
{
    match response {
        Response::Reply(bytes) => Came::Replied(bytes),
        Response::Reject { code, message } => Came::Rejected {
            code,
            text: message,
        },
    }
}

fn copied(response: &Response) -> Result<Came, NoMemory>
    ensures { IfOk result (λ came. came ≡ came_of response.now) }
{
    match response {
        Response::Reply(bytes) => Ok(Came::Replied(bytes.copy()?)),
        Response::Reject { code, message } => Ok(Came::Rejected {
            code: *code,
            text: message.copy()?,
        }),
    }
}

// The answer to the call with a number, if one was given.
fn answer_at(world: &World, number: u32) -> Option<&Response>
    ensures { option_copied result ≡ answer_at world.now number }
{
    match world.parts().requests.items.get(number as usize) {
        None => None,
        Some(request) => request.answer.as_ref(),
    }
}

// How many calls users made.
fn calls_made(world: &World) -> usize
    ensures { result ≡ length world.now.requests }
{
    world.parts().requests.items.len()
}

/// What came of the call with a number, where no more rounds are made.
pub fn came_now(world: &World, number: u32) -> Result<Came, NoMemory>
    ensures { IfOk result (λ came. came ≡ came_now number world.now) }
{
    if !world.parts().messages.is_empty() {
        return Ok(Came::RoundsWithoutEnd);
    }
    match answer_at(world, number) {
        None => Ok(Came::NoAnswer),
        Some(response) => copied(response),
    }
}

impl<'i, R: Threads + Sync, G: Gate + Sync> Runner<'i, R, G> {
    /// A call is submitted if its callee accepts it, and then has a number; no round is made.
    pub fn submit(
        &self,
        world: World,
        ask: Ask,
        script: &mut Script,
    ) -> Result<(World, Option<u32>), NoMemory>
        requires { length world.requests < most_calls }
        ensures { IfOk result (λ done. (done.0, done.1) ≡ if_accepted self.now.charge world ask) }
    {
        let number = calls_made(&world) as u32;
        script.pass();
        let mut parts = self.listening(world, &ask.callee, script)?.open();
        let is_accepted = accepts_now(self.alloc, self.charge, &mut parts, &ask);
        let world = self.heard(World::seal(parts), &ask.callee, script)?;
        if is_accepted? {
            let world = world.submit(ask.sender, ask.callee, ask.method, ask.arg)?;
            Ok((world, Some(number)))
        } else {
            Ok((world, None))
        }
    }

    #[tactic(auto, using(crate::proofs::Calls::after_rounds))]
    // Rounds until no message is left.
    fn drained(&self, world: World, script: &mut Script) -> Result<World, NoMemory>
        ensures { IfOk result (λ after. after ≡ after_acts self.now.charge world (acts_of_rounds self.now.charge world)) }
    {
        if script.traces() {
            let world = self.heard_rounds(world, script)?;
            return Ok(world);
        }
        let (world, _) = run_rounds(
            self.alloc,
            self.rt,
            world,
            MOST_ROUNDS,
            1,
            self.charge.limit,
            self.charge.price,
            self.gate,
        )?;
        Ok(world)
    }

    // Rounds until no message is left, and what came of the call with a number.
    fn finish(
        &self,
        world: World,
        number: u32,
        script: &mut Script,
    ) -> Result<(World, Came), NoMemory>
        ensures state { IfOk result (λ done. done.0 ≡ after_acts self.now.charge world (acts_of_rounds self.now.charge world)) }
        ensures came { IfOk result (λ done. done.1 ≡ came_now number done.0) }
    {
        let world = self.drained(world, script)?;
        tell_answer(self.alloc, &world, number, script)?;
        let came = came_now(&world, number)?;
        Ok((world, came))
    }

    #[tactic(auto, using(crate::proofs::Calls::call_accepted, crate::proofs::Calls::call_refused, crate::proofs::Calls::call_too_many))]
    fn call(&self, world: World, ask: Ask, script: &mut Script) -> Result<(World, Came), NoMemory>
        ensures { Done self.now.charge world (called self.now.charge world ask) result }
    {
        if calls_made(&world) >= MOST_CALLS {
            return Ok((world, Came::TooManyCalls));
        }
        script.call(&ask.sender, &ask.callee, &ask.method, &ask.arg)?;
        script.drain()?;
        let (world, number) = self.submit(world, ask, script)?;
        match number {
            Some(number) => self.finish(world, number, script),
            None => Ok((world, Came::Refused)),
        }
    }

    fn query(&self, world: World, ask: Ask, script: &mut Script) -> Result<(World, Came), NoMemory>
        ensures { Done self.now.charge world (nothing (came_of (answer_now self.now.charge.limit self.now.charge.price world ask))) result }
    {
        script.query(&ask.sender, &ask.callee, &ask.method, &ask.arg)?;
        tell_query(self.alloc, &ask, script)?;
        let callee = ask.callee;
        let mut parts = self.listening(world, &callee, script)?.open();
        let answered = answer_now(self.alloc, self.charge, &mut parts, ask);
        let world = self.heard(World::seal(parts), &callee, script)?;
        let response = answered?;
        tell_response(self.alloc, callee, &response, script)?;
        Ok((world, came_of(response)))
    }

    /// What comes of what is asked: the state after it, and what came.
    pub(crate) fn act(
        &self,
        world: World,
        asked: Asked,
        script: &mut Script,
    ) -> Result<(World, Came), NoMemory>
        ensures { Done self.now.charge world (doing self.now.charge world asked) result }
    {
        match asked {
            Asked::Call(ask) => self.call(world, ask, script),
            Asked::Query(ask) => self.query(world, ask, script),
            Asked::Nothing(came) => Ok((world, came)),
        }
    }
}
