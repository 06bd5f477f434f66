ghost use Rattle.std.specs.Prelude.{◌≡◌, ◌++◌, IfOk};
ghost use Rattle.ic_behaviour.specs.declared.request.Request.{Request as SomeRequest};
ghost use Rattle.ic_script_runner.specs.Acts.{Concludes, after_gathered, end_output};
ghost use Rattle.ic_script_runner.specs.EndPart.{answers_from, end_state, short_end_part};
ghost use Rattle.ic_script_runner.specs.Sending.{Gathers, sink_at};
ghost use Rattle.ic_output.specs.Texts.{calls_line, closing};
ghost use Rattle.ic_options.specs.Options.{HasBounds};

use crate::doing::run_rounds_by;
use crate::gathered::Gathered;
use crate::printing::print_last;
use crate::setting::Setting;
use crate::status::Status;
use ic_base::NoMemory;
use ic_options::Options;
use ic_output::{answer_text, closing, summary};
use ic_outside::{Gate, Sink};
use ic_queue_rounds::QueuedWorld;
use ic_state::{Request, World};
use std::alloc::Global;
use std::thread::Threads;

/// Makes the rounds at the end of the script, and prints the answer to each call and the state.
pub fn finish<R: Threads + Sync, K: Sink, G: Gate + Sync>(
    alloc: Global,
    setting: &Setting<'_, R, G>,
    world: QueuedWorld,
    gathered: &mut Gathered,
    sink: &mut K,
) -> Status
    requires { HasBounds setting.now.options.now }
    ensures finished { Concludes (sink_at K.taken K.fits K.faults sink.old) (sink_at K.taken K.fits K.faults sink.new)
        (after_gathered gathered.old (end_output setting.now.options.now world)) result }
{
    match end_world(alloc, setting.rt, setting.options, world, setting.gate) {
        Ok(world) => print_end(alloc, &world, gathered, sink),
        Err(_) => gathered.give_up(sink),
    }
}

// The world after the rounds at the end of the script.
fn end_world<R: Threads + Sync, G: Gate + Sync>(
    alloc: Global,
    rt: &R,
    options: &Options,
    world: QueuedWorld,
    gate: &G,
) -> Result<World, NoMemory>
    requires { HasBounds options.now }
    ensures { IfOk result (λ w. w ≡ end_state options.now world) }
{
    match run_rounds_by(alloc, rt, options, world, options.rounds, gate) {
        Ok((world, _)) => world.into_world(alloc),
        Err(error) => Err(error),
    }
}

fn print_end<K: Sink>(alloc: Global, world: &World, gathered: &mut Gathered, sink: &mut K) -> Status
    ensures { Concludes (sink_at K.taken K.fits K.faults sink.old) (sink_at K.taken K.fits K.faults sink.new)
        (record { bytes = gathered.old ++ (answers_from 0 world.now.requests ++ closing world.now); status = Status.Done }) result }
{
    match print_answers(alloc, &world.parts().requests.items, gathered, sink) {
        Ok(()) => print_state(alloc, world, gathered, sink),
        Err(status) => status,
    }
}

fn print_answers<K: Sink>(
    alloc: Global,
    requests: &[Request],
    gathered: &mut Gathered,
    sink: &mut K,
) -> Result<(), Status>
    ensures { Gathers (sink_at K.taken K.fits K.faults sink.old) (sink_at K.taken K.fits K.faults sink.new)
        gathered.old (answers_from 0 requests.now) gathered.new result }
{
    for (number, request) in requests.iter().enumerate() {
        let Ok(text) = answer_text(alloc, number, &request.answer) else {
            return Err(gathered.give_up(sink));
        };
        if let Err(status) = gathered.put(sink, &text.items) {
            return Err(status);
        }
    }
    Ok(())
}

fn print_state<K: Sink>(
    alloc: Global,
    world: &World,
    gathered: &mut Gathered,
    sink: &mut K,
) -> Status
    ensures { Concludes (sink_at K.taken K.fits K.faults sink.old) (sink_at K.taken K.fits K.faults sink.new)
        (record { bytes = gathered.old ++ closing world.now; status = Status.Done }) result }
{
    match closing(alloc, world) {
        Ok(text) => gathered.conclude(sink, &text.items, Status::Done),
        Err(_) => gathered.give_up(sink),
    }
}

/// Makes the rounds at the end of a generated script, and prints how many calls were answered, and the state.
pub fn finish_shortly<R: Threads + Sync, K: Sink, G: Gate + Sync>(
    alloc: Global,
    rt: &R,
    options: &Options,
    world: QueuedWorld,
    sink: &mut K,
    gate: &G,
) -> Status
    requires { HasBounds options.now }
    ensures { Concludes (sink_at K.taken K.fits K.faults sink.old) (sink_at K.taken K.fits K.faults sink.new)
        (record { bytes = short_end_part options.now world; status = Status.Done }) result }
{
    match end_world(alloc, rt, options, world, gate) {
        Ok(world) => print_summary(alloc, &world, sink),
        Err(_) => Status::NoMemory,
    }
}

fn print_summary<K: Sink>(alloc: Global, world: &World, sink: &mut K) -> Status
    ensures { Concludes (sink_at K.taken K.fits K.faults sink.old) (sink_at K.taken K.fits K.faults sink.new)
        (record { bytes = calls_line world.now.requests ++ closing world.now; status = Status.Done }) result }
{
    match summary(alloc, world) {
        Ok(text) => print_last(sink, &text.items, Status::Done),
        Err(_) => Status::NoMemory,
    }
}
