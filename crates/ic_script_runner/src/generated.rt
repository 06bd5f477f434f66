ghost use Rattle.std.specs.Prelude.{◌≡◌, ◌≤◌, length};
ghost use Rattle.ic_generate.specs.Script.{script};
ghost use Rattle.ic_script_runner.specs.Acts.{Concludes, Does, Ends, bad_output};
ghost use Rattle.ic_script_runner.specs.AfterLine.{after_line};
ghost use Rattle.ic_script_runner.specs.Out.{short_output};
ghost use Rattle.ic_script_runner.specs.Script.{walk_of};
ghost use Rattle.ic_script_runner.specs.Sending.{sink_at};
ghost use Rattle.ic_options.specs.Options.{HasBounds};

use crate::doing::{NotDone, do_line};
use crate::ending::finish_shortly;
use crate::printing::print_last;
use crate::running::{LARGEST_LINE, LARGEST_SCRIPT};
use crate::status::Status;
use ic_generate::generate;
use ic_options::Options;
use ic_output::bad_text;
use ic_outside::{Gate, Line, Lines, MemorySource, Sink};
use ic_principal::Bytes;
use ic_queue_rounds::QueuedWorld;
use ic_script::LineCause;
use ic_state::World;
use std::alloc::Global;
use std::thread::Threads;

// How many bytes of the script are read at once.
const PIECE: usize = 65_536;

/// Runs the script that a number makes, and prints the short end part. Nothing is printed before the end.
pub fn run_generated<R: Threads + Sync, K: Sink, G: Gate + Sync>(
    alloc: Global,
    rt: &R,
    options: &Options,
    number: u32,
    sink: &mut K,
    gate: &G,
) -> Status
    requires bounds { HasBounds options.now }
    requires number { number ≤ 10000 }
    ensures { Concludes (sink_at K.taken K.fits K.faults sink.old) (sink_at K.taken K.fits K.faults sink.new)
        (short_output options.now (walk_of options.now (script number)).last) result }
{
    let Ok(text) = generate(alloc, number) else {
        return Status::NoMemory;
    };
    match do_lines(alloc, rt, options, text, gate) {
        Ok(world) => finish_shortly(alloc, rt, options, world, sink, gate),
        Err(Status::BadLine { line, cause }) => report(alloc, line, cause, sink),
        // No other status comes of memory.
        Err(_) => Status::NoMemory,
    }
}

// Does the lines of a script, of which nothing is printed: the world after the last one.
fn do_lines<R: Threads + Sync, G: Gate + Sync>(
    alloc: Global,
    rt: &R,
    options: &Options,
    text: Bytes,
    gate: &G,
) -> Result<QueuedWorld, Status>
    requires { HasBounds options.now }
    ensures { Ends (walk_of options.now text).last result }
{
    let mut source = MemorySource::new(text.items, PIECE, Vec::new(alloc));
    let mut lines = Lines::new(alloc, LARGEST_LINE, LARGEST_SCRIPT);
    let Ok(mut world) = QueuedWorld::new(alloc, World::new(alloc)) else {
        return Err(Status::NoMemory);
    };
    loop {
        match lines.next(&mut source) {
            Ok(Some(line)) => match do_unprinted(alloc, rt, options, world, &line, gate) {
                Ok(next) => world = next,
                Err(status) => return Err(status),
            },
            Ok(None) => return Ok(world),
            Err(fault) => return Err(Status::from(fault)),
        }
    }
}

// Does a line, prints nothing, and gives the world after it.
fn do_unprinted<R: Threads + Sync, G: Gate + Sync>(
    alloc: Global,
    rt: &R,
    options: &Options,
    world: QueuedWorld,
    line: &Line,
    gate: &G,
) -> Result<QueuedWorld, Status>
    requires { HasBounds options.now }
    ensures { Does line.now.number (after_line options.now world line.now.bytes) result }
{
    match do_line(alloc, rt, options, world, &line.bytes.items, gate) {
        Ok((next, _)) => Ok(next),
        Err(NotDone::Bad(cause)) => Err(Status::BadLine {
            line: line.number,
            cause,
        }),
        Err(NotDone::NoMemory) => Err(Status::NoMemory),
    }
}

// Reports a bad line.
fn report<K: Sink>(alloc: Global, line: u64, cause: LineCause, sink: &mut K) -> Status
    ensures { Concludes (sink_at K.taken K.fits K.faults sink.old) (sink_at K.taken K.fits K.faults sink.new)
        (bad_output line cause) result }
{
    match bad_text(alloc, line, cause) {
        Ok(text) => print_last(sink, &text.items, Status::BadLine { line, cause }),
        Err(_) => Status::NoMemory,
    }
}
