ghost use Rattle.std.specs.Prelude.{◌≡◌, ◌≢◌, ◌≤◌, ℕ, List, Some, None, IsTrue};
ghost use Rattle.ic_outside.specs.Faults.{Rose};
ghost use Rattle.ic_options.specs.Options.{HasBounds, options_of};
ghost use Rattle.ic_script_runner.specs.Acts.{Concludes, DoesAndGathers, Stops, bad_output, after_gathered};
ghost use Rattle.ic_script_runner.specs.AfterLine.{after_line};
ghost use Rattle.ic_script_runner.specs.Counts.{source_count_after, sink_count_after};
ghost use Rattle.ic_script_runner.specs.Explained.{Explained};
ghost use Rattle.ic_script_runner.specs.Sending.{sink_at};

use crate::doing::{NotDone, do_line};
use crate::ending::finish;
use crate::gathered::Gathered;
use crate::setting::Setting;
use crate::status::Status;
use ic_options::Options;
use ic_output::bad_text;
use ic_outside::{Gate, Line, LineFault, Lines, Sink, Source};
use ic_queue_rounds::QueuedWorld;
use ic_script::LineCause;
use ic_state::World;
use std::alloc::Global;
use std::thread::Threads;

/// The most bytes of a line before its line feed.
pub const LARGEST_LINE: usize = 8_388_608;

/// The most bytes of a script.
pub const LARGEST_SCRIPT: u64 = 268_435_456;

/// Does the lines of the script that the source gives, and prints what they print and the end part. What
/// lines print is sent before the source is read again. After a fault, or the first bad line, nothing more is read.
pub fn run_script<R: Threads + Sync, S: Source, K: Sink, G: Gate + Sync>(
    alloc: Global,
    rt: &R,
    options: &Options,
    source: &mut S,
    sink: &mut K,
    gate: &G,
) -> Status
    requires bounds { HasBounds options.now }
    requires read { options.now.generate ≡ None }
    ensures explained { (words : List (List ℕ)) → options_of words ≡ Some options.now
        → Explained words (S.left source.old) (S.left source.new)
        (sink_at K.taken K.fits K.faults sink.old) (sink_at K.taken K.fits K.faults sink.new) result }
    ensures read { result ≡ Status.ReadFault → Rose (S.faults source.old) (S.faults source.new) }
    ensures write { result ≡ Status.WriteFault → Rose (K.faults sink.old) (K.faults sink.new) }
    ensures counted_source { S.faults source.new ≡ source_count_after (S.faults source.old) result }
    ensures counted_sink { K.faults sink.new ≡ sink_count_after (K.faults sink.old) result }
    ensures accepted { result ≢ Status.BadWords }
    ensures to_the_end { result ≡ Status.Done → IsTrue (S.ended source.new) }
    ensures sure { S.cannot_fail source.old
        → S.cannot_fail source.new × (S.faults source.new ≡ S.faults source.old) × (result ≢ Status.ReadFault) }
    ensures later { S.faults source.old ≤ S.faults source.new }
{
    let Ok(mut gathered) = Gathered::new(alloc) else {
        return Status::NoMemory;
    };
    let mut lines = Lines::new(alloc, LARGEST_LINE, LARGEST_SCRIPT);
    let Ok(mut world) = QueuedWorld::new(alloc, World::new(alloc)) else {
        return Status::NoMemory;
    };
    let setting = Setting { rt, options, gate };
    loop {
        if let Err(status) = gathered.before_reading(&lines, sink) {
            return status;
        }
        match lines.next(source) {
            Ok(Some(line)) => {
                match do_and_gather(alloc, &setting, world, &line, &mut gathered, sink) {
                    Ok(next) => world = next,
                    Err(status) => return status,
                }
            }
            Ok(None) => return finish(alloc, &setting, world, &mut gathered, sink),
            Err(fault) => return stop(alloc, fault, &mut gathered, sink),
        }
    }
}

// Does a line and gathers what it prints, or reports that it is bad.
fn do_and_gather<R: Threads + Sync, K: Sink, G: Gate + Sync>(
    alloc: Global,
    setting: &Setting<'_, R, G>,
    world: QueuedWorld,
    line: &Line,
    gathered: &mut Gathered,
    sink: &mut K,
) -> Result<QueuedWorld, Status>
    requires { HasBounds setting.now.options.now }
    ensures does { DoesAndGathers (sink_at K.taken K.fits K.faults sink.old) (sink_at K.taken K.fits K.faults sink.new)
        gathered.old gathered.new line.now.number (after_line setting.now.options.now world line.now.bytes) result }
{
    match do_line(
        alloc,
        setting.rt,
        setting.options,
        world,
        &line.bytes.items,
        setting.gate,
    ) {
        Ok((next, text)) => match gathered.put(sink, &text.items) {
            Ok(()) => Ok(next),
            Err(status) => Err(status),
        },
        Err(NotDone::Bad(cause)) => Err(report(alloc, line.number, cause, gathered, sink)),
        Err(NotDone::NoMemory) => Err(gathered.give_up(sink)),
    }
}

// Reports a bad line.
fn report<K: Sink>(
    alloc: Global,
    line: u64,
    cause: LineCause,
    gathered: &mut Gathered,
    sink: &mut K,
) -> Status
    ensures reported { Concludes (sink_at K.taken K.fits K.faults sink.old) (sink_at K.taken K.fits K.faults sink.new)
        (after_gathered gathered.old (bad_output line cause)) result }
{
    match bad_text(alloc, line, cause) {
        Ok(text) => gathered.conclude(sink, &text.items, Status::BadLine { line, cause }),
        Err(_) => gathered.give_up(sink),
    }
}

// Reports why there is no next line.
fn stop<K: Sink>(alloc: Global, fault: LineFault, gathered: &mut Gathered, sink: &mut K) -> Status
    ensures stops { Stops (sink_at K.taken K.fits K.faults sink.old) (sink_at K.taken K.fits K.faults sink.new)
        gathered.old fault result }
{
    match fault {
        LineFault::LineTooLong { line } => {
            report(alloc, line, LineCause::LineTooLong, gathered, sink)
        }
        LineFault::ScriptTooLong { line } => {
            report(alloc, line, LineCause::ScriptTooLong, gathered, sink)
        }
        // Nothing is gathered where the source was read.
        LineFault::ReadFault => Status::ReadFault,
        LineFault::NoMemory => gathered.give_up(sink),
    }
}
