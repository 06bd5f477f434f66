ghost use Rattle.std.specs.Prelude.{◌≡◌, ◌≢◌, ◌≤◌, ℕ, List, [], Some, None, IsTrue, IfSome, map, length, string_bytes};
ghost use Rattle.ic_outside.specs.Faults.{Rose};
ghost use Rattle.ic_options.specs.Options.{options_of};
ghost use Rattle.ic_behaviour.specs.Runs.{IsRun, EachState, EachDelivery};
ghost use Rattle.ic_host.specs.Headline.{PlacedOnce, Conserves, DoneWhenDrained, AnsweredOnce, AnswersAreFinal, TrapsLeave, RefusalsLeave, TurnedAwayLeaves};
ghost use Rattle.ic_host.specs.Printed.{RunIsPrinted, ButForWorkers};
ghost use Rattle.ic_host.specs.Trace.{rules, trace};
ghost use Rattle.ic_script_runner.specs.Acts.{Concludes, usage_output};
ghost use Rattle.ic_script_runner.specs.Counts.{source_count_after, sink_count_after};
ghost use Rattle.ic_script_runner.specs.Explained.{Explained, GivesOutput, generated_by};
ghost use Rattle.ic_script_runner.specs.Out.{out};
ghost use Rattle.ic_script_runner.specs.Sending.{sink_at};

use ic_options::{Options, usage};
use ic_outside::{Gate, Sink, Source};
use ic_script_runner::{Status, print_last, run_generated, run_script};
use std::alloc::Global;
use std::thread::Threads;

/// Runs the script that the source gives, as the words ask, and prints to the sink. The words begin
/// with the program's name. Rounds are worked on by as many workers as the words say, and each passes the
/// gate before each message that it handles.
pub fn replica<R: Threads + Sync, S: Source, K: Sink, G: Gate + Sync>(
    alloc: Global,
    rt: &R,
    words: &[String],
    source: &mut S,
    sink: &mut K,
    gate: &G,
) -> Status
    // Where no stream failed, the answer is that of the definition.
    ensures headline { (Rose (S.faults source.old) (S.faults source.new) → ⊥)
        → (Rose (K.faults sink.old) (K.faults sink.new) → ⊥)
        → IfSome (S.left source.old) (λ script.
        GivesOutput (out (map string_bytes words.now) script) (K.taken sink.old) (K.taken sink.new) result) }

    // What happens is a run: each message is delivered after those of its sender to its callee.
    ensures run { (script : List ℕ) → IsRun (rules (map string_bytes words.now)) (trace (map string_bytes words.now) script) }

    // It is the run of what is printed: the same lines make both, one after another, and its last state is shown at the end.
    ensures printed { (script : List ℕ) → RunIsPrinted (map string_bytes words.now) script }

    // Refused words make nothing happen.
    ensures idle { (script : List ℕ) → options_of (map string_bytes words.now) ≡ None → trace (map string_bytes words.now) script ≡ [] }

    // How many workers there are changes nothing of it.
    ensures workers { (other : List (List ℕ)) (script : List ℕ) → ButForWorkers (map string_bytes words.now) other
        → (out (map string_bytes words.now) script ≡ out other script)
        × (trace (map string_bytes words.now) script ≡ trace other script)
        × (rules (map string_bytes words.now) ≡ rules other) }

    // A message that traps makes no call, and leaves its canister as it was but for what a cleanup that returned did, the
    // refund of an answer, the price, and contexts that close.
    ensures trapped { (script : List ℕ)
        → EachDelivery (TrapsLeave (rules (map string_bytes words.now))) (rules (map string_bytes words.now)) (trace (map string_bytes words.now) script) }

    // A call to the management canister that is refused, as an installation that traps is, changes nothing, but that it
    // is answered.
    ensures refused { (script : List ℕ)
        → EachDelivery (RefusalsLeave (rules (map string_bytes words.now))) (rules (map string_bytes words.now)) (trace (map string_bytes words.now) script) }

    // A call that is turned away changes nothing, but that it is answered: its callee does not admit it, has too few
    // cycles, or is not there.
    ensures turned_away { (script : List ℕ)
        → EachDelivery (TurnedAwayLeaves (rules (map string_bytes words.now))) (rules (map string_bytes words.now)) (trace (map string_bytes words.now) script) }

    // No call is answered twice: it never has two places, and none once its answer was delivered.
    ensures placed_once { (script : List ℕ) → EachState PlacedOnce (rules (map string_bytes words.now)) (trace (map string_bytes words.now) script) }
    ensures answered_once { (script : List ℕ) → AnsweredOnce (rules (map string_bytes words.now)) (trace (map string_bytes words.now) script) }

    // An answer to a user is final.
    ensures final_answers { (script : List ℕ) → AnswersAreFinal (rules (map string_bytes words.now)) (trace (map string_bytes words.now) script) }

    // Where nothing is left to be done, every request is answered.
    ensures drained { (script : List ℕ) → EachState DoneWhenDrained (rules (map string_bytes words.now)) (trace (map string_bytes words.now) script) }

    // The cycles that are there and those that were burned are the created ones.
    ensures cycles { (script : List ℕ) → EachState Conserves (rules (map string_bytes words.now)) (trace (map string_bytes words.now) script) }

    // What each status says of the bytes that were read and of those that were sent.
    ensures explained { Explained (map string_bytes words.now) (S.left source.old) (S.left source.new)
        (sink_at K.taken K.fits K.faults sink.old) (sink_at K.taken K.fits K.faults sink.new) result }
    ensures read { result ≡ Status.ReadFault → Rose (S.faults source.old) (S.faults source.new) }
    ensures write { result ≡ Status.WriteFault → Rose (K.faults sink.old) (K.faults sink.new) }
    ensures untouched { result ≡ Status.BadWords → source.new ≡ source.old }
    ensures generated { (n : ℕ) → generated_by (options_of (map string_bytes words.now)) ≡ Some n → source.new ≡ source.old }
    ensures to_the_end { result ≡ Status.Done → generated_by (options_of (map string_bytes words.now)) ≡ None
        → IsTrue (S.ended source.new) }

    // No count of faults falls.
    ensures later_source { S.faults source.old ≤ S.faults source.new }
    ensures later_sink { K.faults sink.old ≤ K.faults sink.new }

    // The source's count is one more exactly at `ReadFault`, and the sink's exactly at `WriteFault`.
    ensures counted_source { S.faults source.new ≡ source_count_after (S.faults source.old) result }
    ensures counted_sink { K.faults sink.new ≡ sink_count_after (K.faults sink.old) result }

    // A source that cannot fail does not fail.
    ensures sure { S.cannot_fail source.old
        → S.cannot_fail source.new × (S.faults source.new ≡ S.faults source.old) × (result ≢ Status.ReadFault) }

    // Where in addition the whole answer fits into the sink, it is given, and neither count rises.
    ensures complete { S.cannot_fail source.old → IfSome (S.left source.old) (λ script.
        IfSome (K.fits sink.old) (λ room. length (out (map string_bytes words.now) script).bytes ≤ room
        → GivesOutput (out (map string_bytes words.now) script) (K.taken sink.old) (K.taken sink.new) result
        × (S.faults source.new ≡ S.faults source.old)
        × (K.faults sink.new ≡ K.faults sink.old))) }
{
    read_and_run(alloc, rt, words, source, sink, gate)
}

// Reads the words, and runs the script that they ask for.
fn read_and_run<R: Threads + Sync, S: Source, K: Sink, G: Gate + Sync>(
    alloc: Global,
    rt: &R,
    words: &[String],
    source: &mut S,
    sink: &mut K,
    gate: &G,
) -> Status
    ensures explained { Explained (map string_bytes words.now) (S.left source.old) (S.left source.new)
        (sink_at K.taken K.fits K.faults sink.old) (sink_at K.taken K.fits K.faults sink.new) result }
    ensures read { result ≡ Status.ReadFault → Rose (S.faults source.old) (S.faults source.new) }
    ensures write { result ≡ Status.WriteFault → Rose (K.faults sink.old) (K.faults sink.new) }
    ensures untouched { result ≡ Status.BadWords → source.new ≡ source.old }
    ensures generated { (n : ℕ) → generated_by (options_of (map string_bytes words.now)) ≡ Some n → source.new ≡ source.old }
    ensures to_the_end { result ≡ Status.Done → generated_by (options_of (map string_bytes words.now)) ≡ None
        → IsTrue (S.ended source.new) }
    ensures sure { S.cannot_fail source.old
        → S.cannot_fail source.new × (S.faults source.new ≡ S.faults source.old) × (result ≢ Status.ReadFault) }
    ensures later { S.faults source.old ≤ S.faults source.new }
    ensures counted { S.faults source.new ≡ source_count_after (S.faults source.old) result }
{
    match Options::read(alloc, words) {
        Ok(Some(options)) => match options.generate {
            Some(number) => run_generated(alloc, rt, &options, number, sink, gate),
            None => run_script(alloc, rt, &options, source, sink, gate),
        },
        Ok(None) => refuse(sink),
        Err(_) => Status::NoMemory,
    }
}

// Prints the usage line.
fn refuse<K: Sink>(sink: &mut K) -> Status
    ensures refused { Concludes (sink_at K.taken K.fits K.faults sink.old) (sink_at K.taken K.fits K.faults sink.new)
        usage_output result }
{
    print_last(sink, usage().as_bytes(), Status::BadWords)
}
