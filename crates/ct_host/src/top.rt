ghost use Rattle.std.specs.Prelude.{◌≡◌, ◌⊎◌, None, Some, Err, IfOk, map, string_bytes};
ghost use Rattle.std.specs.Io.KnownBytes.{append_known};
ghost use Rattle.ic_outside.specs.Faults.{Rose};
ghost use Rattle.ct_words.specs.declared.TestOptions.{TestOptions as Options};
ghost use Rattle.ct_words.specs.Options.{options_of, usage_text, HasBounds};
ghost use Rattle.ct_host.specs.declared.stop.Stop.TheVariants as stops;
ghost use Rattle.ct_host.specs.declared.stop.Told.{Told as ATold};
ghost use Rattle.ct_host.specs.declared.stop.Why.{Why as AWhy};
ghost use Rattle.ct_host.specs.Chosen.{chosen_tests};
ghost use Rattle.ct_host.specs.Ends.{AreOf, EndsRefused, EndsWell, Hinders, HindersTests, Refuses, RunsChosen, RunsTests, faults_then};
ghost use Rattle.ct_host.specs.Looking.{first_of, why_of};
ghost use Rattle.ct_host.specs.Statuses.{status_of};

use crate::choosing::{Chosen, are_some, chosen_tests};
use crate::disk::Disk;
use crate::looking::{Looked, Suite, check_all, load, source};
use crate::outputs::Outputs;
use crate::running::{Limits, Session};
use crate::status::Status;
use crate::stop::{Stop, Told, Why};
use ct_words::{Choice, TestOptions, usage};
use ic_base::NoMemory;
use ic_outside::{Gate, Sink};
use ic_state::Charge;
use std::alloc::Global;
use std::thread::Threads;

// What the words say of how tests are run.
fn limits_of(options: &TestOptions) -> Limits
    requires { HasBounds options.now }
    ensures { AreOf options.now result }
{
    Limits {
        charge: Charge {
            limit: options.limit,
            price: options.price,
        },
        states: options.states,
        trace: options.trace,
    }
}

// Files are looked at in several steps, each of the files before the first fault of the last step.
fn first_of(first: Option<Told>, later: Option<Told>) -> Option<Told>
    ensures { why_of result ≡ first_of (why_of first) (why_of later) }
{
    match first {
        Some(told) => Some(told),
        None => later,
    }
}

// Runs tests that are meant, or says why they cannot be run.
fn run_chosen<'i, R: Threads + Sync, K: Sink + Drop, E: Sink + Drop, G: Gate + Sync>(
    session: &Session<'i, R, G>,
    choice: &Choice,
    tests: &[Chosen<'_, 'i, '_>],
    outputs: &mut Outputs<K, E>,
) -> Result<Status, Stop>
    ensures ended { IfOk result (RunsChosen session.now.limits choice.now tests.now (K.taken outputs.old.out) (K.taken outputs.new.out)) }
    ensures told { (told : ATold) → result ≡ Err (stops.Told told)
        → (outputs.new ≡ outputs.old) × HindersTests choice.now tests.now told.why }
    ensures counted { K.faults outputs.new.out ≡ faults_then (K.faults outputs.old.out) result }
{
    are_some(session.alloc, choice, tests)?;
    match session.perform(choice, tests, outputs) {
        Ok(status) => Ok(status),
        Err(broken) => Err(Stop::Broken(broken)),
    }
}

// Runs the tests that are meant, of files of which all holds that must.
fn run_suites<'i, R: Threads + Sync, K: Sink + Drop, E: Sink + Drop, G: Gate + Sync>(
    session: &Session<'i, R, G>,
    choice: &Choice,
    suites: &[Suite<'i, '_>],
    outputs: &mut Outputs<K, E>,
) -> Result<Status, Stop>
    ensures ended { IfOk result (RunsChosen session.now.limits choice.now (chosen_tests choice.now suites.now)
        (K.taken outputs.old.out) (K.taken outputs.new.out)) }
    ensures told { (told : ATold) → result ≡ Err (stops.Told told)
        → (outputs.new ≡ outputs.old) × HindersTests choice.now (chosen_tests choice.now suites.now) told.why }
    ensures counted { K.faults outputs.new.out ≡ faults_then (K.faults outputs.old.out) result }
{
    let tests = chosen_tests(session.alloc, choice, suites)?;
    run_chosen(session, choice, &tests[..], outputs)
}

// Looks at all files, and runs tests.
fn run_options<R: Threads + Sync, D: Disk, K: Sink + Drop, E: Sink + Drop, G: Gate + Sync>(
    alloc: Global,
    rt: &R,
    options: &TestOptions,
    disk: &D,
    outputs: &mut Outputs<K, E>,
    gate: &G,
) -> Result<Status, Stop>
    requires { HasBounds options.now }
    ensures ended { IfOk result (RunsTests (D.gives disk.now) options.now (K.taken outputs.old.out) (K.taken outputs.new.out)) }
    ensures told { (told : ATold) → result ≡ Err (stops.Told told)
        → (outputs.new ≡ outputs.old) × Hinders (D.gives disk.now) options.now told.why }
    ensures counted { K.faults outputs.new.out ≡ faults_then (K.faults outputs.old.out) result }
{
    let Looked {
        items: loaded,
        fault: unread,
    } = load(alloc, disk, &options.files.items)?;
    let Looked {
        items: sourced,
        fault: unparsed,
    } = source(alloc, disk, &loaded)?;
    let Looked {
        items: suites,
        fault: unsound,
    } = check_all(alloc, &sourced)?;
    match first_of(unsound, first_of(unparsed, unread)) {
        Some(told) => Err(Stop::Told(told)),
        None => {
            let limits = limits_of(options);
            let session = Session {
                alloc,
                rt,
                gate,
                limits,
            };
            run_suites(&session, &options.choice, &suites, outputs)
        }
    }
}

fn usage_line(alloc: Global) -> Result<Told, NoMemory>
    ensures { IfOk result (λ told. (told.why ≡ Why.BadWords) × (string_bytes told.line ≡ usage_text)) }
{
    Ok(Told {
        why: Why::BadWords,
        line: String::from_str(alloc, usage())?,
    })
}

fn run_words<R: Threads + Sync, D: Disk, K: Sink + Drop, E: Sink + Drop, G: Gate + Sync>(
    alloc: Global,
    rt: &R,
    words: &[String],
    disk: &D,
    outputs: &mut Outputs<K, E>,
    gate: &G,
) -> Result<Status, Stop>
    ensures refused { options_of (map string_bytes words.now) ≡ None → (outputs.new ≡ outputs.old) × Refuses result }
    ensures ended { (options : Options) → options_of (map string_bytes words.now) ≡ Some options
        → IfOk result (RunsTests (D.gives disk.now) options (K.taken outputs.old.out) (K.taken outputs.new.out)) }
    ensures silent { (told : ATold) → result ≡ Err (stops.Told told) → outputs.new ≡ outputs.old }
    ensures told { (told : ATold) (options : Options) → result ≡ Err (stops.Told told) → options_of (map string_bytes words.now) ≡ Some options
        → Hinders (D.gives disk.now) options told.why }
    ensures counted { K.faults outputs.new.out ≡ faults_then (K.faults outputs.old.out) result }
{
    match TestOptions::read(alloc, words)? {
        None => Err(Stop::Told(usage_line(alloc)?)),
        Some(options) => run_options(alloc, rt, &options, disk, outputs, gate),
    }
}

/// Runs the tests of files as the words ask, of which the first is the program's name, and prints what came
/// of them. All files are looked at before any test runs, and a fault of them is told on `err`.
pub fn canister_test<R: Threads + Sync, D: Disk, K: Sink + Drop, E: Sink + Drop, G: Gate + Sync>(
    alloc: Global,
    rt: &R,
    words: &[String],
    disk: &D,
    outputs: &mut Outputs<K, E>,
    gate: &G,
) -> Status
    // Words that are refused are answered by the usage line alone.
    ensures refused { options_of (map string_bytes words.now) ≡ None → (outputs.new.out ≡ outputs.old.out) × EndsRefused result }
    ensures usage { options_of (map string_bytes words.now) ≡ None → result ≡ Status.BadWords
        → E.taken outputs.new.err ≡ append_known (E.taken outputs.old.err) usage_text }
    // What each status says of the files, of their tests and of what was printed.
    ensures ended { (options : Options) → options_of (map string_bytes words.now) ≡ Some options
        → EndsWell (D.gives disk.now) options (K.taken outputs.old.out) (K.taken outputs.new.out) result }
    // Where no test runs, nothing is printed.
    ensures silent { (why : AWhy) → result ≡ status_of why → outputs.new.out ≡ outputs.old.out }
    // An output failed where that is the status.
    ensures write { result ≡ Status.WriteFault
        → Rose (K.faults outputs.old.out) (K.faults outputs.new.out) ⊎ Rose (E.faults outputs.old.err) (E.faults outputs.new.err) }
{
    let ended = run_words(alloc, rt, words, disk, outputs, gate);
    outputs.conclude(ended)
}
