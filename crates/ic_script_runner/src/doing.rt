ghost use Rattle.std.specs.Prelude.{◌≡◌, ◌<◌, ◌≤◌, ℕ, List, [], length, Ok, IfOk};
ghost use Rattle.ic_behaviour.specs.Submitted.{submitted, timed};
ghost use Rattle.ic_behaviour.specs.Round.{rounds};
ghost use Rattle.ic_script_runner.specs.Acts.{Acts};
ghost use Rattle.ic_script_runner.specs.AfterLine.{after_line};
ghost use Rattle.ic_script_runner.specs.AfterCommand.{after_command, after_rounds, text_of_rounds, answer_now, fault_of, unless};
ghost use Rattle.ic_candid_lines.specs.Decoding.{decode_text, show_text};
ghost use Rattle.ic_candid_lines.specs.Encoding.{encode_text};
ghost use Rattle.ic_candid_lines.specs.Upgrading.{upgrade_text};
ghost use Rattle.ic_script_runner.specs.Options.{rules_of};
ghost use Rattle.ic_options.specs.Options.{HasBounds};
ghost use Rattle.ic_output.specs.Texts.{accepted_text, query_text, call_refused_text, state_line, witness_text};

use crate::picking::picked;
use ic_asking::{accepts_beside, answer_beside};
use ic_base::NoMemory;
use ic_candid_lines::{decode_text, encode_text, show_text, upgrade_text};
use ic_options::Options;
use ic_output::{
    accepted_text, call_refused_text, line_of_parts, pick_text, query_text, ran_text,
    witness_line_of_parts,
};
use ic_outside::Gate;
use ic_principal::Bytes;
use ic_queue_rounds::{Crew, QueuedWorld, rounds_in_queues};
use ic_script::{Ask, Command, LineCause, LineError, Paths, parse_line};
use ic_state::Charge;
use std::alloc::{AllocError, Global};
use std::thread::Threads;

const MOST_CALLS: usize = 1_048_576;

/// Why a line was not done.
#[derive(Clone, Copy, Debug, PartialEq, Eq)]
pub enum NotDone {
    /// The line is bad.
    Bad(LineCause),
    /// Memory ran out.
    NoMemory,
}

impl From<AllocError> for NotDone {
    ghost use Rattle.std.specs.Prelude.{◌≡◌};
    ghost use Rattle.ic_script_runner.specs.declared.doing.NotDone.TheVariants.{NoMemory};

    ghost from_gives = { λ _ error. error ≡ NoMemory };

    fn from(_: AllocError) -> NotDone {
        NotDone::NoMemory
    }
}

impl From<LineError> for NotDone {
    ghost use Rattle.std.specs.Prelude.{◌≡◌};
    ghost use Rattle.ic_script_runner.specs.Acts.{not_done};

    ghost from_gives = { λ error outcome. outcome ≡ not_done error };

    fn from(error: LineError) -> NotDone {
        match error {
            LineError::Form => NotDone::Bad(LineCause::Form),
            LineError::Principal => NotDone::Bad(LineCause::Principal),
            LineError::Hex => NotDone::Bad(LineCause::Hex),
            LineError::Number => NotDone::Bad(LineCause::Number),
            LineError::Size => NotDone::Bad(LineCause::Size),
            LineError::NoMemory => NotDone::NoMemory,
        }
    }
}

/// Does a line: the world after it, and what it prints. On an error the world is dropped.
#[tactic(auto, unfolding(crate::specs::AfterLine::after_line))]
pub fn do_line<R: Threads + Sync, G: Gate + Sync>(
    alloc: Global,
    rt: &R,
    options: &Options,
    world: QueuedWorld,
    line: &[u8],
    gate: &G,
) -> Result<(QueuedWorld, Bytes), NotDone>
    requires { HasBounds options.now }
    ensures { Acts (after_line options.now world line.now) result }
{
    let command = parse_line(alloc, line)?;
    do_command(alloc, rt, options, world, command, gate)
}

#[tactic(auto, unfolding(crate::specs::AfterCommand::after_command))]
fn do_command<R: Threads + Sync, G: Gate + Sync>(
    alloc: Global,
    rt: &R,
    options: &Options,
    world: QueuedWorld,
    command: Command,
    gate: &G,
) -> Result<(QueuedWorld, Bytes), NotDone>
    requires within { HasBounds options.now }
    requires time { (time : ℕ) → command ≡ Command.Time time → time ≤ 9223372036854775807 }
    requires size { (from to : List ℕ) → command ≡ Command.Upgradable from to
        → (length from ≤ 2097152) × (length to ≤ 2097152) }
    ensures { Acts (after_command options.now world command) result }
{
    match command {
        Command::Nothing => Ok((
            world,
            Bytes {
                items: Vec::new(alloc),
            },
        )),
        Command::Call(ask) => submit(alloc, options, world, ask),
        Command::Query(ask) => answer(alloc, options, world, ask),
        Command::Run(count) => make_rounds(alloc, rt, options, world, count, gate),
        Command::Drain => make_rounds(alloc, rt, options, world, options.rounds, gate),
        Command::Time(time) => set_time(alloc, world, time),
        Command::State => show_state(alloc, world),
        Command::Decode { expected, bytes } => decode(alloc, world, &expected, &bytes),
        Command::Show { expected, bytes } => show(alloc, world, &expected, &bytes),
        Command::Encode { expected, text } => encode(alloc, world, &expected, &text),
        Command::Upgradable { from, to } => upgrade(alloc, world, &from, &to),
        Command::Witness(paths) => show_witness(alloc, world, &paths),
        Command::Pick(place) => pick(alloc, options, world, place),
    }
}

#[tactic(auto, unfolding(crate::specs::AfterCommand::after_command))]
fn submit(
    alloc: Global,
    options: &Options,
    world: QueuedWorld,
    ask: Ask,
) -> Result<(QueuedWorld, Bytes), NotDone>
    requires { HasBounds options.now }
    ensures { Acts (after_command options.now world (Command.Call ask)) result }
{
    if world.rest().requests.len() >= MOST_CALLS {
        return Err(NotDone::Bad(LineCause::Calls));
    }
    let (mut rest, queues) = world.open();
    let is_accepted = accepts_beside(alloc, charge(options), &mut rest, &ask);
    let world = QueuedWorld::seal(rest, queues);
    if is_accepted? {
        accept(alloc, world, ask)
    } else {
        refuse(alloc, world)
    }
}

// What the options say of executions.
fn charge(options: &Options) -> Charge
    requires { HasBounds options.now }
    ensures limit { result.limit ≡ options.now.limit }
    ensures price { result.price ≡ options.now.price }
{
    Charge {
        limit: options.limit,
        price: options.price,
    }
}

fn accept(alloc: Global, world: QueuedWorld, ask: Ask) -> Result<(QueuedWorld, Bytes), NotDone>
    requires { length world.requests < 1048576 }
    ensures { Acts (Ok (submitted world ask.sender ask.callee ask.method ask.arg, accepted_text (length world.requests))) result }
{
    let number = world.rest().requests.len();
    let text = accepted_text(alloc, number)?;
    let world = world.submit(alloc, ask.sender, ask.callee, ask.method, ask.arg)?;
    Ok((world, text))
}

fn refuse(alloc: Global, world: QueuedWorld) -> Result<(QueuedWorld, Bytes), NotDone>
    ensures { Acts (Ok (world, call_refused_text)) result }
{
    let text = call_refused_text(alloc)?;
    Ok((world, text))
}

// The world stays as it is.
fn answer(
    alloc: Global,
    options: &Options,
    world: QueuedWorld,
    ask: Ask,
) -> Result<(QueuedWorld, Bytes), NotDone>
    requires { HasBounds options.now }
    ensures { Acts (Ok (world, query_text (answer_now options.now world ask))) result }
{
    let (mut rest, queues) = world.open();
    let answered = answer_beside(alloc, charge(options), &mut rest, ask);
    let world = QueuedWorld::seal(rest, queues);
    let response = answered?;
    let text = query_text(alloc, &response)?;
    Ok((world, text))
}

fn make_rounds<R: Threads + Sync, G: Gate + Sync>(
    alloc: Global,
    rt: &R,
    options: &Options,
    world: QueuedWorld,
    count: u32,
    gate: &G,
) -> Result<(QueuedWorld, Bytes), NotDone>
    requires { HasBounds options.now }
    ensures { Acts (Ok (after_rounds options.now count world, text_of_rounds options.now count world)) result }
{
    let (world, made) = run_rounds_by(alloc, rt, options, world, count, gate)?;
    let text = ran_text(alloc, made, world.len())?;
    Ok((world, text))
}

/// Makes up to this many rounds, as the options say: the world after them, and how many handled a
/// message.
pub fn run_rounds_by<R: Threads + Sync, G: Gate + Sync>(
    alloc: Global,
    rt: &R,
    options: &Options,
    world: QueuedWorld,
    count: u32,
    gate: &G,
) -> Result<(QueuedWorld, u32), NoMemory>
    requires { HasBounds options.now }
    ensures state { IfOk result (λ r. r.0 ≡ after_rounds options.now count world) }
    ensures made { IfOk result (λ r. r.1 ≡ length (rounds (rules_of options.now) count world)) }
{
    let crew = Crew {
        rt,
        workers: options.workers,
        gate,
    };
    match rounds_in_queues(alloc, world, count, &crew, charge(options)) {
        Ok((world, made)) => Ok((world, made)),
        Err(error) => Err(error),
    }
}

fn set_time(
    alloc: Global,
    mut world: QueuedWorld,
    time: u64,
) -> Result<(QueuedWorld, Bytes), NotDone>
    requires { time ≤ 9223372036854775807 }
    ensures { Acts (unless (fault_of world (Command.Time time)) (timed world time, [])) result }
{
    if time < world.rest().time {
        return Err(NotDone::Bad(LineCause::Back));
    }
    world.set_time(time);
    Ok((
        world,
        Bytes {
            items: Vec::new(alloc),
        },
    ))
}

// The world stays as it is.
fn show_state(alloc: Global, world: QueuedWorld) -> Result<(QueuedWorld, Bytes), NotDone>
    ensures { Acts (Ok (world, state_line world)) result }
{
    let text = line_of_parts(alloc, world.rest(), world.len())?;
    Ok((world, text))
}

// The world stays as it is.
fn show_witness(
    alloc: Global,
    world: QueuedWorld,
    paths: &Paths,
) -> Result<(QueuedWorld, Bytes), NotDone>
    ensures { Acts (Ok (world, witness_text world paths.now)) result }
{
    let text = witness_line_of_parts(alloc, world.rest(), &paths.items)?;
    Ok((world, text))
}

#[tactic(auto, unfolding(crate::specs::AfterCommand::after_command))]
fn pick(
    alloc: Global,
    options: &Options,
    world: QueuedWorld,
    place: u32,
) -> Result<(QueuedWorld, Bytes), NotDone>
    requires { HasBounds options.now }
    ensures { Acts (after_command options.now world (Command.Pick place)) result }
{
    let (world, was_eligible) = picked(alloc, options, world, place)?;
    let text = pick_text(alloc, was_eligible)?;
    Ok((world, text))
}

fn decode(
    alloc: Global,
    world: QueuedWorld,
    expected: &Bytes,
    bytes: &Bytes,
) -> Result<(QueuedWorld, Bytes), NotDone>
    ensures { Acts (Ok (world, decode_text expected.now bytes.now)) result }
{
    let text = decode_text(alloc, &expected.items, &bytes.items)?;
    Ok((world, text))
}

fn show(
    alloc: Global,
    world: QueuedWorld,
    expected: &Bytes,
    bytes: &Bytes,
) -> Result<(QueuedWorld, Bytes), NotDone>
    ensures { Acts (Ok (world, show_text expected.now bytes.now)) result }
{
    let text = show_text(alloc, &expected.items, &bytes.items)?;
    Ok((world, text))
}

fn encode(
    alloc: Global,
    world: QueuedWorld,
    expected: &Bytes,
    text: &Bytes,
) -> Result<(QueuedWorld, Bytes), NotDone>
    ensures { Acts (Ok (world, encode_text expected.now text.now)) result }
{
    let printed = encode_text(alloc, &expected.items, &text.items)?;
    Ok((world, printed))
}

fn upgrade(
    alloc: Global,
    world: QueuedWorld,
    from: &Bytes,
    to: &Bytes,
) -> Result<(QueuedWorld, Bytes), NotDone>
    requires from { length from.now ≤ 2097152 }
    requires to { length to.now ≤ 2097152 }
    ensures { Acts (Ok (world, upgrade_text from.now to.now)) result }
{
    let text = upgrade_text(alloc, &from.items, &to.items)?;
    Ok((world, text))
}
