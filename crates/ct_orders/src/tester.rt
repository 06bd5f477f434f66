ghost use Rattle.std.specs.Prelude.{◌≡◌, ◌+◌, ◌<◌, ◌≤◌, ◌^◌, ◌∷◌, [], ℕ, List, None, length, take, drop, IfOk, map};
ghost use Rattle.std.specs.Bool.{OnTrue};
ghost use Rattle.ct_check.specs.Moving.{Moving};
ghost use Rattle.ct_check.specs.declared.checked.CheckedKind.{CheckedKind};
ghost use Rattle.ct_check.specs.declared.checked.CheckedStep.{CheckedStep};
ghost use Rattle.ct_check.specs.declared.checked.CheckedStep.TheVariants.{Interleave, Statement};
ghost use Rattle.ct_run.specs.Statements.{Setting};
ghost use Rattle.ct_run.specs.Runs.{without_interleaves};
ghost use Rattle.ct_orders.specs.declared.verdict.NotMet.{NotMet as ANotMet};
ghost use Rattle.ct_orders.specs.declared.verdict.TooMany.{TooMany as ATooMany};
ghost use Rattle.ct_orders.specs.declared.verdict.Verdict.TheVariants.{Passed, Failed, Undecided};
ghost use Rattle.ct_orders.specs.Verdicts.{IsAt, Passes, FailsFirst, HasTooMany, whole};
ghost use Rattle.ct_cases.specs.Cases.{AreHeld, IsHeld, all_reached, first_case, reached};
ghost use Rattle.ct_orders.specs.Course.{ended_with, first_undecided, is_interleave, IsEnded, IsHeldNext, IsNext, IsSoFar, IsVerdict};

use crate::verdict::{Ended, Last, NotMet, TooMany, Verdict, Way, ended_at};
use ct_cases::{Case, Failing, Going, Interleaved, Tables, Tester, longer};
use ct_check::{CheckedInterleave, CheckedStatement, CheckedStatements, CheckedStep, CheckedTest};
use ct_outcomes::laws::one_meeting;
use ct_run::{Failure, Names};
use ct_script::Script;
use ic_base::NoMemory;
use ic_outside::Gate;
use ic_state::World;
use std::alloc::Global;
use std::thread::Threads;

/// How far a test has come: its cases, the first interleave that has too many, and the way to the calls of
/// one of whose orders none came to an end.
#[derive(Drop)]
struct Course {
    cases: Vec<Case>,
    undecided: Option<TooMany>,
    cut: Option<Way>,
}

/// What comes of a part of a test.
#[derive(Drop)]
enum Next<'i> {
    On(Course),
    Fails(Failing<'i>),
}

fn is_interleave(step: &CheckedStep<'_, '_, '_>) -> bool
    ensures { result ≡ is_interleave step.now }
{
    match step {
        CheckedStep::Statement(_) => false,
        CheckedStep::Interleave(_) => true,
    }
}

fn is_none(steps: &[CheckedStep<'_, '_, '_>]) -> bool
    ensures { OnTrue result (steps.now ≡ []) }
{
    steps.is_empty()
}

// How many parts there are before the first interleave.
fn count_before(steps: &[CheckedStep<'_, '_, '_>]) -> usize
    ensures within { result ≤ length steps.now }
    ensures statements { take result steps.now ≡ map Statement (without_interleaves (take result steps.now)) }
{
    for (place, step) in steps.iter().enumerate() {
        if is_interleave(step) {
            return place;
        }
    }
    steps.len()
}

// The first interleave that has too many cases.
fn first_undecided(undecided: Option<TooMany>, all: bool, here: TooMany) -> Option<TooMany>
    ensures { result ≡ first_undecided undecided all here }
{
    match undecided {
        Some(first) => Some(first),
        None if all => None,
        None => Some(here),
    }
}

// The verdict where all that was seen is met.
fn ended_with<'i>(undecided: Option<TooMany>) -> Verdict<'i>
    ensures { result ≡ ended_with undecided }
{
    match undecided {
        None => Verdict::Passed,
        Some(first) => Verdict::Undecided(first),
    }
}

impl Course {
    fn begin(alloc: Global, first: Case) -> Result<Course, NoMemory>
        ensures cases { IfOk result (λ course. course.cases.items ≡ first ∷ []) }
        ensures undecided { IfOk result (λ course. course.undecided ≡ None) }
    {
        let mut cases = Vec::new(alloc);
        cases.push(first)?;
        Ok(Course {
            cases,
            undecided: None,
            cut: None,
        })
    }

    fn has_none(&self) -> bool
        ensures { OnTrue result (self.now.cases.items ≡ []) }
    {
        self.cases.is_empty()
    }

    // The end of a test of which all that was seen is met.
    fn ended<'i>(self, alloc: Global) -> Result<Ended<'i>, NoMemory>
        ensures { IfOk result (λ ended. IsEnded self ended) }
    {
        let Course {
            cases,
            undecided,
            cut,
        } = self;
        let verdict = ended_with(undecided);
        let way = match cut {
            Some(way) => way,
            None => first_way(alloc, &cases, Last::End)?,
        };
        Ok(Ended { verdict, way })
    }
}

// The way of the first case.
fn first_way(alloc: Global, cases: &[Case], last: Last) -> Result<Way, NoMemory> {
    let order = match cases.first() {
        None => Vec::new(alloc),
        Some(case) => longer(alloc, &case.order, &[])?,
    };
    Ok(Way { order, last })
}

// The way to the calls of an interleave of whose orders none came to an end.
fn cut_of(
    alloc: Global,
    before: &[Case],
    ends: &[Case],
    place: usize,
) -> Result<Option<Way>, NoMemory> {
    if ends.is_empty() {
        Ok(Some(first_way(alloc, before, Last::Calls(place))?))
    } else {
        Ok(None)
    }
}

// A test without an interleave that passes.
fn passed<'i>(alloc: Global) -> Ended<'i>
    ensures { result.verdict ≡ Passed }
{
    let order = Vec::new(alloc);
    let last = Last::End;
    Ended {
        verdict: Verdict::Passed,
        way: Way { order, last },
    }
}

// A test that fails before any interleave, after this many parts.
fn failed<'i>(alloc: Global, place: usize, failure: Failure<'i>, names: Names) -> Ended<'i>
    ensures { (setting : Setting) (most : ℕ) (steps : List CheckedStep) → FailsFirst setting most steps place [] names failure.entry.unmet.came → IsVerdict setting most steps result }
{
    let mut failure = failure;
    failure.place = place;
    let order = Vec::new(alloc);
    let last = Last::Statement(failure.span.start);
    Ended {
        verdict: Verdict::Failed(NotMet { failure, names }),
        way: Way { order, last },
    }
}

// An interleave, before which this many parts come. One that begins with no case is not looked at.
fn interleave_of<'i, R: Threads + Sync, G: Gate + Sync>(
    tester: &Tester<'i, R, G>,
    tables: &mut Tables,
    course: Course,
    interleave: &CheckedInterleave<'_, 'i, '_>,
    part: usize,
) -> Result<Next<'i>, NoMemory>
    requires { AreHeld tables.old course.cases.items }
    ensures held { IfOk result (IsHeldNext tables.new) }
    ensures next { IfOk result (λ next. (steps left : List CheckedStep)
        → IsSoFar tester.now.setting tester.now.most steps (Interleave interleave.now ∷ left) (all_reached tables.old course.cases.items) course.undecided
        → IsAt steps part (Interleave interleave.now ∷ left)
        → IsNext tester.now.setting tester.now.most steps left part tables.new next) }
{
    one_meeting();
    if course.has_none() {
        return Ok(Next::On(course));
    }
    let Course {
        cases: before,
        undecided,
        cut: _cut,
    } = course;
    let Interleaved {
        cases,
        failing,
        all,
    } = tester.interleave(tables, &before, interleave)?;
    let place = interleave.place;
    match failing {
        Some(failing) => Ok(Next::Fails(failing)),
        None => Ok(Next::On(Course {
            cut: cut_of(tester.alloc(), &before, &cases, place)?,
            cases,
            undecided: first_undecided(undecided, all, TooMany { part, place }),
        })),
    }
}

fn statement_of<'i, R: Threads + Sync, G: Gate + Sync>(
    tester: &Tester<'i, R, G>,
    tables: &mut Tables,
    course: Course,
    statement: &CheckedStatement<'_, 'i, '_>,
) -> Result<Next<'i>, NoMemory>
    requires { AreHeld tables.old course.cases.items }
    ensures held { IfOk result (IsHeldNext tables.new) }
    ensures next { IfOk result (λ next. (steps left : List CheckedStep) (place : ℕ)
        → IsSoFar tester.now.setting tester.now.most steps (Statement statement.now ∷ left) (all_reached tables.old course.cases.items) course.undecided
        → IsAt steps place (Statement statement.now ∷ left)
        → IsNext tester.now.setting tester.now.most steps left place tables.new next) }
{
    one_meeting();
    let Course {
        cases,
        undecided,
        cut,
    } = course;
    match tester.statement(tables, cases, statement)? {
        Going::Fails(failing) => Ok(Next::Fails(failing)),
        Going::On(cases) => Ok(Next::On(Course {
            cases,
            undecided,
            cut,
        })),
    }
}

// A part of a test, before which this many come.
fn part<'i, R: Threads + Sync, G: Gate + Sync>(
    tester: &Tester<'i, R, G>,
    tables: &mut Tables,
    course: Course,
    step: &CheckedStep<'_, 'i, '_>,
    place: usize,
) -> Result<Next<'i>, NoMemory>
    requires { AreHeld tables.old course.cases.items }
    ensures held { IfOk result (IsHeldNext tables.new) }
    ensures next { IfOk result (λ next. (steps left : List CheckedStep)
        → IsSoFar tester.now.setting tester.now.most steps (step.now ∷ left) (all_reached tables.old course.cases.items) course.undecided
        → IsAt steps place (step.now ∷ left)
        → IsNext tester.now.setting tester.now.most steps left place tables.new next) }
{
    match step {
        CheckedStep::Interleave(interleave) => interleave_of(
            tester, tables, course, interleave, place,
        ),
        CheckedStep::Statement(statement) => statement_of(tester, tables, course, statement),
    }
}

// The parts of a test from its first interleave on, which come after this many.
fn steps<'i, R: Threads + Sync, G: Gate + Sync>(
    tester: &Tester<'i, R, G>,
    world: World,
    names: Names,
    steps: &[CheckedStep<'_, 'i, '_>],
    before: usize,
) -> Result<Ended<'i>, NoMemory>
    requires { before + length steps.now < 2 ^ 64 }
    ensures { IfOk result (λ ended. (all : List CheckedStep)
        → IsSoFar tester.now.setting tester.now.most all steps.now (first_case world names ∷ []) None
        → IsAt all before steps.now → IsVerdict tester.now.setting tester.now.most all ended) }
{
    if is_none(steps) {
        return Ok(passed(tester.alloc()));
    }
    let mut tables = Tables::new(tester.alloc());
    let first = tables.first(world, names)?;
    let mut course = Course::begin(tester.alloc(), first)?;
    for (place, step) in steps.iter().enumerate() {
        match part(tester, &mut tables, course, step, before + place)? {
            Next::On(next) => course = next,
            Next::Fails(failing) => return Ok(ended_at(failing, before + place)),
        }
    }
    course.ended(tester.alloc())
}

// The parts of a test, which come after this many statements of the preamble.
fn parts<'i, R: Threads + Sync, G: Gate + Sync>(
    tester: &Tester<'i, R, G>,
    world: World,
    names: Names,
    parts: &[CheckedStep<'_, 'i, '_>],
    before: usize,
) -> Result<Ended<'i>, NoMemory>
    requires { before + length parts.now < 2 ^ 64 }
    ensures { IfOk result (λ ended. (preamble : List CheckedKind)
        → IsSoFar tester.now.setting tester.now.most (whole preamble parts.now) parts.now (first_case world names ∷ []) None
        → length preamble ≡ before → IsVerdict tester.now.setting tester.now.most (whole preamble parts.now) ended) }
{
    one_meeting();
    let mut names = names;
    let mut script = Script::unwanted(tester.alloc());
    let count = count_before(parts);
    let (alone, rest) = (&parts[..count], &parts[count..]);
    let (world, unmet) = tester.runner.steps(world, &mut names, alone, &mut script)?;
    match unmet {
        None => steps(tester, world, names, rest, before + count),
        Some(failure) => {
            let place = before + failure.place;
            Ok(failed(tester.alloc(), place, failure, names))
        }
    }
}

// The statements of the preamble, and then the parts of a test.
fn run<'i, R: Threads + Sync, G: Gate + Sync>(
    tester: &Tester<'i, R, G>,
    preamble: &CheckedStatements<'_, 'i, '_>,
    test: &CheckedTest<'_, 'i, '_>,
) -> Result<Ended<'i>, NoMemory>
    ensures { IfOk result (IsVerdict tester.now.setting tester.now.most (whole preamble.now test.now.steps)) }
{
    one_meeting();
    let alloc = tester.alloc();
    let mut names = Names::start(alloc)?;
    let mut script = Script::unwanted(alloc);
    let statements = &preamble.items;
    let (world, unmet) = tester
        .runner
        .statements(World::new(alloc), &mut names, statements, &mut script)?;
    match unmet {
        None => parts(tester, world, names, &test.steps.items, statements.len()),
        Some(failure) => {
            let place = failure.place;
            Ok(failed(alloc, place, failure, names))
        }
    }
}

/// Runs a test: the statements of the preamble, and then its own parts, from the empty state, in every order that
/// its interleaves allow.
pub fn test<'i, R: Threads + Sync, G: Gate + Sync>(
    tester: &Tester<'i, R, G>,
    preamble: &CheckedStatements<'_, 'i, '_>,
    test: &CheckedTest<'_, 'i, '_>,
) -> Result<Ended<'i>, NoMemory>
    // It passes only where on every way through it all holds, and every way ends.
    ensures passed { IfOk result (λ ended. ended.verdict ≡ Passed → Passes tester.now.setting (whole preamble.now test.now.steps)) }
    // It fails only where on the way that is given a part is not met: how many come before it, and what came. All holds of
    // those before, on every way, and of an interleave it is the first move that cannot be submitted, or else is not met;
    // unless an interleave up to there has too many cases.
    ensures failed { IfOk result (λ ended. (unmet : ANotMet) → ended.verdict ≡ Failed unmet
        → FailsFirst tester.now.setting tester.now.most (whole preamble.now test.now.steps) unmet.failure.place ended.way.order.items unmet.names unmet.failure.unmet.came) }
    // It is not decided only where more cases than that can be met in the interleave that is told, no two of them one.
    ensures undecided { IfOk result (λ ended. (first : ATooMany) → ended.verdict ≡ Undecided first
        → (left : List CheckedStep) × (moves : List Moving) × HasTooMany tester.now.setting (whole preamble.now test.now.steps) left moves tester.now.most
        × IsAt (whole preamble.now test.now.steps) first.part (Interleave moves ∷ left)) }
{
    let ended = run(tester, preamble, test)?;
    Ok(ended)
}
