ghost use Rattle.std.specs.Prelude.{◌<◌, ◌≤◌, length, IfSome};

use crate::delivery::{CalledList, Delivery, Naming};
use crate::interfaces::Interfaces;
use crate::tracing::{TracedStatement, all_traced};
use crate::verdict::{Last, Way};
use ct_cases::{Submitted, Tester, copied_names, is_query};
use ct_check::{
    CheckedInterleave, CheckedMove, CheckedStatement, CheckedStatements, CheckedStep, CheckedTest,
};
use ct_file::Span;
use ct_run::Names;
use ct_script::{Script, Trace};
use ct_sources::Sources;
use ic_base::NoMemory;
use ic_outside::Gate;
use ic_schedule::eligible;
use ic_state::{Message, World};
use std::alloc::Global;
use std::thread::Threads;

/// The deliveries of an interleave, and what names stand for before it.
#[derive(Drop)]
pub struct Told<'i> {
    pub names: Names,
    pub deliveries: Vec<Delivery<'i>>,
}

/// The deliveries of a way through a test, by interleaves; and whether the last of them is one that no pick takes, at
/// which a script ends.
#[derive(Drop)]
pub struct Retold<'i> {
    pub interleaves: Vec<Told<'i>>,
    pub is_cut: bool,
    /// What canisters said, and where they trapped, where that is wanted; and the statements with their deliveries.
    pub trace: Option<Trace>,
    pub statements: Vec<TracedStatement<'i>>,
}

impl<'i> Retold<'i> {
    /// Nothing is told.
    pub fn nothing(alloc: Global) -> Retold<'i> {
        Retold {
            interleaves: Vec::new(alloc),
            is_cut: false,
            trace: None,
            statements: Vec::new(alloc),
        }
    }
}

/// A test that is run along a way: how far it has come, and what was told.
#[derive(Drop)]
struct Course<'w, 'i> {
    alloc: Global,
    sources: &'i Sources,
    way: &'w Way,
    // How many places of the way are passed.
    count: usize,
    names: Names,
    interfaces: Interfaces,
    // The calls of canisters that were delivered in interleaves, and all that a trace has.
    called: CalledList,
    traced: CalledList,
    told: Vec<Told<'i>>,
    // Whether statements are wanted with their deliveries.
    tells_statements: bool,
    statements: Vec<TracedStatement<'i>>,
    is_cut: bool,
}

/// A state, and whether the way goes on from it.
#[derive(Drop)]
enum Next {
    On(World),
    Ends,
}

impl<'w, 'i> Course<'w, 'i> {
    fn begin(
        alloc: Global,
        sources: &'i Sources,
        way: &'w Way,
        tells_statements: bool,
    ) -> Result<Course<'w, 'i>, NoMemory> {
        Ok(Course {
            alloc,
            sources,
            way,
            count: 0,
            names: Names::start(alloc)?,
            interfaces: Interfaces::start(alloc)?,
            called: CalledList::new(alloc),
            traced: CalledList::new(alloc),
            told: Vec::new(alloc),
            tells_statements,
            statements: Vec::new(alloc),
            is_cut: false,
        })
    }

    // The place of the next delivery of an interleave, if there is one.
    fn next(&self, world: &World) -> Option<usize>
        ensures there { IfSome result (λ place. place < length world.now.messages) }
        ensures left { IfSome result (λ place. self.now.count < length self.now.way.now.order.items) }
    {
        match self.way.order.get(self.count) {
            Some(place) if *place < world.parts().messages.items.len() => Some(*place),
            _ => None,
        }
    }

    // A statement with the deliveries that began since the last, where they are wanted.
    fn trace(&mut self, span: Span, script: &mut Script) -> Result<(), NoMemory> {
        if !self.tells_statements {
            return Ok(());
        }
        let Some(taken) = script.take_deliveries() else {
            return Ok(());
        };
        let names = copied_names(self.alloc, &self.names)?;
        let naming = Naming {
            sources: self.sources,
            names: &names.items,
            interfaces: &self.interfaces,
        };
        let deliveries = all_traced(self.alloc, &mut self.traced, naming, taken.items)?;
        self.statements.push(TracedStatement {
            span,
            names,
            deliveries,
            earlier: taken.earlier,
        })?;
        Ok(())
    }

    // Moves, the last of them with the deliveries that began since the last.
    fn trace_moves(
        &mut self,
        moves: &[CheckedMove<'_, 'i, '_>],
        script: &mut Script,
    ) -> Result<(), NoMemory> {
        for made in moves {
            self.trace(made.span, script)?;
        }
        Ok(())
    }

    // The delivery that is to be made.
    fn tell(
        &mut self,
        message: &Message,
        deliveries: &mut Vec<Delivery<'i>>,
    ) -> Result<(), NoMemory> {
        let naming = Naming {
            sources: self.sources,
            names: &self.names.items,
            interfaces: &self.interfaces,
        };
        if let Some(delivery) = self.called.delivery(naming, message)? {
            deliveries.push(delivery)?;
        }
        self.called.pass(message)
    }

    // After a statement.
    fn pass_statement(
        &mut self,
        statement: &CheckedStatement<'_, 'i, '_>,
        is_met: bool,
        script: &mut Script,
    ) -> Result<(), NoMemory> {
        if is_met {
            let slot = self.names.items.len().saturating_sub(1);
            self.interfaces.pass_statement(&statement.kind, slot)?;
        }
        self.trace(statement.span, script)
    }

    // After an interleave.
    fn pass_moves(&mut self, moves: &[CheckedMove<'_, 'i, '_>]) {
        for made in moves {
            self.interfaces.pass_move(made);
        }
    }

    fn retold(self) -> Retold<'i> {
        Retold {
            interleaves: self.told,
            is_cut: self.is_cut,
            trace: None,
            statements: self.statements,
        }
    }
}

// The move with which the way ends, if it is one of these.
fn last_of<'m, 'f, 'i, 'a>(
    moves: &'m [CheckedMove<'f, 'i, 'a>],
    last: Last,
) -> Option<&'m CheckedMove<'f, 'i, 'a>> {
    match last {
        Last::Statement(place) => moves.iter().find(|made| made.span.start == place),
        Last::End | Last::Calls(_) => None,
    }
}

fn retell_statement<'i, R: Threads + Sync, G: Gate + Sync>(
    tester: &Tester<'i, R, G>,
    world: World,
    course: &mut Course<'_, 'i>,
    statement: &CheckedStatement<'_, 'i, '_>,
    script: &mut Script,
) -> Result<Next, NoMemory> {
    let (world, unmet) = tester
        .runner
        .statement(world, &mut course.names, statement, script)?;
    let is_met = unmet.is_none();
    course.pass_statement(statement, is_met, script)?;
    if is_met {
        Ok(Next::On(world))
    } else {
        Ok(Next::Ends)
    }
}

// The next delivery: it is told, and then made. None is made where a script is wanted, and no pick takes it.
fn retell_delivery<'i, R: Threads + Sync, G: Gate + Sync>(
    tester: &Tester<'i, R, G>,
    world: World,
    course: &mut Course<'_, 'i>,
    place: usize,
    deliveries: &mut Vec<Delivery<'i>>,
    script: &mut Script,
) -> Result<World, NoMemory>
    requires there { place < length world.messages }
    requires left { course.old.count < length course.old.way.now.order.items }
{
    course.count += 1;
    course.tell(&world.parts().messages.items[place], deliveries)?;
    course.is_cut = script.is_wanted() && !eligible(&world, place);
    if course.is_cut {
        return Ok(world);
    }
    script.pick(place)?;
    tester.runner.delivered(world, place, script)
}

// The deliveries of an interleave, which ends where no message is left, or with the way.
fn retell_deliveries<'i, R: Threads + Sync, G: Gate + Sync>(
    tester: &Tester<'i, R, G>,
    world: World,
    course: &mut Course<'_, 'i>,
    script: &mut Script,
) -> Result<World, NoMemory> {
    let mut world = world;
    let mut deliveries = Vec::new(tester.alloc());
    for _ in course.count..course.way.order.len() {
        let Some(place) = course.next(&world) else {
            break;
        };
        world = retell_delivery(tester, world, course, place, &mut deliveries, script)?;
        if course.is_cut {
            break;
        }
    }
    let names = copied_names(tester.alloc(), &course.names)?;
    course.told.push(Told { names, deliveries })?;
    Ok(world)
}

// The same, and the moves as a trace has them: the last comes with the deliveries.
fn retell_moves<'i, R: Threads + Sync, G: Gate + Sync>(
    tester: &Tester<'i, R, G>,
    world: World,
    course: &mut Course<'_, 'i>,
    moves: &[CheckedMove<'_, 'i, '_>],
    script: &mut Script,
) -> Result<World, NoMemory> {
    let count = moves.len().saturating_sub(1);
    course.trace_moves(&moves[..count], script)?;
    let world = retell_deliveries(tester, world, course, script)?;
    course.trace_moves(&moves[count..], script)?;
    Ok(world)
}

// The move with which the way ends: a query is asked.
fn retell_last<'i, R: Threads + Sync, G: Gate + Sync>(
    tester: &Tester<'i, R, G>,
    world: World,
    course: &mut Course<'_, 'i>,
    made: &CheckedMove<'_, 'i, '_>,
    script: &mut Script,
) -> Result<(), NoMemory> {
    if is_query(&made.action) {
        tester.runner.comment(made.span, script)?;
        tester.runner.moved(world, &mut course.names, made, script)?;
        course.trace(made.span, script)?;
    }
    Ok(())
}

// An interleave whose moves are submitted.
fn retell_submitted<'i, R: Threads + Sync, G: Gate + Sync>(
    tester: &Tester<'i, R, G>,
    world: World,
    course: &mut Course<'_, 'i>,
    moves: &[CheckedMove<'_, 'i, '_>],
    accepted: &[Option<u32>],
    script: &mut Script,
) -> Result<Next, NoMemory>
    requires { length moves.now ≤ length accepted.now }
{
    let world = retell_moves(tester, world, course, moves, script)?;
    if course.is_cut {
        return Ok(Next::Ends);
    }
    if let Some(made) = last_of(moves, course.way.last) {
        retell_last(tester, world, course, made, script)?;
        return Ok(Next::Ends);
    }
    let (world, _) = tester.judge_moves(world, &mut course.names, moves, accepted)?;
    course.pass_moves(moves);
    Ok(Next::On(world))
}

// Of an interleave that ends before any message is delivered, the moves up to the one that cannot be submitted are told, or
// all, where no order came to its end.
fn retell_unsent<'i>(
    course: &mut Course<'_, 'i>,
    moves: &[CheckedMove<'_, 'i, '_>],
    sent: usize,
    script: &mut Script,
) -> Result<Next, NoMemory> {
    let count = sent.saturating_add(1).min(moves.len());
    course.trace_moves(&moves[..count], script)?;
    Ok(Next::Ends)
}

fn retell_interleave<'i, R: Threads + Sync, G: Gate + Sync>(
    tester: &Tester<'i, R, G>,
    world: World,
    course: &mut Course<'_, 'i>,
    interleave: &CheckedInterleave<'_, 'i, '_>,
    script: &mut Script,
) -> Result<Next, NoMemory> {
    let moves = &interleave.items;
    let Submitted {
        world,
        accepted,
        unsent,
    } = tester.submit(world, &course.names.items, moves, script)?;
    if unsent.is_some() || course.way.last == Last::Calls(interleave.place) {
        return retell_unsent(course, moves, accepted.len(), script);
    }
    retell_submitted(tester, world, course, moves, &accepted, script)
}

fn retell_step<'i, R: Threads + Sync, G: Gate + Sync>(
    tester: &Tester<'i, R, G>,
    world: World,
    course: &mut Course<'_, 'i>,
    step: &CheckedStep<'_, 'i, '_>,
    script: &mut Script,
) -> Result<Next, NoMemory> {
    match step {
        CheckedStep::Statement(statement) => {
            retell_statement(tester, world, course, statement, script)
        }
        CheckedStep::Interleave(interleave) => {
            retell_interleave(tester, world, course, interleave, script)
        }
    }
}

fn retell_preamble<'i, R: Threads + Sync, G: Gate + Sync>(
    tester: &Tester<'i, R, G>,
    course: &mut Course<'_, 'i>,
    preamble: &CheckedStatements<'_, 'i, '_>,
    script: &mut Script,
) -> Result<Next, NoMemory> {
    let mut world = World::new(tester.alloc());
    for statement in &preamble.items {
        match retell_statement(tester, world, course, statement, script)? {
            Next::On(next) => world = next,
            Next::Ends => return Ok(Next::Ends),
        }
    }
    Ok(Next::On(world))
}

fn retell_steps<'i, R: Threads + Sync, G: Gate + Sync>(
    tester: &Tester<'i, R, G>,
    world: World,
    course: &mut Course<'_, 'i>,
    steps: &[CheckedStep<'_, 'i, '_>],
    script: &mut Script,
) -> Result<(), NoMemory> {
    let mut world = world;
    for step in steps {
        match retell_step(tester, world, course, step, script)? {
            Next::On(next) => world = next,
            Next::Ends => return Ok(()),
        }
    }
    Ok(())
}

// Runs a test anew, along the way of the course.
fn retell_test<'i, R: Threads + Sync, G: Gate + Sync>(
    tester: &Tester<'i, R, G>,
    preamble: &CheckedStatements<'_, 'i, '_>,
    test: &CheckedTest<'_, 'i, '_>,
    course: &mut Course<'_, 'i>,
    script: &mut Script,
) -> Result<(), NoMemory> {
    match retell_preamble(tester, course, preamble, script)? {
        Next::On(world) => retell_steps(tester, world, course, &test.steps.items, script),
        Next::Ends => Ok(()),
    }
}

/// Runs a test anew, along a way on which it went, and tells its deliveries. It is written to a script that is
/// wanted, as far as picks take the deliveries.
pub fn retell<'i, R: Threads + Sync, G: Gate + Sync>(
    tester: &Tester<'i, R, G>,
    preamble: &CheckedStatements<'_, 'i, '_>,
    test: &CheckedTest<'_, 'i, '_>,
    way: &Way,
    script: &mut Script,
) -> Result<Retold<'i>, NoMemory> {
    let mut course = Course::begin(tester.alloc(), tester.runner.sources, way, false)?;
    retell_test(tester, preamble, test, &mut course, script)?;
    Ok(course.retold())
}

/// Runs a test anew, along a way on which it went, and tells its deliveries, and what canisters said and where they
/// trapped; with its statements and their deliveries, where these are wanted.
pub fn retell_traced<'i, R: Threads + Sync, G: Gate + Sync>(
    tester: &Tester<'i, R, G>,
    preamble: &CheckedStatements<'_, 'i, '_>,
    test: &CheckedTest<'_, 'i, '_>,
    way: &Way,
    tells_statements: bool,
) -> Result<Retold<'i>, NoMemory> {
    let sources = tester.runner.sources;
    let mut course = Course::begin(tester.alloc(), sources, way, tells_statements)?;
    let mut script = Script::tracing(tester.alloc());
    retell_test(tester, preamble, test, &mut course, &mut script)?;
    let mut retold = course.retold();
    retold.trace = script.into_trace();
    Ok(retold)
}
