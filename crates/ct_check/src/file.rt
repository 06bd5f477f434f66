ghost use Rattle.std.specs.Prelude.{◌≡◌, [], IfOk, OnOk};
ghost use Rattle.ct_check.specs.declared.statement.Where.TheVariants as places;
ghost use Rattle.ct_check.specs.Answer.{Gives};
ghost use Rattle.ct_check.specs.Holds as holds;

use crate::cause::{CheckCause, CheckError, fault};
use crate::checked::{
    Checked, CheckedInterleave, CheckedMove, CheckedStatements, CheckedStep, CheckedSteps,
    CheckedTest, CheckedTests,
};
use crate::checker::{ANONYMOUS_SLOT, Checker, MANAGEMENT_SLOT};
use crate::statement::Where;
use ct_file::{File, Interleave, Move, Quoted, Statement, Statements, Step, Test, Tests};
use ct_names::is_test_name;
use ct_scope::{Bound, ByName, InterfaceId, Kind, Scope};
use ct_sources::Sources;
use ic_base::NoMemory;
use ic_principal::Text;
use std::alloc::Global;
use std::marker::Model;

/// The slot of `anonymous`, who makes a call that says nothing of it.
pub const ANONYMOUS: usize = ANONYMOUS_SLOT;

/// The slot of `ic`, the management canister.
pub const MANAGEMENT: usize = MANAGEMENT_SLOT;

impl<'o, 'i> Checker<'o, 'i> {
    fn statements<'f, 'a>(
        &mut self,
        statements: &'f [Statement<'a>],
    ) -> Result<CheckedStatements<'f, 'i, 'a>, CheckError<'a>>
        ensures { Gives (λ checked. (checked, self.new)) result (holds.all_checked holds.statement self.old statements.now) }
    {
        let mut items = Vec::new(self.alloc);
        for statement in statements {
            items.push(self.statement(statement)?)?;
        }
        Ok(CheckedStatements { items })
    }

    fn moves<'f, 'a>(
        &mut self,
        moves: &'f [Move<'a>],
    ) -> Result<Vec<CheckedMove<'f, 'i, 'a>>, CheckError<'a>>
        ensures { Gives (λ items. (items.items, self.new)) result (holds.all_checked (holds.made_move places.Interleave) self.old moves.now) }
    {
        let mut items = Vec::new(self.alloc);
        for written in moves {
            items.push(self.made_move(written, Where::Interleave)?)?;
        }
        Ok(items)
    }

    // An interleave. What it binds is seen after it.
    fn interleave<'f, 'a>(
        &mut self,
        interleave: &'f Interleave<'a>,
    ) -> Result<CheckedInterleave<'f, 'i, 'a>, CheckError<'a>>
        ensures { Gives (λ checked. (checked, self.new)) result (holds.interleave self.old interleave.now) }
    {
        let items = self.moves(&interleave.items)?;
        self.scope.settle();
        let place = interleave.place;
        Ok(CheckedInterleave { items, place })
    }

    fn step<'f, 'a>(
        &mut self,
        step: &'f Step<'a>,
    ) -> Result<CheckedStep<'f, 'i, 'a>, CheckError<'a>>
        ensures { Gives (λ checked. (checked, self.new)) result (holds.step self.old step.now) }
    {
        match step {
            Step::Statement(statement) => Ok(CheckedStep::Statement(self.statement(statement)?)),
            Step::Interleave(interleave) => Ok(CheckedStep::Interleave(self.interleave(
                interleave,
            )?)),
        }
    }

    fn steps<'f, 'a>(
        &mut self,
        steps: &'f [Step<'a>],
    ) -> Result<CheckedSteps<'f, 'i, 'a>, CheckError<'a>>
        ensures { Gives (λ checked. (checked, self.new)) result (holds.all_checked holds.step self.old steps.now) }
    {
        let mut items = Vec::new(self.alloc);
        for step in steps {
            items.push(self.step(step)?)?;
        }
        Ok(CheckedSteps { items })
    }

    // Binds the names that are there from the start, in the order of their slots.
    fn bind_first(&mut self) -> Result<(), NoMemory>
        ensures { OnOk result (self.new ≡ holds.bind_first self.old) }
    {
        self.scope.bind(self.alloc, b"anonymous", Kind::User)?;
        let management = Kind::Canister(InterfaceId::Management);
        self.scope.bind(self.alloc, b"ic", management)?;
        self.scope.settle();
        Ok(())
    }
}

/// What the tests of a file are checked with: the files, the names of the preamble and their slots, the
/// last time of the preamble, and the names of the tests so far. Contracts see these.
#[derive(Drop)]
struct Suite<'o, 'i> {
    alloc: Global,
    sources: &'i Sources,
    names: &'o ByName<Bound>,
    slots: usize,
    time: u128,
    known: ByName<()>,
}

impl<'o, 'i> Model for Suite<'o, 'i> {
    ghost use Rattle.ct_check.specs.Holds as holds;

    ghost Value = { holds.Suite };

    ghost view = { λ s. record { sources = s.sources.now; names = s.names.now; slots = s.slots; time = s.time; known = s.known } };
}

impl<'o, 'i> Suite<'o, 'i> {
    fn checker(&self) -> Checker<'o, 'i>
        ensures { result ≡ holds.at_test self.now }
    {
        Checker {
            alloc: self.alloc,
            sources: self.sources,
            scope: Scope::within(self.alloc, self.names, self.slots),
            time: self.time,
        }
    }

    // The name of a test, which no earlier test has.
    fn name<'a>(
        &mut self,
        checker: &Checker<'o, 'i>,
        written: &Quoted<'a>,
    ) -> Result<Text, CheckError<'a>>
        ensures { Gives (λ name. (name, self.new)) result (holds.named_test self.old written.now) }
    {
        let name = checker.text(written)?;
        let bytes = name.items.as_bytes();
        if !is_test_name(bytes) {
            return Err(fault(written.place, CheckCause::BadTestName));
        }
        match self.known.get(bytes) {
            Some(()) => Err(fault(written.place, CheckCause::TwoTests)),
            None => {
                self.known.put(self.alloc, bytes, ())?;
                Ok(name)
            }
        }
    }

    fn test<'f, 'a>(
        &mut self,
        test: &'f Test<'a>,
    ) -> Result<CheckedTest<'f, 'i, 'a>, CheckError<'a>>
        ensures { Gives (λ checked. (checked, self.new)) result (holds.test self.old test.now) }
    {
        let mut checker = self.checker();
        let name = self.name(&checker, &test.name)?;
        let steps = checker.steps(&test.steps.items)?;
        Ok(CheckedTest { name, steps })
    }

    fn tests<'f, 'a>(
        &mut self,
        tests: &'f [Test<'a>],
    ) -> Result<CheckedTests<'f, 'i, 'a>, CheckError<'a>>
        ensures { Gives (λ checked. (checked, self.new)) result (holds.all_checked holds.test self.old tests.now) }
    {
        let mut items = Vec::new(self.alloc);
        for test in tests {
            items.push(self.test(test)?)?;
        }
        Ok(CheckedTests { items })
    }
}

// What is known where the preamble begins.
fn begun<'o, 'i>(
    alloc: Global,
    sources: &'i Sources,
    outer: &'o ByName<Bound>,
) -> Result<Checker<'o, 'i>, NoMemory>
    requires { outer.now ≡ [] }
    ensures { IfOk result (λ checker. checker ≡ holds.first sources.now) }
{
    let mut checker = Checker {
        alloc,
        sources,
        scope: Scope::within(alloc, outer, 0),
        time: 0,
    };
    checker.bind_first()?;
    Ok(checker)
}

// The preamble, and what is known after it.
fn preamble<'o, 'f, 'i, 'a>(
    alloc: Global,
    sources: &'i Sources,
    outer: &'o ByName<Bound>,
    statements: &'f Statements<'a>,
) -> Result<(CheckedStatements<'f, 'i, 'a>, Checker<'o, 'i>), CheckError<'a>>
    requires { outer.now ≡ [] }
    ensures { Gives (λ found. (found.0, found.1)) result (holds.all_checked holds.statement (holds.first sources.now) statements.now) }
{
    let mut checker = begun(alloc, sources, outer)?;
    let preamble = checker.statements(&statements.items)?;
    Ok((preamble, checker))
}

// The tests, by what is known after the preamble.
#[tactic(auto, using(crate::proofs::Failing::gives_first))]
fn tests_after<'f, 'i, 'a>(
    checker: Checker<'_, 'i>,
    tests: &'f Tests<'a>,
) -> Result<CheckedTests<'f, 'i, 'a>, CheckError<'a>>
    ensures { Gives (λ tests. tests) result (holds.tests_after checker.entry tests.now) }
{
    let alloc = checker.alloc;
    let sources = checker.sources;
    let time = checker.time;
    let slots = checker.scope.slots();
    let names = checker.scope.into_names();
    let mut suite = Suite {
        alloc,
        sources,
        names: &names,
        slots,
        time,
        known: ByName::new(alloc),
    };
    suite.tests(&tests.items)
}

/// What must hold of a test file, with the files that it names: the file with slots in place of names,
/// or where something does not hold first, in the order of its text.
#[tactic(auto, unfolding(crate::specs::Holds::checked_file))]
pub fn check<'f, 'i, 'a>(
    alloc: Global,
    sources: &'i Sources,
    file: &'f File<'a>,
) -> Result<Checked<'f, 'i, 'a>, CheckError<'a>>
    // The file is checked exactly where all holds that must; else a fault is told, or memory ran out.
    ensures { Gives (λ checked. checked) result (holds.checked_file sources.now file.now) }
{
    let outer = ByName::new(alloc);
    let (statements, checker) = preamble(alloc, sources, &outer, &file.preamble)?;
    let tests = tests_after(checker, &file.tests)?;
    Ok(Checked {
        preamble: statements,
        tests,
    })
}
