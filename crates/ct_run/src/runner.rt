ghost use Rattle.std.specs.Prelude.{◌≡◌, ◌++◌, None, Some, option_map, IfOk};
ghost use Rattle.ic_behaviour.specs.Submitted.{empty};
ghost use Rattle.ct_run.specs.declared.verdict.Failure.{Failure as AFailure};
ghost use Rattle.ct_run.specs.Runs.{Passes, Fails, Walks, without_interleaves};

use crate::names::Names;
use crate::verdict::Failure;
use ct_asked::Asker;
use ct_check::{CheckedStatement, CheckedStatements, CheckedStep, CheckedTest};
use ct_script::Script;
use ct_sources::Sources;
use ic_base::NoMemory;
use ic_outside::Gate;
use ic_state::{Charge, World};
use std::alloc::Global;
use std::marker::Model;
use std::thread::Threads;

/// What the tests of a file are run with: what rounds run on, the limit and the price of instructions, the files that
/// the test file names, and its text. Contracts see the files, the limit and the price.
#[derive(Drop)]
pub struct Runner<'i, R, G> {
    pub alloc: Global,
    pub rt: &'i R,
    pub gate: &'i G,
    pub charge: Charge,
    pub sources: &'i Sources,
    pub text: &'i [u8],
}

impl<'i, R, G> Model for Runner<'i, R, G> {
    ghost use Rattle.ct_run.specs.Statements.{Setting};

    ghost Value = { Setting };

    ghost view = { λ r. record { files = r.sources.now; charge = r.charge } };
}

impl<'i, R, G> Runner<'i, R, G> {
    /// What tests ask with.
    pub fn asker(&self) -> Asker<'i>
        ensures { result ≡ self.now.files }
    {
        Asker {
            alloc: self.alloc,
            sources: self.sources,
        }
    }
}

impl<'i, R: Threads + Sync, G: Gate + Sync> Runner<'i, R, G> {
    /// Statements, one after another, up to the first that is not met.
    pub fn statements(
        &self,
        world: World,
        names: &mut Names,
        statements: &[CheckedStatement<'_, 'i, '_>],
        script: &mut Script,
    ) -> Result<(World, Option<Failure<'i>>), NoMemory>
        ensures { IfOk result (λ walked. Walks self.now world names.old statements.now walked.0 names.new (option_map (λ f. (f.place, f.unmet.came)) walked.1)) }
    {
        let mut world = world;
        for (place, statement) in statements.iter().enumerate() {
            let (next, unmet) = self.statement(world, names, statement, script)?;
            match unmet {
                None => world = next,
                Some(unmet) => {
                    let span = statement.span;
                    return Ok((next, Some(Failure { place, span, unmet })));
                }
            }
        }
        Ok((world, None))
    }

    /// The parts of a test that are no interleaves, up to the first statement that is not met.
    pub fn steps(
        &self,
        world: World,
        names: &mut Names,
        steps: &[CheckedStep<'_, 'i, '_>],
        script: &mut Script,
    ) -> Result<(World, Option<Failure<'i>>), NoMemory>
        ensures { IfOk result (λ walked. Walks self.now world names.old (without_interleaves steps.now) walked.0 names.new (option_map (λ f. (f.place, f.unmet.came)) walked.1)) }
    {
        let mut world = world;
        let mut place = 0;
        for step in steps {
            if let CheckedStep::Statement(statement) = step {
                let (next, unmet) = self.statement(world, names, statement, script)?;
                match unmet {
                    None => world = next,
                    Some(unmet) => {
                        let span = statement.span;
                        return Ok((next, Some(Failure { place, span, unmet })));
                    }
                }
                place += 1;
            }
        }
        Ok((world, None))
    }

    // The statements of the preamble and of a test, one after another.
    fn walk(
        &self,
        preamble: &CheckedStatements<'_, 'i, '_>,
        test: &CheckedTest<'_, 'i, '_>,
        names: &mut Names,
        script: &mut Script,
    ) -> Result<(World, Option<Failure<'i>>), NoMemory>
        ensures { IfOk result (λ walked. Walks self.now empty names.old (preamble.now ++ without_interleaves test.now.steps) walked.0 names.new (option_map (λ f. (f.place, f.unmet.came)) walked.1)) }
    {
        let world = World::new(self.alloc);
        let (world, failure) = self.statements(world, names, &preamble.items, script)?;
        if let Some(failure) = failure {
            return Ok((world, Some(failure)));
        }
        let (world, failure) = self.steps(world, names, &test.steps.items, script)?;
        match failure {
            None => Ok((world, None)),
            Some(mut failure) => {
                failure.place += preamble.items.len();
                Ok((world, Some(failure)))
            }
        }
    }

    /// Runs a test without its interleaves: the statements of the preamble, and then its own, from the empty state, with the
    /// names that are there from the start. It answers the first statement that is not met, if there is one; `names`
    /// then has what the statements before it bound.
    pub fn test(
        &self,
        preamble: &CheckedStatements<'_, 'i, '_>,
        test: &CheckedTest<'_, 'i, '_>,
        names: &mut Names,
        script: &mut Script,
    ) -> Result<Option<Failure<'i>>, NoMemory>
        // It passes only where each statement is met,
        ensures passed { IfOk result (λ failure. failure ≡ None → Passes self.now (preamble.now ++ without_interleaves test.now.steps)) }
        // and fails only at the first that is not, with what came instead.
        ensures failed { IfOk result (λ found. (failure : AFailure) → found ≡ Some failure → Fails self.now (preamble.now ++ without_interleaves test.now.steps) failure.place failure.unmet.came names.new) }
    {
        *names = Names::start(self.alloc)?;
        let (_world, failure) = self.walk(preamble, test, names, script)?;
        Ok(failure)
    }
}
