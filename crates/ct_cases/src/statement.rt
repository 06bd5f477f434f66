ghost use Rattle.std.specs.Prelude.{IfOk, OnOk};
ghost use Rattle.ct_cases.specs.Cases.{Grows, IsHeld, AreHeld};
ghost use Rattle.ct_cases.specs.Answers.{GoesIn, GoesOn};

use crate::case::{Case, Tables};
use crate::failing::Failing;
use crate::orders::longer;
use crate::tester::Tester;
use ct_check::CheckedStatement;
use ct_script::Script;
use ic_base::NoMemory;
use ic_outside::Gate;
use std::thread::Threads;

/// Where a case goes.
#[derive(Drop)]
enum Goes<'i> {
    To(Case),
    Fails(Failing<'i>),
}

/// The cases after a statement, or the first in which it is not met.
#[derive(Drop)]
pub enum Going<'i> {
    On(Vec<Case>),
    Fails(Failing<'i>),
}

impl<'i, R: Threads + Sync, G: Gate + Sync> Tester<'i, R, G> {
    // A statement in a case.
    fn statement_in(
        &self,
        tables: &mut Tables,
        case: &Case,
        statement: &CheckedStatement<'_, 'i, '_>,
    ) -> Result<Goes<'i>, NoMemory>
        requires { IsHeld tables.old case.now }
        ensures grows { OnOk result (Grows tables.old tables.new) }
        ensures goes { IfOk result (GoesIn self.now.setting tables.old tables.new case.now statement.now) }
    {
        let world = tables.world(&case.kept)?;
        let mut names = tables.names(case.meaning)?;
        let mut script = Script::unwanted(self.alloc());
        let (world, unmet) = self
            .runner
            .statement(world, &mut names, statement, &mut script)?;
        let order = longer(self.alloc(), &case.order, &[])?;
        match unmet {
            Some(unmet) => Ok(Goes::Fails(Failing {
                span: statement.span,
                unmet,
                names,
                order,
            })),
            None => {
                let case = tables.case(world, names, &case.kept, order)?;
                Ok(Goes::To(case))
            }
        }
    }

    /// A statement in each case.
    pub fn statement(
        &self,
        tables: &mut Tables,
        cases: Vec<Case>,
        statement: &CheckedStatement<'_, 'i, '_>,
    ) -> Result<Going<'i>, NoMemory>
        requires { AreHeld tables.old cases.items }
        ensures grows { OnOk result (Grows tables.old tables.new) }
        ensures goes { IfOk result (GoesOn self.now.setting tables.old tables.new cases.items statement.now) }
    {
        let mut after = Vec::with_capacity(self.alloc(), cases.len())?;
        for case in cases {
            match self.statement_in(tables, &case, statement)? {
                Goes::To(case) => after.push(case)?,
                Goes::Fails(failing) => return Ok(Going::Fails(failing)),
            }
        }
        Ok(Going::On(after))
    }
}
