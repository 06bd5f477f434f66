ghost use Rattle.std.specs.Prelude.{◌≡◌, ◌<◌, length, map, IfOk, OnOk};
ghost use Rattle.std.specs.List.{AllByRecursion};
ghost use Rattle.ct_worlds.specs.Worlds.{IsKeptNamed, named_at};
ghost use Rattle.ct_cases.specs.Meanings.{meaning_at};
ghost use Rattle.ct_cases.specs.Cases.{Grows, IsHeld, AreHeld, AreBegun, all_reached};
ghost use Rattle.ct_cases.specs.Answers.{IsStarted, AreStarted, IsInterleaved};

use crate::case::{Case, Tables};
use crate::failing::Failing;
use crate::judging::Judged;
use crate::meanings::Meaning;
use crate::orders::{Search, longer};
use crate::submitting::{Submitted, Unsent};
use crate::tester::Tester;
use ct_check::{CheckedInterleave, CheckedMove};
use ct_outcomes::laws::one_meeting;
use ct_run::{Unmet, expected_of, wanted_of};
use ct_script::Script;
use ct_worlds::NamedWorld;
use ic_base::NoMemory;
use ic_outside::Gate;
use std::thread::Threads;

/// The states in which the moves of an interleave are submitted, one of each case; or the first move that cannot be,
/// in the first such case.
#[derive(Drop)]
struct Started<'i> {
    starts: Vec<NamedWorld>,
    failing: Option<Failing<'i>>,
}

/// What comes of an interleave: the cases after it, the first that fails, and whether all were met.
#[derive(Drop)]
pub struct Interleaved<'i> {
    pub cases: Vec<Case>,
    pub failing: Option<Failing<'i>>,
    pub all: bool,
}

impl<'i, R: Threads + Sync, G: Gate + Sync> Tester<'i, R, G> {
    fn start_in(
        &self,
        tables: &mut Tables,
        case: &Case,
        moves: &[CheckedMove<'_, 'i, '_>],
    ) -> Result<(NamedWorld, Option<Unsent>), NoMemory>
        requires { IsHeld tables.old case.now }
        ensures grows { OnOk result (Grows tables.old tables.new) }
        ensures held { IfOk result (λ started. IsKeptNamed tables.new.keeper started.0) }
        ensures started { IfOk result (λ started. IsStarted self.now.setting tables.old tables.new case.now moves.now started.0 started.1) }
    {
        let world = tables.world(&case.kept)?;
        let names = tables.names(case.meaning)?;
        let mut script = Script::unwanted(self.alloc());
        let Submitted {
            world,
            accepted,
            unsent,
        } = self.submit(world, &names.items, moves, &mut script)?;
        let kept = tables.keep(world, &case.kept)?;
        let names = tables.meanings.number(Meaning { names, accepted })?;
        Ok((NamedWorld { names, kept }, unsent))
    }

    // A move that cannot be submitted in a case.
    fn unsent_in(
        &self,
        tables: &Tables,
        case: &Case,
        moves: &[CheckedMove<'_, 'i, '_>],
        unsent: Unsent,
    ) -> Result<Failing<'i>, NoMemory>
        requires held { IsHeld tables.now case.now }
        requires place { unsent.place < length moves.now }
        ensures came { IfOk result (λ failing. failing.unmet.came ≡ unsent.came) }
        ensures names { IfOk result (λ failing. failing.names ≡ (meaning_at tables.now.meanings case.now.meaning).0) }
        ensures order { IfOk result (λ failing. failing.order.items ≡ case.now.order.items) }
    {
        let made = &moves[unsent.place];
        let unmet = Unmet {
            wanted: wanted_of(expected_of(&made.action)),
            came: unsent.came,
            at: self.runner.reply_at(&made.action),
        };
        Ok(Failing {
            span: made.span,
            unmet,
            names: tables.names(case.meaning)?,
            order: longer(self.alloc(), &case.order, &[])?,
        })
    }

    fn start(
        &self,
        tables: &mut Tables,
        cases: &[Case],
        moves: &[CheckedMove<'_, 'i, '_>],
    ) -> Result<Started<'i>, NoMemory>
        requires { AreHeld tables.old cases.now }
        ensures grows { OnOk result (Grows tables.old tables.new) }
        ensures started { IfOk result (λ started. AreStarted self.now.setting tables.old tables.new cases.now moves.now started.starts.items started.failing) }
    {
        let mut starts = Vec::with_capacity(self.alloc(), cases.len())?;
        let mut failing = None;
        // Only a move before the one that cannot be submitted may be told in its place.
        let mut submitted = moves.len();
        for case in cases {
            let (start, unsent) = self.start_in(tables, case, &moves[..submitted])?;
            starts.push(start)?;
            if let Some(unsent) = unsent {
                let place = unsent.place;
                failing = Some(self.unsent_in(tables, case, moves, unsent)?);
                submitted = place;
            }
        }
        Ok(Started { starts, failing })
    }

    // The cases after an interleave of which the moves are submitted in these, with a start of each.
    fn explored(
        &self,
        tables: &mut Tables,
        cases: &[Case],
        starts: Vec<NamedWorld>,
        moves: &[CheckedMove<'_, 'i, '_>],
    ) -> Result<Interleaved<'i>, NoMemory>
        requires kept { AllByRecursion (IsKeptNamed tables.old.keeper) starts.items }
        requires begun { AreBegun self.now.setting moves.now tables.old.meanings (all_reached tables.old cases.now) (map (named_at tables.old.keeper) starts.items) }
        ensures grows { OnOk result (Grows tables.old tables.new) }
        ensures interleaved { IfOk result (λ done. IsInterleaved self.now.setting self.now.most tables.old tables.new cases.now moves.now done.cases.items done.failing done.all) }
    {
        one_meeting();
        tables.meanings.are_apart();
        let Search { cases: met, all } = self.search(tables, starts)?;
        let Judged { ends, failing } = self.judge(tables, cases, met, moves)?;
        Ok(Interleaved {
            cases: ends,
            failing,
            all,
        })
    }

    /// The cases after an interleave that begins with these.
    pub fn interleave(
        &self,
        tables: &mut Tables,
        cases: &[Case],
        interleave: &CheckedInterleave<'_, 'i, '_>,
    ) -> Result<Interleaved<'i>, NoMemory>
        requires { AreHeld tables.old cases.now }
        ensures grows { OnOk result (Grows tables.old tables.new) }
        ensures interleaved { IfOk result (λ done. IsInterleaved self.now.setting self.now.most tables.old tables.new cases.now interleave.now done.cases.items done.failing done.all) }
    {
        let moves = interleave.items.as_slice();
        let Started { starts, failing } = self.start(tables, cases, moves)?;
        match failing {
            None => self.explored(tables, cases, starts, moves),
            Some(failing) => Ok(Interleaved {
                cases: Vec::new(self.alloc()),
                failing: Some(failing),
                all: true,
            }),
        }
    }
}
