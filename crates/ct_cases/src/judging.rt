ghost use Rattle.std.specs.Prelude.{◌≡◌, ◌<◌, ◌≤◌, ◌++◌, [], length, slice_get, take, drop, option_map, Some, true, false, IfOk, OnOk};
ghost use Rattle.std.specs.Bool.{OnTrue, OnFalse};
ghost use Rattle.std.specs.List.{list_any};
ghost use Rattle.ct_cases.specs.Interleaves.{IsEnd, came_under, is_query};
ghost use Rattle.ic_keep.specs.Kept.{state_at};
ghost use Rattle.ic_keep.specs.IsKept.{IsKept};
ghost use Rattle.ct_cases.specs.Meanings.{meaning_at};
ghost use Rattle.ct_cases.specs.Cases.{Grows, IsMetBehind, AreMetBehind, stage, all_stages};
ghost use Rattle.ct_cases.specs.Answers.{IsQueryJudged, IsCallJudged, IsMoveJudged, AreMovesJudged, IsStageJudged, IsLeft, IsFound, AddsFound, AreFound};

use crate::case::{Case, Tables};
use crate::failing::Failing;
use crate::orders::order_of;
use crate::submitting::is_query;
use crate::tester::Tester;
use ct_check::CheckedMove;
use ct_outcomes::{Came, Named};
use ct_run::{Names, Unmet, came_now, expected_of};
use ct_script::Script;
use ct_search::Case as Met;
use ct_worlds::NamedWorld;
use ic_base::NoMemory;
use ic_outside::Gate;
use ic_state::World;
use std::alloc::Global;
use std::thread::Threads;

/// A move of an interleave that is not met in a case: its place there, and what is told of it.
#[derive(Drop)]
pub struct Refuted<'i> {
    pub place: usize,
    pub unmet: Unmet<'i>,
}

/// What a case that is met tells.
#[derive(Drop)]
enum Found<'i> {
    /// Nothing: there are messages left, and all that is asked is met.
    Passed,
    /// It is one of the cases after the interleave.
    End(Case),
    /// The move at this place is not met.
    Unmet { place: usize, failing: Failing<'i> },
}

/// The cases after an interleave, up to the first that fails.
#[derive(Drop)]
pub(crate) struct Judged<'i> {
    pub(crate) ends: Vec<Case>,
    pub(crate) failing: Option<Failing<'i>>,
}

fn has_query(moves: &[CheckedMove<'_, '_, '_>]) -> bool
    ensures { result ≡ list_any (λ moving. is_query moving.action) moves.now }
{
    moves.iter().any(|made| is_query(&made.action))
}

// What came of a call, by the number under which it was accepted.
fn came_under(world: &World, number: Option<u32>) -> Result<Came, NoMemory>
    ensures { IfOk result (λ came. came ≡ came_under world.now number) }
{
    match number {
        Some(number) => came_now(world, number),
        None => Ok(Came::Refused),
    }
}

fn count_of(names: &Names) -> usize
    ensures { result ≡ length names.now }
{
    names.items.len()
}

// The first names are left, of these the number.
fn cut_names(names: &mut Names, count: usize)
    ensures { names.new ≡ take count names.old }
{
    names.items.truncate(count);
}

fn add_names(names: &mut Names, more: Vec<Named>) -> Result<(), NoMemory>
    ensures { OnOk result (names.new ≡ names.old ++ more.items) }
{
    let mut more = more;
    names.items.append(&mut more)?;
    Ok(())
}

// How the move at a place was accepted.
fn accepted_at(accepted: &[Option<u32>], place: usize) -> Option<u32>
    requires { place < length accepted.now }
    ensures { slice_get accepted.now place ≡ Some result }
{
    accepted[place]
}

// The names after this many, which go to others.
fn move_names(names: &mut Names, count: usize, others: &mut Vec<Named>) -> Result<(), NoMemory>
    ensures names { OnOk result (names.new ≡ take count names.old) }
    ensures others { OnOk result (others.new.items ≡ others.old.items ++ drop count names.old) }
{
    if names.items.len() > count {
        let mut own = names.items.split_off(count)?;
        others.append(&mut own)?;
    }
    Ok(())
}

// What a case tells goes to the ends, or takes the place of what failed before.
fn add_found<'i>(
    found: Found<'i>,
    ends: &mut Vec<Case>,
    failing: &mut Option<Failing<'i>>,
    judged: &mut usize,
) -> Result<(), NoMemory>
    ensures { OnOk result (AddsFound found.entry ends.old.items ends.new.items failing.old failing.new judged.old judged.new) }
{
    match found {
        Found::Passed => Ok(()),
        Found::End(case) => {
            ends.push(case)?;
            Ok(())
        }
        Found::Unmet {
            place,
            failing: first,
        } => {
            *judged = place;
            *failing = Some(first);
            Ok(())
        }
    }
}

// Whether nothing is judged in a case: there are messages left, and no queries.
fn is_silent(case: &Met<NamedWorld>, moves: &[CheckedMove<'_, '_, '_>]) -> bool
    ensures { OnTrue result ((case.now.kept.kept.messages ≡ [] → ⊥) × (list_any (λ moving. is_query moving.action) moves.now ≡ false)) }
{
    case.kept.kept.has_messages() && !has_query(moves)
}

// What a case in which all is met comes to: it is one of those after the interleave, where no message is left.
fn left_of<'i>(
    alloc: Global,
    tables: &mut Tables,
    cases: &[Case],
    case: Met<NamedWorld>,
    names: Names,
) -> Result<Found<'i>, NoMemory>
    requires { IsKept tables.old.keeper case.kept.kept }
    ensures grows { OnOk result (Grows tables.old tables.new) }
    ensures left { IfOk result (IsLeft tables.old tables.new cases.now case names) }
{
    if case.kept.kept.has_messages() {
        return Ok(Found::Passed);
    }
    let order = order_of(alloc, cases, &case)?;
    let meaning = tables.number(names)?;
    Ok(Found::End(Case {
        meaning,
        kept: case.kept.kept,
        order,
    }))
}

impl<'i, R: Threads + Sync, G: Gate + Sync> Tester<'i, R, G> {
    // A query, which is asked in each state. What it would bind is bound nowhere.
    fn judge_query(
        &self,
        world: World,
        names: &mut Names,
        made: &CheckedMove<'_, 'i, '_>,
    ) -> Result<(World, Option<Unmet<'i>>), NoMemory>
        requires { is_query made.now.action ≡ true }
        ensures names { OnOk result (names.new ≡ names.old) }
        ensures judged { IfOk result (λ done. IsQueryJudged self.now.setting names.old world made.now done.0 (option_map (λ u. u.came) done.1)) }
    {
        let count = count_of(names);
        let mut script = Script::unwanted(self.alloc());
        let (world, unmet) = self.runner.moved(world, names, made, &mut script)?;
        cut_names(names, count);
        Ok((world, unmet))
    }

    // A call, which is judged where no message is left. What it binds comes after what others bound.
    fn judge_call(
        &self,
        world: &World,
        names: &mut Names,
        bound: &mut Vec<Named>,
        made: &CheckedMove<'_, 'i, '_>,
        number: Option<u32>,
    ) -> Result<Option<Unmet<'i>>, NoMemory>
        requires { is_query made.now.action ≡ false }
        ensures names { OnOk result (names.new ≡ names.old) }
        ensures judged { IfOk result (λ unmet. IsCallJudged self.now.setting names.old world.now made.now number bound.old.items bound.new.items (option_map (λ u. u.came) unmet)) }
    {
        if has_messages(world) {
            return Ok(None);
        }
        let count = count_of(names);
        let came = came_under(world, number)?;
        let at = self.runner.reply_at(&made.action);
        let unmet = self
            .runner
            .judge(names, expected_of(&made.action), at, came)?;
        move_names(names, count, bound)?;
        Ok(unmet)
    }

    fn judge_move(
        &self,
        world: World,
        names: &mut Names,
        bound: &mut Vec<Named>,
        made: &CheckedMove<'_, 'i, '_>,
        number: Option<u32>,
    ) -> Result<(World, Option<Unmet<'i>>), NoMemory>
        ensures names { OnOk result (names.new ≡ names.old) }
        ensures judged { IfOk result (λ done. IsMoveJudged self.now.setting names.old world made.now number done.0 bound.old.items bound.new.items (option_map (λ u. u.came) done.1)) }
    {
        if is_query(&made.action) {
            return self.judge_query(world, names, made);
        }
        let unmet = self.judge_call(&world, names, bound, made, number)?;
        Ok((world, unmet))
    }

    /// Judges moves of an interleave in a state, in the order of the file, up to one that is not met. Calls bind
    /// names where no message is left.
    pub fn judge_moves(
        &self,
        world: World,
        names: &mut Names,
        moves: &[CheckedMove<'_, 'i, '_>],
        accepted: &[Option<u32>],
    ) -> Result<(World, Option<Refuted<'i>>), NoMemory>
        requires { length moves.now ≤ length accepted.now }
        ensures { IfOk result (λ done. AreMovesJudged self.now.setting names.old world moves.now accepted.now done.0 names.new done.1) }
    {
        let mut world = world;
        let mut bound = Vec::new(self.alloc());
        for (place, made) in moves.iter().enumerate() {
            let number = accepted_at(accepted, place);
            let (same, unmet) = self.judge_move(world, names, &mut bound, made, number)?;
            match unmet {
                None => world = same,
                Some(unmet) => return Ok((same, Some(Refuted { place, unmet }))),
            }
        }
        add_names(names, bound)?;
        Ok((world, None))
    }

    // A move that is not met in a case.
    fn unmet_in(
        &self,
        tables: &Tables,
        cases: &[Case],
        case: &Met<NamedWorld>,
        made: &CheckedMove<'_, 'i, '_>,
        unmet: Unmet<'i>,
    ) -> Result<Failing<'i>, NoMemory>
        requires { case.now.kept.names < length tables.now.meanings }
        ensures came { IfOk result (λ failing. failing.unmet.came ≡ unmet.entry.came) }
        ensures names { IfOk result (λ failing. failing.names ≡ (stage tables.now cases.now case.now).meaning.0) }
        ensures order { IfOk result (λ failing. failing.order.items ≡ (stage tables.now cases.now case.now).order) }
    {
        Ok(Failing {
            span: made.span,
            unmet,
            names: tables.names(case.kept.names)?,
            order: order_of(self.alloc(), cases, case)?,
        })
    }

    // Judges moves in the state of a case that is met. What names stand for then has what the calls bind.
    fn judge_state(
        &self,
        tables: &mut Tables,
        case: &Met<NamedWorld>,
        moves: &[CheckedMove<'_, 'i, '_>],
    ) -> Result<(Names, Option<Refuted<'i>>), NoMemory>
        requires { IsMetBehind tables.old moves.now case.now }
        ensures grows { OnOk result (Grows tables.old tables.new) }
        ensures judged { IfOk result (λ done. IsStageJudged self.now.setting moves.now (state_at tables.old.keeper case.now.kept.kept) (meaning_at tables.old.meanings case.now.kept.names) done.0 done.1) }
    {
        let world = tables.world(&case.kept.kept)?;
        let mut names = tables.names(case.kept.names)?;
        let accepted = tables.meanings.accepted(case.kept.names);
        let (world, refuted) = self.judge_moves(world, &mut names, moves, accepted)?;
        match refuted {
            Some(refuted) => Ok((names, Some(refuted))),
            None => {
                tables.keep_at_hand(world, &case.kept.kept)?;
                Ok((names, None))
            }
        }
    }

    // Judges moves in a case that is met after one of these.
    fn judge_case(
        &self,
        tables: &mut Tables,
        cases: &[Case],
        case: Met<NamedWorld>,
        moves: &[CheckedMove<'_, 'i, '_>],
    ) -> Result<Found<'i>, NoMemory>
        requires { IsMetBehind tables.old moves.now case }
        ensures grows { OnOk result (Grows tables.old tables.new) }
        ensures found { IfOk result (IsFound self.now.setting moves.now tables.new (stage tables.old cases.now case)) }
    {
        if is_silent(&case, moves) {
            return Ok(Found::Passed);
        }
        let (names, refuted) = self.judge_state(tables, &case, moves)?;
        match refuted {
            Some(refuted) => {
                let Refuted { place, unmet } = refuted;
                let failing = self.unmet_in(tables, cases, &case, &moves[place], unmet)?;
                Ok(Found::Unmet { place, failing })
            }
            None => left_of(self.alloc(), tables, cases, case, names),
        }
    }

    /// Judges moves in the cases that are met after these: the first, in the order of the file, that is not met in
    /// one of them, in the first such case.
    pub(crate) fn judge(
        &self,
        tables: &mut Tables,
        cases: &[Case],
        met: Vec<Met<NamedWorld>>,
        moves: &[CheckedMove<'_, 'i, '_>],
    ) -> Result<Judged<'i>, NoMemory>
        requires { AreMetBehind tables.old moves.now met.items }
        ensures grows { OnOk result (Grows tables.old tables.new) }
        ensures found { IfOk result (λ judged. AreFound self.now.setting moves.now tables.new (all_stages tables.old cases.now met.items) judged.ends.items judged.failing) }
    {
        let mut ends = Vec::new(self.alloc());
        let mut failing = None;
        // Only a move before the one that is not met may be told in its place.
        let mut judged = moves.len();
        for case in met {
            let found = self.judge_case(tables, cases, case, &moves[..judged])?;
            add_found(found, &mut ends, &mut failing, &mut judged)?;
        }
        Ok(Judged { ends, failing })
    }
}

// Whether any messages are under way.
fn has_messages(world: &World) -> bool
    ensures yes { OnTrue result (IsEnd world.now → ⊥) }
    ensures no { OnFalse result (IsEnd world.now) }
{
    !world.parts().messages.items.is_empty()
}
