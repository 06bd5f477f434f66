ghost use Rattle.std.specs.Prelude.{◌≡◌, ◌++◌, map, option_map, Some, None, IfOk, OnOk};
ghost use Rattle.ct_check.specs.declared.checked.CheckedKind.TheVariants as kinds;
ghost use Rattle.ct_check.specs.declared.checked.CheckedOrigin.TheVariants as origins;
ghost use Rattle.ct_run.specs.Called.{after_acts};
ghost use Rattle.ct_run.specs.Statements.{Binds, IsMadeBy, IsThere, name_at, time_set, user_named};
ghost use Rattle.ic_behaviour.specs.declared.charge.Charge.{Charge as ACharge};
ghost use Rattle.ct_run.specs.Runs.{Steps};

use crate::judging::{expected_of, wanted_of};
use crate::names::Names;
use crate::runner::Runner;
use crate::verdict::{Unmet, Wanted};
use ct_asked::principal_at;
use ct_check::{
    CheckedCreation, CheckedKind, CheckedMove, CheckedOrigin, CheckedStatement, CheckedUser,
};
use ct_file::{Span, position_of};
use ct_outcomes::{Came, Named, name_at};
use ct_script::{Script, shown};
use ic_base::NoMemory;
use ic_outside::Gate;
use ic_principal::{Bytes, Principal};
use ic_state::World;
use std::alloc::Global;
use std::thread::Threads;

/// The last time that may be set, in nanoseconds since 1970-01-01.
const LAST_TIME: u128 = 9_223_372_036_854_775_807;

// Users are bound, one after another.
fn bind_users(alloc: Global, names: &mut Names, users: &[CheckedUser<'_>]) -> Result<(), NoMemory>
    ensures { OnOk result (names.new ≡ names.old ++ map user_named users.now) }
{
    for user in users {
        names.bind(alloc, user.name.bytes, user.principal)?;
    }
    Ok(())
}

// The time is set, if it does not go back. No checked file has a time that does, or one after the last.
fn set_time(world: World, time: u128) -> World
    ensures { (charge : ACharge) → result ≡ after_acts charge world (time_set world time) }
{
    let mut world = world;
    if time >= u128::from(world.parts().time) && time <= LAST_TIME {
        world.set_time(time as u64);
    }
    world
}

// The name in a slot.
fn name_in(alloc: Global, names: &[Named], slot: usize) -> Result<Bytes, NoMemory>
    ensures { IfOk result (λ name. name ≡ name_at names.now slot) }
{
    let name = match name_at(names, slot) {
        None => &[],
        Some(name) => name,
    };
    Ok(Bytes {
        items: Vec::from_slice(alloc, name)?,
    })
}

// Whether a script tells of a statement: it does something, or it fails.
fn is_told(names: &Names, kind: &CheckedKind<'_, '_, '_>) -> bool {
    match kind {
        CheckedKind::Users(_) => false,
        CheckedKind::Time(_) => true,
        CheckedKind::Canister { origin, .. } => match origin {
            CheckedOrigin::Made(_) => true,
            CheckedOrigin::Principal { .. } => false,
            CheckedOrigin::Named { slot, .. } => principal_at(&names.items, *slot).is_none(),
        },
        CheckedKind::Move(_) => true,
    }
}

impl<'i, R: Threads + Sync, G: Gate + Sync> Runner<'i, R, G> {
    /// Adds a statement to a script that is wanted.
    pub fn comment(&self, span: Span, script: &mut Script) -> Result<(), NoMemory> {
        if !script.is_wanted() {
            return Ok(());
        }
        let start = span.start.min(self.text.len());
        let line = position_of(self.text, start).line;
        let statement = shown(self.alloc, self.text, span)?;
        script.comment(line, &statement)
    }

    #[tactic(auto, using(crate::proofs::Steps::move_steps))]
    /// An action, and what came of it.
    pub fn moved(
        &self,
        world: World,
        names: &mut Names,
        made: &CheckedMove<'_, 'i, '_>,
        script: &mut Script,
    ) -> Result<(World, Option<Unmet<'i>>), NoMemory>
        ensures { IfOk result (λ next. Steps self.now world names.old (kinds.Move made.now) next.0 names.new (option_map (λ u. u.came) next.1)) }
    {
        let asked = self.asker().asked(&names.items, made)?;
        let (world, came) = self.act(world, asked, script)?;
        let at = self.reply_at(&made.action);
        let unmet = self.judge(names, expected_of(&made.action), at, came)?;
        Ok((world, unmet))
    }

    #[tactic(auto, using(crate::proofs::Steps::none_made, crate::proofs::Steps::one_made))]
    // A canister is made, where its argument is values of its types.
    fn made(
        &self,
        world: World,
        names: &[Named],
        by: usize,
        creation: &CheckedCreation<'_, '_>,
        script: &mut Script,
    ) -> Result<(World, Option<Principal>, Came), NoMemory>
        ensures { IfOk result (λ done. IsMadeBy self.now world names.now by creation.now done.0 done.1 done.2) }
    {
        match self.asker().creation(names, by, creation)? {
            None => Ok((world, None, Came::NotValues)),
            Some(made) => self.create(world, made, creation.cycles, script),
        }
    }

    #[tactic(auto, using(crate::proofs::Steps::bound_after, crate::proofs::Steps::bound_none, crate::proofs::Steps::bound_unmet))]
    // A canister that was made is bound, where what came of it is met.
    fn bound(
        &self,
        names: &mut Names,
        name: &[u8],
        creation: &CheckedCreation<'_, '_>,
        made: Option<Principal>,
        came: Came,
    ) -> Result<Option<Unmet<'i>>, NoMemory>
        ensures { IfOk result (λ unmet. Binds self.now.files names.old name.now creation.now made came names.new (option_map (λ u. u.came) unmet)) }
    {
        let at = self.asker().at(creation.interface, &[]);
        let Some(id) = made else {
            let wanted = wanted_of(&creation.expected);
            return Ok(Some(Unmet { wanted, came, at }));
        };
        match self.judge(names, &creation.expected, at, came)? {
            None => {
                names.bind(self.alloc, name, id)?;
                Ok(None)
            }
            Some(unmet) => Ok(Some(unmet)),
        }
    }

    #[tactic(auto, using(crate::proofs::Steps::creation_steps))]
    // A canister is made and bound.
    fn created(
        &self,
        world: World,
        names: &mut Names,
        by: usize,
        name: &[u8],
        creation: &CheckedCreation<'_, '_>,
        script: &mut Script,
    ) -> Result<(World, Option<Unmet<'i>>), NoMemory>
        ensures { IfOk result (λ next. Steps self.now world names.old (kinds.Canister by name.now (origins.Made creation.now)) next.0 names.new (option_map (λ u. u.came) next.1)) }
    {
        let (world, made, came) = self.made(world, &names.items, by, creation, script)?;
        let unmet = self.bound(names, name, creation, made, came)?;
        Ok((world, unmet))
    }

    // A canister that is there is bound, as what the name in a slot stands for.
    fn there(
        &self,
        names: &mut Names,
        name: &[u8],
        slot: usize,
    ) -> Result<Option<Unmet<'i>>, NoMemory>
        ensures { IfOk result (λ unmet. IsThere names.old name.now slot names.new (option_map (λ u. u.came) unmet)) }
    {
        match principal_at(&names.items, slot) {
            Some(id) => {
                names.bind(self.alloc, name, id)?;
                Ok(None)
            }
            None => Ok(Some(Unmet {
                wanted: Wanted::Canister,
                came: Came::NotPrincipal(name_in(self.alloc, &names.items, slot)?),
                at: None,
            })),
        }
    }

    #[tactic(auto, using(crate::proofs::Steps::there_steps))]
    // What a statement does. Its line of a script is there, if it has one.
    fn step(
        &self,
        world: World,
        names: &mut Names,
        kind: &CheckedKind<'_, 'i, '_>,
        script: &mut Script,
    ) -> Result<(World, Option<Unmet<'i>>), NoMemory>
        ensures { IfOk result (λ next. Steps self.now world names.old kind.now next.0 names.new (option_map (λ u. u.came) next.1)) }
    {
        match kind {
            CheckedKind::Users(users) => {
                bind_users(self.alloc, names, &users.items)?;
                Ok((world, None))
            }
            CheckedKind::Time(time) => {
                script.time(*time)?;
                Ok((set_time(world, *time), None))
            }
            CheckedKind::Canister { by, name, origin } => match origin {
                CheckedOrigin::Made(creation) => {
                    self.created(world, names, *by, name.bytes, creation, script)
                }
                CheckedOrigin::Principal { id, .. } => {
                    names.bind(self.alloc, name.bytes, *id)?;
                    Ok((world, None))
                }
                CheckedOrigin::Named { slot, .. } => {
                    let unmet = self.there(names, name.bytes, *slot)?;
                    Ok((world, unmet))
                }
            },
            CheckedKind::Move(made) => self.moved(world, names, made, script),
        }
    }

    /// A statement: the state after it, and what came instead if it is not met. What it binds is bound after it.
    pub fn statement(
        &self,
        world: World,
        names: &mut Names,
        statement: &CheckedStatement<'_, 'i, '_>,
        script: &mut Script,
    ) -> Result<(World, Option<Unmet<'i>>), NoMemory>
        ensures { IfOk result (λ next. Steps self.now world names.old statement.now next.0 names.new (option_map (λ u. u.came) next.1)) }
    {
        if is_told(names, &statement.kind) {
            self.comment(statement.span, script)?;
        }
        self.step(world, names, &statement.kind, script)
    }
}
