ghost use Rattle.std.specs.Prelude.{◌≡◌, [], Some, None};
ghost use Rattle.ct_check.specs.declared.naming.Lets.TheVariants.{Bind};
ghost use Rattle.std.specs.List.{list_any};
ghost use Rattle.ct_check.specs.Answer.{Gives};
ghost use Rattle.ct_check.specs.Rows as rows;
ghost use Rattle.ct_check.specs.Holds as holds;

use crate::arguments::TypesOf;
use crate::cause::{CheckCause, CheckError, fault};
use crate::checked::{
    CheckedAction, CheckedChange, CheckedCreation, CheckedKind, CheckedMessage, CheckedMove,
    CheckedOrigin, CheckedOutcomes, CheckedStatement, CheckedUser, CheckedUsers,
};
use crate::checker::{Checker, user_principal};
use crate::naming::Lets;
use cd_tokens::Piece;
use cd_types::TyRef;
use ct_file::{
    Action, Change, Creation, Expected, Message, Move, Name, Number, Origin, Outcome, Quoted,
    Statement, StatementKind, User,
};
use ct_scope::{InterfaceId, Kind};

fn is_reply(outcome: &Outcome<'_>) -> bool
    ensures { result ≡ holds.is_reply outcome.now }
{
    match outcome {
        Outcome::Replies(_) => true,
        Outcome::Rejects { .. } => false,
        Outcome::Refused => false,
    }
}

fn has_reply(outcomes: &[Outcome<'_>]) -> bool
    ensures { result ≡ list_any holds.is_reply outcomes.now }
{
    outcomes.iter().any(|outcome| is_reply(outcome))
}

// Whether a reply is among the outcomes; none is one.
fn may_reply(expected: &Expected<'_>) -> bool
    ensures { result ≡ holds.may_reply expected.now }
{
    expected.items.is_empty() || has_reply(&expected.items)
}

/// Where a move is made.
#[derive(Clone, Copy, Debug, PartialEq, Eq)]
pub(crate) enum Where {
    /// It is a statement.
    Alone,
    /// It is in an interleave, where a query may bind no name.
    Interleave,
}

impl<'o, 'i> Checker<'o, 'i> {
    fn user<'a>(&mut self, user: &User<'a>) -> Result<CheckedUser<'a>, CheckError<'a>>
        ensures { Gives (λ checked. (checked, self.new)) result (holds.user self.old user.now) }
    {
        self.may_bind(&user.name)?;
        let principal = match &user.principal {
            None => user_principal(self.alloc, user.name.bytes)?,
            Some(written) => self.principal(written)?,
        };
        let bytes = user.name.bytes;
        self.scope.bind(self.alloc, bytes, Kind::User)?;
        Ok(CheckedUser {
            name: Piece { bytes },
            principal,
        })
    }

    fn users<'a>(&mut self, users: &[User<'a>]) -> Result<CheckedUsers<'a>, CheckError<'a>>
        ensures { Gives (λ checked. (checked, self.new)) result (holds.all_checked holds.user self.old users.now) }
    {
        let mut items = Vec::new(self.alloc);
        for user in users {
            items.push(self.user(user)?)?;
        }
        Ok(CheckedUsers { items })
    }

    fn set_time<'a>(&mut self, number: &Number<'a>) -> Result<u128, CheckError<'a>>
        ensures { Gives (λ value. (value, self.new)) result (holds.time self.old number.now) }
    {
        if number.value < self.time {
            return Err(fault(number.place, CheckCause::TimeGoesBack));
        }
        self.time = number.value;
        Ok(number.value)
    }

    // The types that a service is installed with.
    fn init_types(&self, interface: InterfaceId) -> &'i [TyRef]
        ensures { result.now ≡ rows.init_types self.now interface }
    {
        match self.sources.interface(interface) {
            None => &[],
            Some(found) => found.init(),
        }
    }

    // What an installation answers, which has no values.
    fn installed_outcomes<'f, 'a>(
        &mut self,
        interface: InterfaceId,
        expected: &'f Expected<'a>,
    ) -> Result<CheckedOutcomes<'f, 'a>, CheckError<'a>>
        ensures { Gives (λ checked. (checked, self.new)) result (holds.expected_checked Bind (holds.types_of interface []) self.old expected.now) }
    {
        let at = TypesOf {
            interface,
            types: &[],
        };
        self.outcomes(expected, &at, Lets::Bind)
    }

    #[tactic(auto, unfolding(crate::specs::Holds::creation))]
    fn creation<'f, 'a>(
        &mut self,
        creation: &'f Creation<'a>,
    ) -> Result<CheckedCreation<'f, 'a>, CheckError<'a>>
        ensures { Gives (λ checked. (checked, self.new)) result (holds.creation self.old creation.now) }
    {
        let wasm = self.wasm(&creation.wasm)?;
        let interface = self.interface(&creation.interface)?;
        let at = TypesOf {
            interface,
            types: self.init_types(interface),
        };
        let arguments = self.installed(&creation.arguments, &at)?;
        let cycles = creation.cycles.as_ref().map(|number| number.value);
        let expected = self.installed_outcomes(interface, &creation.expected)?;
        Ok(CheckedCreation {
            wasm,
            interface,
            arguments,
            cycles,
            expected,
        })
    }

    // Where a canister comes from, and its interface.
    fn origin<'f, 'a>(
        &mut self,
        origin: &'f Origin<'a>,
    ) -> Result<(CheckedOrigin<'f, 'a>, InterfaceId), CheckError<'a>>
        ensures { Gives (λ checked. (checked, self.new)) result (holds.origin self.old origin.now) }
    {
        match origin {
            Origin::Made(creation) => {
                let creation = self.creation(creation)?;
                let interface = creation.interface;
                Ok((CheckedOrigin::Made(creation), interface))
            }
            Origin::Principal { id, interface } => {
                let id = self.principal(id)?;
                let interface = self.interface(interface)?;
                Ok((CheckedOrigin::Principal { id, interface }, interface))
            }
            Origin::Named { id, interface } => {
                let slot = self.used(id)?;
                let interface = self.interface(interface)?;
                Ok((CheckedOrigin::Named { slot, interface }, interface))
            }
        }
    }

    fn new_canister<'f, 'a>(
        &mut self,
        name: &Name<'a>,
        origin: &'f Origin<'a>,
    ) -> Result<CheckedOrigin<'f, 'a>, CheckError<'a>>
        ensures { Gives (λ checked. (checked, self.new)) result (holds.new_canister self.old name.now origin.now) }
    {
        self.may_bind(name)?;
        let (origin, interface) = self.origin(origin)?;
        self.scope
            .bind(self.alloc, name.bytes, Kind::Canister(interface))?;
        Ok(origin)
    }

    #[tactic(auto, unfolding(crate::specs::Holds::message))]
    fn message<'f, 'a>(
        &mut self,
        message: &'f Message<'a>,
        lets: Lets,
    ) -> Result<CheckedMessage<'f, 'i, 'a>, CheckError<'a>>
        ensures { Gives (λ checked. (checked, self.new)) result (holds.message lets self.old message.now) }
    {
        let (canister, interface) = self.canister(&message.canister)?;
        let (name, method) = self.method(interface, &message.method)?;
        let at = TypesOf {
            interface,
            types: method.args,
        };
        let arguments = self.filled(&message.arguments, &at, Lets::Unknown)?;
        let at = TypesOf {
            interface,
            types: method.results,
        };
        let expected = self.outcomes(&message.expected, &at, lets)?;
        Ok(CheckedMessage {
            canister,
            interface,
            name,
            method,
            arguments,
            expected,
        })
    }

    // The interface of a file, or the one in use.
    fn new_interface<'a>(
        &self,
        before: InterfaceId,
        written: &Option<Quoted<'a>>,
    ) -> Result<InterfaceId, CheckError<'a>>
        ensures { Gives (λ id. id) result (holds.new_interface self.now before written.now) }
    {
        match written {
            None => Ok(before),
            Some(written) => self.interface(written),
        }
    }

    #[tactic(auto, unfolding(crate::specs::Holds::change))]
    fn change<'f, 'a>(
        &mut self,
        change: &'f Change<'a>,
    ) -> Result<CheckedChange<'f, 'a>, CheckError<'a>>
        ensures { Gives (λ checked. (checked, self.new)) result (holds.change self.old change.now) }
    {
        let (canister, before) = self.canister(&change.canister)?;
        let wasm = self.wasm(&change.wasm)?;
        let interface = self.new_interface(before, &change.interface)?;
        let at = TypesOf {
            interface,
            types: self.init_types(interface),
        };
        let arguments = self.installed(&change.arguments, &at)?;
        let expected = self.installed_outcomes(interface, &change.expected)?;
        if may_reply(&change.expected) {
            let name = change.canister.bytes;
            self.scope
                .put_interface(self.alloc, name, canister, interface)?;
        }
        Ok(CheckedChange {
            canister,
            wasm,
            before,
            interface,
            arguments,
            expected,
        })
    }

    fn action<'f, 'a>(
        &mut self,
        action: &'f Action<'a>,
        place: Where,
    ) -> Result<CheckedAction<'f, 'i, 'a>, CheckError<'a>>
        ensures { Gives (λ checked. (checked, self.new)) result (holds.action place self.old action.now) }
    {
        match action {
            Action::Call(message) => Ok(CheckedAction::Call(self.message(message, Lets::Bind)?)),
            Action::Query(message) => {
                let lets = match place {
                    Where::Alone => Lets::Bind,
                    Where::Interleave => Lets::Refused,
                };
                Ok(CheckedAction::Query(self.message(message, lets)?))
            }
            Action::Upgrade(change) => Ok(CheckedAction::Upgrade(self.change(change)?)),
            Action::Reinstall(change) => Ok(CheckedAction::Reinstall(self.change(change)?)),
        }
    }

    /// A move. What it binds is not seen yet.
    pub(crate) fn made_move<'f, 'a>(
        &mut self,
        written: &'f Move<'a>,
        place: Where,
    ) -> Result<CheckedMove<'f, 'i, 'a>, CheckError<'a>>
        ensures { Gives (λ checked. (checked, self.new)) result (holds.made_move place self.old written.now) }
    {
        let by = self.by(&written.by)?;
        let action = self.action(&written.action, place)?;
        let span = written.span;
        Ok(CheckedMove { by, action, span })
    }

    fn kind<'f, 'a>(
        &mut self,
        kind: &'f StatementKind<'a>,
    ) -> Result<CheckedKind<'f, 'i, 'a>, CheckError<'a>>
        ensures { Gives (λ checked. (checked, self.new)) result (holds.kind self.old kind.now) }
    {
        match kind {
            StatementKind::Users(users) => Ok(CheckedKind::Users(self.users(&users.items)?)),
            StatementKind::Time(number) => Ok(CheckedKind::Time(self.set_time(number)?)),
            StatementKind::Canister { by, name, origin } => {
                let by = self.by(by)?;
                let origin = self.new_canister(name, origin)?;
                let name = Piece { bytes: name.bytes };
                Ok(CheckedKind::Canister { by, name, origin })
            }
            StatementKind::Move(written) => Ok(CheckedKind::Move(self.made_move(
                written,
                Where::Alone,
            )?)),
        }
    }

    /// A statement. What it binds is seen after it.
    pub(crate) fn statement<'f, 'a>(
        &mut self,
        statement: &'f Statement<'a>,
    ) -> Result<CheckedStatement<'f, 'i, 'a>, CheckError<'a>>
        ensures { Gives (λ checked. (checked, self.new)) result (holds.statement self.old statement.now) }
    {
        let kind = self.kind(&statement.kind)?;
        self.scope.settle();
        let span = statement.span;
        Ok(CheckedStatement { kind, span })
    }
}
