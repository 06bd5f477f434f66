ghost use Rattle.std.specs.Prelude.{◌≡◌};
ghost use Rattle.cd_tokens.specs.Placed.{placed_views};
ghost use Rattle.ct_file.specs.Gives.{Gives};
ghost use Rattle.ct_file.specs.Read.{message_at, interface_at, maybe_interface_at, change_at, action_at, principal_at, maybe_principal_at, user_at, next_user_at, users_at, cycles_at, maybe_cycles_at, creation_at, principal_origin_at, named_origin_at, origin_at, map_at, canister_by, canister_at, maybe_by_at, move_by_at, canister_or_move_at, kind_at, statement_at, move_line_at};

use crate::cause::{ParseError, Wanted};
use crate::keyword::Keyword;
use crate::leaf::{Name, Number, Quoted, Span};
use crate::reader::Reader;
use crate::tree::{
    Action, Change, Creation, Message, Move, Origin, Statement, StatementKind, User, Users,
};

/// The latest time, in nanoseconds since 1970.
const MAX_TIME: u128 = (1 << 63) - 1;

const MAX_CYCLES: u128 = (1 << 127) - 1;

// What is wanted: `after` where a name and `as` came before, and else `missing`.
fn wanted_after(by: &Option<Name<'_>>, after: Wanted, missing: Wanted) -> Wanted {
    match by {
        Some(_) => after,
        None => missing,
    }
}

impl<'t, 'a> Reader<'t, 'a> {
    // A call or a query after its word.
    #[tactic(auto, unfolding(crate::specs::Read::message_at))]
    fn message(&mut self) -> Result<Message<'a>, ParseError>
        ensures { Gives (λ message. (message, placed_views self.new.rest.now)) result (message_at (placed_views self.old.rest.now)) }
    {
        let canister = self.name()?;
        self.expect_mark(b'.')?;
        let method = self.method()?;
        let arguments = self.arguments()?;
        let expected = self.expected()?;
        Ok(Message {
            canister,
            method,
            arguments,
            expected,
        })
    }

    // The text of an interface file, after a comma.
    fn interface(&mut self) -> Result<Quoted<'a>, ParseError>
        ensures { Gives (λ interface. (interface, placed_views self.new.rest.now)) result (interface_at (placed_views self.old.rest.now)) }
    {
        self.expect_mark(b',')?;
        self.text()
    }

    fn maybe_interface(&mut self) -> Result<Option<Quoted<'a>>, ParseError>
        ensures { Gives (λ interface. (interface, placed_views self.new.rest.now)) result (maybe_interface_at (placed_views self.old.rest.now)) }
    {
        if self.starts_mark(b',') {
            Ok(Some(self.interface()?))
        } else {
            Ok(None)
        }
    }

    // An upgrade or a reinstallation after its word.
    #[tactic(auto, unfolding(crate::specs::Read::change_at))]
    fn change(&mut self) -> Result<Change<'a>, ParseError>
        ensures { Gives (λ change. (change, placed_views self.new.rest.now)) result (change_at (placed_views self.old.rest.now)) }
    {
        let canister = self.name()?;
        self.expect_mark(b'=')?;
        let wasm = self.text()?;
        let interface = self.maybe_interface()?;
        let arguments = self.installed()?;
        let expected = self.expected()?;
        Ok(Change {
            canister,
            wasm,
            interface,
            arguments,
            expected,
        })
    }

    // `missing`: what is wanted where no action begins.
    #[tactic(auto, unfolding(crate::specs::Read::action_at))]
    fn action(&mut self, missing: Wanted) -> Result<Action<'a>, ParseError>
        ensures { Gives (λ action. (action, placed_views self.new.rest.now)) result (action_at (placed_views self.old.rest.now)) }
    {
        if self.starts_word(Keyword::Call) {
            self.advance();
            Ok(Action::Call(self.message()?))
        } else if self.starts_word(Keyword::Query) {
            self.advance();
            Ok(Action::Query(self.message()?))
        } else if self.starts_word(Keyword::Upgrade) {
            self.advance();
            Ok(Action::Upgrade(self.change()?))
        } else if self.starts_word(Keyword::Reinstall) {
            self.advance();
            Ok(Action::Reinstall(self.change()?))
        } else {
            Err(ParseError::Expected(missing))
        }
    }

    // The text of a principal, after its word.
    fn principal(&mut self) -> Result<Quoted<'a>, ParseError>
        ensures { Gives (λ text. (text, placed_views self.new.rest.now)) result (principal_at (placed_views self.old.rest.now)) }
    {
        self.expect_word(Keyword::Principal)?;
        self.text()
    }

    fn maybe_principal(&mut self) -> Result<Option<Quoted<'a>>, ParseError>
        ensures { Gives (λ text. (text, placed_views self.new.rest.now)) result (maybe_principal_at (placed_views self.old.rest.now)) }
    {
        if self.starts_mark(b'=') {
            self.advance();
            Ok(Some(self.principal()?))
        } else {
            Ok(None)
        }
    }

    #[tactic(auto, unfolding(crate::specs::Read::user_at))]
    fn user(&mut self) -> Result<User<'a>, ParseError>
        ensures { Gives (λ user. (user, placed_views self.new.rest.now)) result (user_at (placed_views self.old.rest.now)) }
    {
        let name = self.name()?;
        let principal = self.maybe_principal()?;
        Ok(User { name, principal })
    }

    // A user after a comma.
    fn next_user(&mut self) -> Result<User<'a>, ParseError>
        ensures { Gives (λ user. (user, placed_views self.new.rest.now)) result (next_user_at (placed_views self.old.rest.now)) }
    {
        self.expect_mark(b',')?;
        self.user()
    }

    // Users with commas between them.
    #[tactic(auto, unfolding(crate::specs::Read::users_at))]
    fn users(&mut self) -> Result<Users<'a>, ParseError>
        ensures { Gives (λ users. (users, placed_views self.new.rest.now)) result (users_at (placed_views self.old.rest.now)) }
    {
        let mut items = Vec::new(self.alloc);
        items.push(self.user()?)?;
        while self.starts_mark(b',') {
            items.push(self.next_user()?)?;
        }
        Ok(Users { items })
    }

    fn cycles(&mut self) -> Result<Number<'a>, ParseError>
        ensures { Gives (λ cycles. (cycles, placed_views self.new.rest.now)) result (cycles_at (placed_views self.old.rest.now)) }
    {
        self.expect_word(Keyword::With)?;
        self.expect_word(Keyword::Cycles)?;
        self.number(0, MAX_CYCLES)
    }

    fn maybe_cycles(&mut self) -> Result<Option<Number<'a>>, ParseError>
        ensures { Gives (λ cycles. (cycles, placed_views self.new.rest.now)) result (maybe_cycles_at (placed_views self.old.rest.now)) }
    {
        if self.starts_word(Keyword::With) {
            Ok(Some(self.cycles()?))
        } else {
            Ok(None)
        }
    }

    // A canister that is made, after `=`.
    #[tactic(auto, unfolding(crate::specs::Read::creation_at))]
    fn creation(&mut self) -> Result<Creation<'a>, ParseError>
        ensures { Gives (λ creation. (creation, placed_views self.new.rest.now)) result (creation_at (placed_views self.old.rest.now)) }
    {
        let wasm = self.text()?;
        let interface = self.interface()?;
        let arguments = self.installed()?;
        let cycles = self.maybe_cycles()?;
        let expected = self.expected()?;
        Ok(Creation {
            wasm,
            interface,
            arguments,
            cycles,
            expected,
        })
    }

    // A canister that is there under a principal, after `=`.
    fn principal_origin(&mut self) -> Result<Origin<'a>, ParseError>
        ensures { Gives (λ origin. (origin, placed_views self.new.rest.now)) result (principal_origin_at (placed_views self.old.rest.now)) }
    {
        let id = self.principal()?;
        let interface = self.interface()?;
        Ok(Origin::Principal { id, interface })
    }

    // A canister that is there by a name, after `=`.
    fn named_origin(&mut self) -> Result<Origin<'a>, ParseError>
        ensures { Gives (λ origin. (origin, placed_views self.new.rest.now)) result (named_origin_at (placed_views self.old.rest.now)) }
    {
        let id = self.name_for(Wanted::Origin)?;
        let interface = self.interface()?;
        Ok(Origin::Named { id, interface })
    }

    // Where a canister comes from, after `=`.
    #[tactic(auto, unfolding(crate::specs::Read::origin_at))]
    fn origin(&mut self) -> Result<Origin<'a>, ParseError>
        ensures { Gives (λ origin. (origin, placed_views self.new.rest.now)) result (origin_at (placed_views self.old.rest.now)) }
    {
        if self.starts_text() {
            Ok(Origin::Made(self.creation()?))
        } else if self.starts_word(Keyword::Principal) {
            self.principal_origin()
        } else {
            self.named_origin()
        }
    }

    // A canister after its word.
    #[tactic(auto, unfolding(crate::specs::Read::canister_at))]
    fn canister(&mut self, by: Option<Name<'a>>) -> Result<StatementKind<'a>, ParseError>
        ensures { Gives (λ kind. (kind, placed_views self.new.rest.now)) result (map_at (canister_by by.entry) canister_at (placed_views self.old.rest.now)) }
    {
        let name = self.name()?;
        self.expect_mark(b'=')?;
        let origin = self.origin()?;
        Ok(StatementKind::Canister { by, name, origin })
    }

    // The name after `as`, where the word comes first.
    fn maybe_by(&mut self) -> Result<Option<Name<'a>>, ParseError>
        ensures { Gives (λ by. (by, placed_views self.new.rest.now)) result (maybe_by_at (placed_views self.old.rest.now)) }
    {
        if self.starts_word(Keyword::As) {
            self.advance();
            Ok(Some(self.name()?))
        } else {
            Ok(None)
        }
    }

    // An action by someone, that begins at this place.
    fn move_by(
        &mut self,
        start: usize,
        by: Option<Name<'a>>,
        missing: Wanted,
    ) -> Result<Move<'a>, ParseError>
        ensures { Gives (λ written. (written, placed_views self.new.rest.now)) result (move_by_at by.entry (placed_views self.old.rest.now)) }
    {
        let action = self.action(missing)?;
        let end = self.place();
        let span = Span { start, end };
        Ok(Move { by, action, span })
    }

    // A canister or a move, with `as` and a name before it or without.
    #[tactic(auto, unfolding(crate::specs::Read::canister_or_move_at))]
    fn canister_or_move(&mut self, missing: Wanted) -> Result<StatementKind<'a>, ParseError>
        ensures { Gives (λ kind. (kind, placed_views self.new.rest.now)) result (canister_or_move_at (placed_views self.old.rest.now)) }
    {
        let start = self.place();
        let by = self.maybe_by()?;
        if self.starts_word(Keyword::Canister) {
            self.advance();
            return self.canister(by);
        }
        let missing = wanted_after(&by, Wanted::CanisterOrMove, missing);
        Ok(StatementKind::Move(self.move_by(start, by, missing)?))
    }

    #[tactic(auto, unfolding(crate::specs::Read::kind_at))]
    fn kind(&mut self, missing: Wanted) -> Result<StatementKind<'a>, ParseError>
        ensures { Gives (λ kind. (kind, placed_views self.new.rest.now)) result (kind_at (placed_views self.old.rest.now)) }
    {
        if self.starts_word(Keyword::User) {
            self.advance();
            Ok(StatementKind::Users(self.users()?))
        } else if self.starts_word(Keyword::Time) {
            self.advance();
            Ok(StatementKind::Time(self.number(0, MAX_TIME)?))
        } else {
            self.canister_or_move(missing)
        }
    }

    /// A statement and its semicolon. `missing`: what is wanted where none begins.
    #[tactic(auto, unfolding(crate::specs::Read::statement_at))]
    pub(crate) fn statement(&mut self, missing: Wanted) -> Result<Statement<'a>, ParseError>
        ensures { Gives (λ statement. (statement, placed_views self.new.rest.now)) result (statement_at (placed_views self.old.rest.now)) }
    {
        let start = self.place();
        let kind = self.kind(missing)?;
        let end = self.place();
        self.expect_mark(b';')?;
        let span = Span { start, end };
        Ok(Statement { kind, span })
    }

    /// A move and its semicolon. `missing`: what is wanted where none begins.
    #[tactic(auto, unfolding(crate::specs::Read::move_line_at))]
    pub(crate) fn move_line(&mut self, missing: Wanted) -> Result<Move<'a>, ParseError>
        ensures { Gives (λ written. (written, placed_views self.new.rest.now)) result (move_line_at (placed_views self.old.rest.now)) }
    {
        let start = self.place();
        let by = self.maybe_by()?;
        let missing = wanted_after(&by, Wanted::Move, missing);
        let next_move = self.move_by(start, by, missing)?;
        self.expect_mark(b';')?;
        Ok(next_move)
    }
}
