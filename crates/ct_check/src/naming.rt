ghost use Rattle.std.specs.Prelude.{◌≡◌, ◌++◌, IfOk, OnOk, get_or, map};
ghost use Rattle.cd_tokens.specs.Placed.{placed_view, placed_views};
ghost use Rattle.cd_tokens.specs.View.{token_view};
ghost use Rattle.ct_names.specs.declared.role.Role.TheVariants.{Other};
ghost use Rattle.ct_names.specs.Exchange.{name_in, used_name, used_names};
ghost use Rattle.ct_check.specs.Answer.{Gives};
ghost use Rattle.ct_check.specs.Naming.{word_in, slot_list, let_token, name_token, names, meaning_in};

use crate::cause::{CheckCause, CheckError, fault};
use crate::checker::Checker;
use cd_tokens::{Piece, PlacedToken, Token, is_name};
use ct_names::{Meaning, Role, roles_of};
use ct_scope::Kind;
use ic_base::NoMemory;

/// What `let` may do among some tokens.
#[derive(Clone, Copy, Debug, PartialEq, Eq)]
pub(crate) enum Lets {
    /// It binds the name after it.
    Bind,
    /// It may bind no name.
    Refused,
    /// It is no part of arguments, so that no value goes on with it.
    Unknown,
}

// The bytes of a name that is used.
fn name_in<'a>(token: &Token<'a>) -> &'a [u8]
    ensures { result.now ≡ name_in (token_view token.now) }
{
    match token {
        Token::Run(run) => run.bytes,
        Token::Quoted(_) => &[],
        Token::Mark(_) => &[],
        Token::Arrow => &[],
    }
}

// The name that a token is, if it is one.
fn word_in<'a>(token: &Token<'a>) -> Option<Piece<'a>>
    ensures { result ≡ word_in (token_view token.now) }
{
    match token {
        Token::Run(run) => {
            if is_name(run.bytes) {
                Some(Piece { bytes: run.bytes })
            } else {
                None
            }
        }
        Token::Quoted(_) => None,
        Token::Mark(_) => None,
        Token::Arrow => None,
    }
}

impl<'o, 'i> Checker<'o, 'i> {
    // Binds the name of a token after `let`.
    fn let_token<'a>(
        &mut self,
        placed: &PlacedToken<'a>,
        lets: Lets,
    ) -> Result<Option<usize>, CheckError<'a>>
        ensures { Gives (λ slot. (slot, self.new)) result (let_token lets self.old (placed_view placed.now)) }
    {
        match lets {
            Lets::Unknown => return Ok(None),
            Lets::Bind => {}
            Lets::Refused => {}
        }
        let Some(name) = word_in(&placed.token) else {
            return Err(fault(placed.place, CheckCause::ExpectedName));
        };
        if let Some(cause) = self.why_not_bound(name.bytes) {
            return Err(fault(placed.place, cause));
        }
        match lets {
            Lets::Refused => Err(fault(placed.place, CheckCause::NoNameHere)),
            _ => {
                self.scope.bind(self.alloc, name.bytes, Kind::Value)?;
                Ok(None)
            }
        }
    }

    // The slot of the name that a token uses, if it uses one. What it binds is not seen yet.
    fn name_token<'a>(
        &mut self,
        role: Role,
        placed: &PlacedToken<'a>,
        lets: Lets,
    ) -> Result<Option<usize>, CheckError<'a>>
        ensures { Gives (λ slot. (slot, self.new)) result (name_token lets self.old role (placed_view placed.now)) }
    {
        match role {
            Role::Used { .. } => {
                let bytes = name_in(&placed.token);
                match self.scope.seen(bytes) {
                    None => {
                        let cause = CheckCause::UnknownName(Piece { bytes });
                        Err(fault(placed.place, cause))
                    }
                    Some(bound) => Ok(Some(bound.slot)),
                }
            }
            Role::Bound => self.let_token(placed, lets),
            Role::Other => Ok(None),
        }
    }

    /// The slots of the names that tokens use. What they bind is not seen yet.
    #[tactic(auto, unfolding(crate::specs::Naming::names))]
    pub(crate) fn names<'a>(
        &mut self,
        tokens: &[PlacedToken<'a>],
        lets: Lets,
    ) -> Result<Vec<usize>, CheckError<'a>>
        ensures { Gives (λ slots. (slots.items, self.new)) result (names lets self.old (placed_views tokens.now)) }
    {
        let roles = roles_of(self.alloc, tokens)?;
        let mut slots = Vec::new(self.alloc);
        for (index, placed) in tokens.iter().enumerate() {
            let slot = self.name_token(role_at(&roles, index), placed, lets)?;
            push_slot(&mut slots, slot)?;
        }
        Ok(slots)
    }

    // What is read before a run in place of a name: any principal for a user or a canister.
    fn meaning<'a>(&self, name: &'a [u8]) -> Result<Meaning<'a>, NoMemory>
        ensures { IfOk result (λ meaning. meaning ≡ meaning_in self.now name.now) }
    {
        match self.scope.seen(name) {
            None => Meaning::itself(self.alloc, name),
            Some(bound) => match bound.kind {
                Kind::Value => Meaning::itself(self.alloc, name),
                Kind::User => Meaning::of_principal(self.alloc, b"aaaaa-aa"),
                Kind::Canister(_) => Meaning::of_principal(self.alloc, b"aaaaa-aa"),
            },
        }
    }

    // Adds what is read in place of a token that uses a name.
    fn add_meaning<'a>(
        &self,
        role: Role,
        token: &Token<'a>,
        meanings: &mut Vec<Meaning<'a>>,
    ) -> Result<(), NoMemory>
        ensures { OnOk result (meanings.new.items ≡ meanings.old.items ++ map (meaning_in self.now) (used_name role (token_view token.now))) }
    {
        match role {
            Role::Used { .. } => {
                meanings.push(self.meaning(name_in(token))?)?;
                Ok(())
            }
            Role::Bound => Ok(()),
            Role::Other => Ok(()),
        }
    }

    /// What is read before a run in place of the names that tokens use, in order.
    pub(crate) fn meanings<'a>(
        &self,
        tokens: &[PlacedToken<'a>],
    ) -> Result<Vec<Meaning<'a>>, NoMemory>
        ensures { IfOk result (λ meanings. meanings.items ≡ map (meaning_in self.now) (used_names (placed_views tokens.now))) }
    {
        let roles = roles_of(self.alloc, tokens)?;
        let mut meanings = Vec::new(self.alloc);
        for (index, placed) in tokens.iter().enumerate() {
            self.add_meaning(role_at(&roles, index), &placed.token, &mut meanings)?;
        }
        Ok(meanings)
    }
}

// The role at an index.
fn role_at(roles: &[Role], index: usize) -> Role
    ensures { result ≡ get_or roles.now index Other }
{
    match roles.get(index) {
        Some(role) => *role,
        None => Role::Other,
    }
}

// Adds a slot, if there is one.
fn push_slot(slots: &mut Vec<usize>, slot: Option<usize>) -> Result<(), NoMemory>
    ensures { OnOk result (slots.new.items ≡ slots.old.items ++ slot_list slot) }
{
    if let Some(slot) = slot {
        slots.push(slot)?;
    }
    Ok(())
}
