ghost use Rattle.std.specs.Prelude.{◌≡◌, IfOk, is_none, if◌then◌else◌, Some, None, true};
ghost use Rattle.cd_tokens.specs.ReadLabel.{text_of};
ghost use Rattle.ct_check.specs.Answer.{Gives, IsFault};
ghost use Rattle.ct_check.specs.Rows as rows;

use crate::cause::{CheckCause, CheckError, fault};
use cd_tokens::{Piece, text_of};
use ct_file::{Name, Quoted};
use ct_names::is_candid_word;
use ct_scope::{InterfaceId, Kind, Scope};
use ct_sources::{FileFault, Sources, quoted};
use ic_base::{NoMemory, ReadError};
use ic_principal::{Principal, Text};
use sha2::{Digest, Sha256};
use std::alloc::{AllocError, Global};
use std::marker::Model;

/// What is known where a test file is checked, token after token: the files, the names, and the last
/// time that was set. Contracts see these.
#[derive(Drop)]
pub(crate) struct Checker<'o, 'i> {
    pub(crate) alloc: Global,
    pub(crate) sources: &'i Sources,
    pub(crate) scope: Scope<'o>,
    pub(crate) time: u128,
}

impl<'o, 'i> Model for Checker<'o, 'i> {
    ghost use Rattle.ct_check.specs.State.{State};

    ghost Value = { State };

    ghost view = { λ c. record { sources = c.sources.now; scope = c.scope; time = c.time } };
}

/// The slot of who makes a call that says nothing of it.
pub(crate) const ANONYMOUS_SLOT: usize = 0;

/// The slot of the management canister.
pub(crate) const MANAGEMENT_SLOT: usize = 1;

fn piece<'a>(name: &Name<'a>) -> Piece<'a> {
    Piece { bytes: name.bytes }
}

/// The principal of a user for whom no text is given: 28 bytes of the hash of the name, and 02.
pub(crate) fn user_principal(alloc: Global, name: &[u8]) -> Result<Principal, NoMemory>
    ensures { IfOk result (λ principal. principal ≡ rows.user_principal name.now) }
{
    let hash = Sha256::digest(name);
    let (front, _) = hash.split_at(28);
    let mut bytes = Vec::from_slice(alloc, front)?;
    bytes.push(2)?;
    // There are 29 bytes, as many as a principal may have.
    match Principal::from_bytes(&bytes) {
        Ok(principal) => Ok(principal),
        Err(_) => Err(AllocError),
    }
}

impl<'o, 'i> Checker<'o, 'i> {
    /// The text that a string says.
    pub(crate) fn text<'a>(&self, written: &Quoted<'a>) -> Result<Text, CheckError<'a>>
        ensures { Gives (λ text. text) result (text_of written.now) }
    {
        match text_of(self.alloc, written.written) {
            Ok(text) => Ok(text),
            Err(ReadError::Refused) => Err(fault(written.place, CheckCause::NotOfType)),
            Err(ReadError::NoMemory) => Err(CheckError::NoMemory),
        }
    }

    /// The slot of a name that is used.
    pub(crate) fn used<'a>(&self, name: &Name<'a>) -> Result<usize, CheckError<'a>>
        ensures { Gives (λ slot. slot) result (rows.used self.now name.now) }
    {
        match self.scope.seen(name.bytes) {
            None => Err(fault(name.place, CheckCause::UnknownName(piece(name)))),
            Some(bound) => Ok(bound.slot),
        }
    }

    // The slot of a name after `as`.
    fn sender<'a>(&self, name: &Name<'a>) -> Result<usize, CheckError<'a>>
        ensures { Gives (λ slot. slot) result (rows.sender self.now name.now) }
    {
        match self.scope.seen(name.bytes) {
            None => Err(fault(name.place, CheckCause::UnknownName(piece(name)))),
            Some(bound) => match bound.kind {
                Kind::User => Ok(bound.slot),
                Kind::Canister(_) => {
                    if bound.slot == MANAGEMENT_SLOT {
                        Err(fault(name.place, CheckCause::NoUserOrCanister(piece(name))))
                    } else {
                        Ok(bound.slot)
                    }
                }
                Kind::Value => Err(fault(name.place, CheckCause::NoUserOrCanister(piece(name)))),
            },
        }
    }

    /// The slot of who makes a call.
    pub(crate) fn by<'a>(&self, by: &Option<Name<'a>>) -> Result<usize, CheckError<'a>>
        ensures { Gives (λ slot. slot) result (rows.by self.now by.now) }
    {
        match by {
            None => Ok(ANONYMOUS_SLOT),
            Some(name) => self.sender(name),
        }
    }

    /// The slot of a canister, and its interface in use.
    pub(crate) fn canister<'a>(
        &self,
        name: &Name<'a>,
    ) -> Result<(usize, InterfaceId), CheckError<'a>>
        ensures { Gives (λ found. found) result (rows.canister self.now name.now) }
    {
        match self.scope.seen(name.bytes) {
            None => Err(fault(name.place, CheckCause::UnknownName(piece(name)))),
            Some(bound) => match bound.kind {
                Kind::Canister(interface) => Ok((bound.slot, interface)),
                Kind::User => Err(fault(name.place, CheckCause::NoCanister(piece(name)))),
                Kind::Value => Err(fault(name.place, CheckCause::NoCanister(piece(name)))),
            },
        }
    }

    /// Why a word cannot be bound, if it cannot.
    pub(crate) fn why_not_bound<'a>(&self, word: &'a [u8]) -> Option<CheckCause<'a>>
        ensures { is_none result ≡ rows.may_bind self.now word.now }
    {
        if is_candid_word(word) {
            return Some(CheckCause::CandidWord(Piece { bytes: word }));
        }
        match self.scope.bound(word) {
            None => None,
            Some(_) => Some(CheckCause::BoundTwice(Piece { bytes: word })),
        }
    }

    /// Whether a name may be bound.
    pub(crate) fn may_bind<'a>(&self, name: &Name<'a>) -> Result<(), CheckError<'a>>
        ensures { Gives (λ done. true) result (if rows.may_bind self.now name.now then Some true else None) }
    {
        match self.why_not_bound(name.bytes) {
            None => Ok(()),
            Some(cause) => Err(fault(name.place, cause)),
        }
    }

    /// The principal of a text.
    pub(crate) fn principal<'a>(&self, written: &Quoted<'a>) -> Result<Principal, CheckError<'a>>
        ensures { Gives (λ principal. principal) result (rows.principal_said written.now) }
    {
        let text = self.text(written)?;
        match Principal::from_text(text.items.as_str()) {
            Ok(principal) => Ok(principal),
            Err(_) => Err(fault(written.place, CheckCause::NoPrincipal)),
        }
    }

    // A file is of no use.
    fn file_fault<'a>(
        &self,
        written: &Quoted<'a>,
        name: &Text,
        reason: Option<&Text>,
    ) -> Result<CheckError<'a>, NoMemory>
        ensures { IfOk result IsFault }
    {
        let name = quoted(self.alloc, name.items.as_str())?;
        let file_fault = FileFault::of(reason)?;
        Ok(fault(
            written.place,
            CheckCause::File {
                name,
                fault: file_fault,
            },
        ))
    }

    /// The place of the module of a file.
    #[tactic(auto, using(crate::proofs::Failing::failing))]
    pub(crate) fn wasm<'a>(&self, written: &Quoted<'a>) -> Result<usize, CheckError<'a>>
        ensures { Gives (λ place. place) result (rows.wasm self.now written.now) }
    {
        let name = self.text(written)?;
        match self.sources.wasm_named(&name) {
            Ok(place) => Ok(place),
            Err(reason) => Err(self.file_fault(written, &name, reason)?),
        }
    }

    /// The interface of a file.
    #[tactic(auto, using(crate::proofs::Failing::failing))]
    pub(crate) fn interface<'a>(&self, written: &Quoted<'a>) -> Result<InterfaceId, CheckError<'a>>
        ensures { Gives (λ id. id) result (rows.interface self.now written.now) }
    {
        let name = self.text(written)?;
        match self.sources.interface_named(&name) {
            Ok(interface) => Ok(interface),
            Err(reason) => Err(self.file_fault(written, &name, reason)?),
        }
    }
}
