ghost use Rattle.std.specs.Prelude.{◌≡◌, option_map, IfOk};
ghost use Rattle.ct_outcomes.specs.Answers.{Finds};
ghost use Rattle.ct_outcomes.specs.Types.{types_at};
ghost use Rattle.ct_asked.specs.Asked.{IsAsked, IsCode, IsMessage, init_types_of, types_of};

use crate::asked::{Asked, call_of, query_of};
use crate::names::principal_at;
use crate::requests::Code;
use cd_types::TyRef;
use ct_check::{CheckedAction, CheckedMessage, CheckedMove, Filled};
use ct_outcomes::{At, Came, Named, argument_of};
use ct_scope::InterfaceId;
use ct_sources::Sources;
use ic_base::NoMemory;
use ic_behaviour::Mode;
use ic_script::Ask;
use std::alloc::Global;
use std::marker::Model;

/// What tests ask with: the files that the test file names. Contracts see these.
#[derive(Drop)]
pub struct Asker<'i> {
    pub alloc: Global,
    pub sources: &'i Sources,
}

impl<'i> Model for Asker<'i> {
    ghost use Rattle.ct_sources.specs.Files.{Files};

    ghost Value = { Files };

    ghost view = { λ a. a.sources.now };
}

impl<'i> Asker<'i> {
    /// Types of an interface.
    pub fn at(&self, id: InterfaceId, types: &'i [TyRef]) -> Option<At<'i>>
        ensures { option_map types_at result ≡ types_of self.now id types.now }
    {
        match self.sources.interface(id) {
            None => None,
            Some(interface) => Some(At::new(id, interface, types)),
        }
    }

    // The types that a service is installed with.
    fn at_init(&self, id: InterfaceId) -> Option<At<'i>>
        ensures { option_map types_at result ≡ init_types_of self.now id }
    {
        match self.sources.interface(id) {
            None => None,
            Some(interface) => Some(At::new(id, interface, interface.init())),
        }
    }

    #[tactic(auto, using(crate::proofs::Said::message_types, crate::proofs::Said::message_sender, crate::proofs::Said::message_callee, crate::proofs::Said::message_argument))]
    // What a call or a query says, where its arguments are values of their types.
    fn said(
        &self,
        names: &[Named],
        by: usize,
        message: &CheckedMessage<'_, 'i, '_>,
    ) -> Result<Option<Ask>, NoMemory>
        ensures { Finds (λ ask. ask) (IsMessage self.now names.now by message.now) result }
    {
        let Some(at) = self.at(message.interface, message.method.args) else {
            return Ok(None);
        };
        let Some(sender) = principal_at(names, by) else {
            return Ok(None);
        };
        let Some(callee) = principal_at(names, message.canister) else {
            return Ok(None);
        };
        let Some(arg) = argument_of(self.alloc, at, Some(&message.arguments), names)? else {
            return Ok(None);
        };
        Ok(Some(Ask {
            sender,
            callee,
            method: message.name.copy()?,
            arg,
        }))
    }

    #[tactic(auto, using(crate::proofs::Said::code_types, crate::proofs::Said::code_file, crate::proofs::Said::code_argument))]
    /// The module of a file and its argument, where that is values of its types.
    pub(crate) fn code(
        &self,
        names: &[Named],
        wasm: usize,
        interface: InterfaceId,
        arguments: &Option<Filled<'_, '_>>,
    ) -> Result<Option<Code<'i>>, NoMemory>
        ensures { Finds (λ code. code) (IsCode self.now names.now wasm interface arguments.now) result }
    {
        let Some(at) = self.at_init(interface) else {
            return Ok(None);
        };
        let Some(wasm) = self.sources.bytes(wasm) else {
            return Ok(None);
        };
        match argument_of(self.alloc, at, arguments.as_ref(), names)? {
            None => Ok(None),
            Some(arg) => Ok(Some(Code { wasm, arg })),
        }
    }

    #[tactic(auto, using(crate::proofs::Moves::asks_one, crate::proofs::Moves::asks_call, crate::proofs::Moves::asks_query))]
    /// What a move asks.
    pub fn asked(&self, names: &[Named], made: &CheckedMove<'_, 'i, '_>) -> Result<Asked, NoMemory>
        ensures { IfOk result (IsAsked self.now names.now made.now) }
    {
        let by = made.by;
        match &made.action {
            CheckedAction::Call(message) => match self.said(names, by, message)? {
                None => Ok(Asked::Nothing(Came::NotValues)),
                Some(ask) => Ok(call_of(ask)),
            },
            CheckedAction::Query(message) => match self.said(names, by, message)? {
                None => Ok(Asked::Nothing(Came::NotValues)),
                Some(ask) => Ok(query_of(ask)),
            },
            CheckedAction::Upgrade(change) => self.upgrade(names, by, change),
            CheckedAction::Reinstall(change) => self.change(names, by, Mode::Reinstall, change),
        }
    }
}
