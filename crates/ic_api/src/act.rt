ghost use Rattle.std.specs.Prelude.{◌≡◌, OnErr};
ghost use Rattle.wm_valid.specs.SystemApi.{row_of};
ghost use Rattle.wm_valid.specs.declared.system_api.SystemCall.TheVariants as call;
ghost use Rattle.wm_store.specs.Values.{AreValues};
ghost use Rattle.ic_api.specs.Did.{Does};
ghost use Rattle.ic_api.specs.IsRecord.{IsRecord};
ghost use Rattle.ic_api.specs.Steps.{Now};
ghost use Rattle.ic_api.specs.Meaning.{meaning, callback_of as callback_in};

use crate::calling::Place;
use crate::execution::Execution;
use crate::memory::{amount, answer_size, copy, put, whole};
use crate::rest::trap;
use crate::stable;
use ic_base::NoMemory;
use ic_behaviour::{Callback, EntryKind};
use std::alloc::Global;
use wm_semantics::HostAnswer;
use wm_store::Store;
use wm_valid::system_api::SystemCall;

/// What `call_new` says of its answer.
fn callback_of(args: &[u64]) -> Callback
    requires { AreValues (row_of call.CallNew).params args.now }
    ensures { result ≡ callback_in args.now }
{
    Callback {
        reply_fun: args[4] as u32,
        reply_env: args[5] as u32,
        reject_fun: args[6] as u32,
        reject_env: args[7] as u32,
        cleanup: None,
    }
}

impl Execution {
    /// Runs the call, as the table says.
    pub fn act(
        &mut self,
        alloc: Global,
        kind: EntryKind,
        call: SystemCall,
        args: &[u64],
        store: &mut Store,
    ) -> Result<HostAnswer, NoMemory>
        requires record { IsRecord self.old }
        requires values { AreValues (row_of call).params args.now }
        ensures did { Does result (record { es = self.new; lists = store.new.lists }) (meaning kind call args.now (record { es = self.old; lists = store.old.lists })) }
        ensures same { OnErr result (self.new ≡ self.old) }
        ensures begun { store.new.begun ≡ store.old.begun }
    {
        match call {
            SystemCall::MsgArgDataSize => Ok(answer_size(&self.view.arg.items)),
            SystemCall::MsgArgDataCopy => {
                copy(store, &self.view.arg.items, args[0], args[1], args[2])
            }
            SystemCall::MsgCallerSize => Ok(answer_size(self.view.caller.bytes())),
            SystemCall::MsgCallerCopy => {
                copy(store, self.view.caller.bytes(), args[0], args[1], args[2])
            }
            SystemCall::MsgRejectCode => Ok(HostAnswer::Number(self.reject_code(kind) as u64)),
            SystemCall::MsgRejectMsgSize => {
                Ok(answer_size(self.view.reject_message.items.as_bytes()))
            }
            SystemCall::MsgRejectMsgCopy => copy(
                store,
                self.view.reject_message.items.as_bytes(),
                args[0],
                args[1],
                args[2],
            ),
            SystemCall::MsgReplyDataAppend => self.append_reply(args[0], args[1], store),
            SystemCall::MsgReply => Ok(self.reply(alloc)),
            SystemCall::MsgReject => self.reject(alloc, args[0], args[1], store),
            SystemCall::MsgCyclesAvailable => Ok(amount(self.view.available)),
            SystemCall::MsgCyclesAvailable128 => put(store, args[0], self.view.available),
            SystemCall::MsgCyclesRefunded => Ok(amount(self.view.refund)),
            SystemCall::MsgCyclesRefunded128 => put(store, args[0], self.view.refund),
            SystemCall::MsgCyclesAccept => Ok(self.accept(args[0])),
            SystemCall::MsgCyclesAccept128 => {
                let n = self.acceptable(whole(args[0], args[1]));
                self.accept_at(n, args[2], store)
            }
            SystemCall::CanisterSelfSize => Ok(answer_size(self.view.id.bytes())),
            SystemCall::CanisterSelfCopy => {
                copy(store, self.view.id.bytes(), args[0], args[1], args[2])
            }
            SystemCall::CanisterCycleBalance => Ok(amount(self.view.balance)),
            SystemCall::CanisterCycleBalance128 => put(store, args[0], self.view.balance),
            SystemCall::CanisterStatus => Ok(HostAnswer::Number(self.view.phase_number as u64)),
            SystemCall::IsController => Ok(self.is_controller(args[0], args[1], store)),
            SystemCall::MsgMethodNameSize => Ok(answer_size(self.view.method.items.as_bytes())),
            SystemCall::MsgMethodNameCopy => copy(
                store,
                self.view.method.items.as_bytes(),
                args[0],
                args[1],
                args[2],
            ),
            SystemCall::AcceptMessage => Ok(self.accept_message()),
            SystemCall::CallNew => {
                let callee = Place {
                    src: args[0],
                    size: args[1],
                };
                let name = Place {
                    src: args[2],
                    size: args[3],
                };
                self.begin_call(alloc, callee, name, callback_of(args), store)
            }
            SystemCall::CallOnCleanup => Ok(self.set_cleanup(args[0] as u32, args[1] as u32)),
            SystemCall::CallDataAppend => self.append_arg(args[0], args[1], store),
            SystemCall::CallCyclesAdd => Ok(self.add_cycles(args[0] as u128)),
            SystemCall::CallCyclesAdd128 => Ok(self.add_cycles(whole(args[0], args[1]))),
            SystemCall::CallPerform => self.perform(),
            SystemCall::StableSize | SystemCall::Stable64Size => {
                Ok(HostAnswer::Number(store.stable_pages() as u64))
            }
            SystemCall::StableGrow => stable::grow(store, args[0], u32::MAX as u64),
            SystemCall::Stable64Grow => stable::grow(store, args[0], u64::MAX),
            SystemCall::StableWrite | SystemCall::Stable64Write => {
                stable::write(alloc, store, args[0], args[1], args[2])
            }
            SystemCall::StableRead | SystemCall::Stable64Read => {
                stable::copy_out(alloc, store, args[0], args[1], args[2])
            }
            SystemCall::CertifiedDataSet => self.certify(alloc, args[0], args[1], store),
            SystemCall::DataCertificatePresent => Ok(HostAnswer::Number(0)),
            SystemCall::Time => Ok(HostAnswer::Number(self.view.time)),
            SystemCall::DebugPrint => Ok(HostAnswer::Nothing),
            SystemCall::Trap => Ok(HostAnswer::Trap(trap(alloc, args[0], args[1], store)?)),
        }
    }
}
