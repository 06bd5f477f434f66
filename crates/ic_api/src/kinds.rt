ghost use Rattle.std.specs.Prelude.{◌≡◌};
ghost use Rattle.ic_api.specs.Kinds.{has as has_kind, kinds_of as kinds_for};

use ic_behaviour::EntryKind;
use wm_valid::system_api::SystemCall;

/// The entry points that may use a call.
#[derive(Clone, Copy)]
pub enum Kinds {
    WithArgument,
    AllButStart,
    Callbacks,
    Rejected,
    Answering,
    Calling,
    Inspecting,
    Certifying,
    All,
}

impl Kinds {
    pub fn has(self, kind: EntryKind) -> bool
        ensures { result ≡ has_kind self kind }
    {
        match self {
            Kinds::WithArgument => matches!(
                kind,
                EntryKind::Init
                    | EntryKind::Update
                    | EntryKind::Query
                    | EntryKind::Reply
                    | EntryKind::Inspect
            ),
            Kinds::AllButStart => !matches!(kind, EntryKind::Start),
            Kinds::Callbacks => matches!(kind, EntryKind::Reply | EntryKind::Reject),
            Kinds::Rejected => matches!(kind, EntryKind::Reject),
            Kinds::Answering => matches!(
                kind,
                EntryKind::Update | EntryKind::Query | EntryKind::Reply | EntryKind::Reject
            ),
            Kinds::Calling => matches!(
                kind,
                EntryKind::Update | EntryKind::Reply | EntryKind::Reject
            ),
            Kinds::Inspecting => matches!(kind, EntryKind::Inspect),
            Kinds::Certifying => matches!(
                kind,
                EntryKind::Init
                    | EntryKind::PreUpgrade
                    | EntryKind::Update
                    | EntryKind::Reply
                    | EntryKind::Reject
            ),
            Kinds::All => true,
        }
    }
}

pub fn kinds_of(call: SystemCall) -> Kinds
    ensures { result ≡ kinds_for call }
{
    match call {
        SystemCall::MsgArgDataSize | SystemCall::MsgArgDataCopy => Kinds::WithArgument,
        SystemCall::MsgRejectCode
        | SystemCall::MsgCyclesRefunded
        | SystemCall::MsgCyclesRefunded128 => Kinds::Callbacks,
        SystemCall::MsgRejectMsgSize | SystemCall::MsgRejectMsgCopy => Kinds::Rejected,
        SystemCall::MsgReplyDataAppend | SystemCall::MsgReply | SystemCall::MsgReject => {
            Kinds::Answering
        }
        SystemCall::MsgCyclesAvailable
        | SystemCall::MsgCyclesAvailable128
        | SystemCall::MsgCyclesAccept
        | SystemCall::MsgCyclesAccept128
        | SystemCall::CallNew
        | SystemCall::CallOnCleanup
        | SystemCall::CallDataAppend
        | SystemCall::CallCyclesAdd
        | SystemCall::CallCyclesAdd128
        | SystemCall::CallPerform => Kinds::Calling,
        SystemCall::MsgMethodNameSize | SystemCall::MsgMethodNameCopy | SystemCall::AcceptMessage =>
            Kinds::Inspecting,
        SystemCall::CertifiedDataSet => Kinds::Certifying,
        SystemCall::DebugPrint | SystemCall::Trap => Kinds::All,
        SystemCall::MsgCallerSize
        | SystemCall::MsgCallerCopy
        | SystemCall::CanisterSelfSize
        | SystemCall::CanisterSelfCopy
        | SystemCall::CanisterCycleBalance
        | SystemCall::CanisterCycleBalance128
        | SystemCall::CanisterStatus
        | SystemCall::IsController
        | SystemCall::StableSize
        | SystemCall::StableGrow
        | SystemCall::StableWrite
        | SystemCall::StableRead
        | SystemCall::Stable64Size
        | SystemCall::Stable64Grow
        | SystemCall::Stable64Write
        | SystemCall::Stable64Read
        | SystemCall::DataCertificatePresent
        | SystemCall::Time => Kinds::AllButStart,
    }
}
