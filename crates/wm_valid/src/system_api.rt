//! The table of the System API (IC Interface Specification, "System API"): the functions that a
//! canister may import from the module `ic0`, in this project's profile.
ghost use Rattle.std.specs.Prelude.{◌≡◌, Some, slice_get};
ghost use Rattle.wm_valid.specs.SystemApi.{row_of, calls, call_named, number_of};

use wm_tree::ValType;

/// A function of the System API, in the order of the table.
#[derive(Clone, Copy, Debug, PartialEq, Eq)]
pub enum SystemCall {
    MsgArgDataSize,
    MsgArgDataCopy,
    MsgCallerSize,
    MsgCallerCopy,
    MsgRejectCode,
    MsgRejectMsgSize,
    MsgRejectMsgCopy,
    MsgReplyDataAppend,
    MsgReply,
    MsgReject,
    MsgCyclesAvailable,
    MsgCyclesAvailable128,
    MsgCyclesRefunded,
    MsgCyclesRefunded128,
    MsgCyclesAccept,
    MsgCyclesAccept128,
    CanisterSelfSize,
    CanisterSelfCopy,
    CanisterCycleBalance,
    CanisterCycleBalance128,
    CanisterStatus,
    IsController,
    MsgMethodNameSize,
    MsgMethodNameCopy,
    AcceptMessage,
    CallNew,
    CallOnCleanup,
    CallDataAppend,
    CallCyclesAdd,
    CallCyclesAdd128,
    CallPerform,
    StableSize,
    StableGrow,
    StableWrite,
    StableRead,
    Stable64Size,
    Stable64Grow,
    Stable64Write,
    Stable64Read,
    CertifiedDataSet,
    DataCertificatePresent,
    Time,
    DebugPrint,
    Trap,
}

/// All of them, in order.
const CALLS: [SystemCall; 44] = [
    SystemCall::MsgArgDataSize,
    SystemCall::MsgArgDataCopy,
    SystemCall::MsgCallerSize,
    SystemCall::MsgCallerCopy,
    SystemCall::MsgRejectCode,
    SystemCall::MsgRejectMsgSize,
    SystemCall::MsgRejectMsgCopy,
    SystemCall::MsgReplyDataAppend,
    SystemCall::MsgReply,
    SystemCall::MsgReject,
    SystemCall::MsgCyclesAvailable,
    SystemCall::MsgCyclesAvailable128,
    SystemCall::MsgCyclesRefunded,
    SystemCall::MsgCyclesRefunded128,
    SystemCall::MsgCyclesAccept,
    SystemCall::MsgCyclesAccept128,
    SystemCall::CanisterSelfSize,
    SystemCall::CanisterSelfCopy,
    SystemCall::CanisterCycleBalance,
    SystemCall::CanisterCycleBalance128,
    SystemCall::CanisterStatus,
    SystemCall::IsController,
    SystemCall::MsgMethodNameSize,
    SystemCall::MsgMethodNameCopy,
    SystemCall::AcceptMessage,
    SystemCall::CallNew,
    SystemCall::CallOnCleanup,
    SystemCall::CallDataAppend,
    SystemCall::CallCyclesAdd,
    SystemCall::CallCyclesAdd128,
    SystemCall::CallPerform,
    SystemCall::StableSize,
    SystemCall::StableGrow,
    SystemCall::StableWrite,
    SystemCall::StableRead,
    SystemCall::Stable64Size,
    SystemCall::Stable64Grow,
    SystemCall::Stable64Write,
    SystemCall::Stable64Read,
    SystemCall::CertifiedDataSet,
    SystemCall::DataCertificatePresent,
    SystemCall::Time,
    SystemCall::DebugPrint,
    SystemCall::Trap,
];

fn call_at(calls: &[SystemCall], number: u32) -> Option<SystemCall>
    ensures { result ≡ slice_get calls.now number }
{
    calls.get(number as usize).copied()
}

impl SystemCall {
    /// The name that it is imported under.
    pub fn name(self) -> &'static str
        ensures { result.now ≡ (row_of self).name }
    {
        match self {
            SystemCall::MsgArgDataSize => "msg_arg_data_size",
            SystemCall::MsgArgDataCopy => "msg_arg_data_copy",
            SystemCall::MsgCallerSize => "msg_caller_size",
            SystemCall::MsgCallerCopy => "msg_caller_copy",
            SystemCall::MsgRejectCode => "msg_reject_code",
            SystemCall::MsgRejectMsgSize => "msg_reject_msg_size",
            SystemCall::MsgRejectMsgCopy => "msg_reject_msg_copy",
            SystemCall::MsgReplyDataAppend => "msg_reply_data_append",
            SystemCall::MsgReply => "msg_reply",
            SystemCall::MsgReject => "msg_reject",
            SystemCall::MsgCyclesAvailable => "msg_cycles_available",
            SystemCall::MsgCyclesAvailable128 => "msg_cycles_available128",
            SystemCall::MsgCyclesRefunded => "msg_cycles_refunded",
            SystemCall::MsgCyclesRefunded128 => "msg_cycles_refunded128",
            SystemCall::MsgCyclesAccept => "msg_cycles_accept",
            SystemCall::MsgCyclesAccept128 => "msg_cycles_accept128",
            SystemCall::CanisterSelfSize => "canister_self_size",
            SystemCall::CanisterSelfCopy => "canister_self_copy",
            SystemCall::CanisterCycleBalance => "canister_cycle_balance",
            SystemCall::CanisterCycleBalance128 => "canister_cycle_balance128",
            SystemCall::CanisterStatus => "canister_status",
            SystemCall::IsController => "is_controller",
            SystemCall::MsgMethodNameSize => "msg_method_name_size",
            SystemCall::MsgMethodNameCopy => "msg_method_name_copy",
            SystemCall::AcceptMessage => "accept_message",
            SystemCall::CallNew => "call_new",
            SystemCall::CallOnCleanup => "call_on_cleanup",
            SystemCall::CallDataAppend => "call_data_append",
            SystemCall::CallCyclesAdd => "call_cycles_add",
            SystemCall::CallCyclesAdd128 => "call_cycles_add128",
            SystemCall::CallPerform => "call_perform",
            SystemCall::StableSize => "stable_size",
            SystemCall::StableGrow => "stable_grow",
            SystemCall::StableWrite => "stable_write",
            SystemCall::StableRead => "stable_read",
            SystemCall::Stable64Size => "stable64_size",
            SystemCall::Stable64Grow => "stable64_grow",
            SystemCall::Stable64Write => "stable64_write",
            SystemCall::Stable64Read => "stable64_read",
            SystemCall::CertifiedDataSet => "certified_data_set",
            SystemCall::DataCertificatePresent => "data_certificate_present",
            SystemCall::Time => "time",
            SystemCall::DebugPrint => "debug_print",
            SystemCall::Trap => "trap",
        }
    }

    /// The types of its parameters.
    pub fn params(self) -> &'static [ValType]
        ensures { result.now ≡ (row_of self).params }
    {
        match self {
            SystemCall::MsgArgDataSize
            | SystemCall::MsgCallerSize
            | SystemCall::MsgRejectCode
            | SystemCall::MsgRejectMsgSize
            | SystemCall::MsgReply
            | SystemCall::MsgCyclesAvailable
            | SystemCall::MsgCyclesRefunded
            | SystemCall::CanisterSelfSize
            | SystemCall::CanisterCycleBalance
            | SystemCall::CanisterStatus
            | SystemCall::MsgMethodNameSize
            | SystemCall::AcceptMessage
            | SystemCall::CallPerform
            | SystemCall::StableSize
            | SystemCall::Stable64Size
            | SystemCall::DataCertificatePresent
            | SystemCall::Time => &[],
            SystemCall::MsgArgDataCopy
            | SystemCall::MsgCallerCopy
            | SystemCall::MsgRejectMsgCopy
            | SystemCall::CanisterSelfCopy
            | SystemCall::MsgMethodNameCopy
            | SystemCall::StableWrite
            | SystemCall::StableRead => &[ValType::I32, ValType::I32, ValType::I32],
            SystemCall::MsgReplyDataAppend
            | SystemCall::MsgReject
            | SystemCall::IsController
            | SystemCall::CallOnCleanup
            | SystemCall::CallDataAppend
            | SystemCall::CertifiedDataSet
            | SystemCall::DebugPrint
            | SystemCall::Trap => &[ValType::I32, ValType::I32],
            SystemCall::MsgCyclesAvailable128
            | SystemCall::MsgCyclesRefunded128
            | SystemCall::CanisterCycleBalance128
            | SystemCall::StableGrow => &[ValType::I32],
            SystemCall::MsgCyclesAccept | SystemCall::CallCyclesAdd | SystemCall::Stable64Grow => &[
                ValType::I64,
            ],
            SystemCall::MsgCyclesAccept128 => &[ValType::I64, ValType::I64, ValType::I32],
            SystemCall::CallNew => &[
                ValType::I32,
                ValType::I32,
                ValType::I32,
                ValType::I32,
                ValType::I32,
                ValType::I32,
                ValType::I32,
                ValType::I32,
            ],
            SystemCall::CallCyclesAdd128 => &[ValType::I64, ValType::I64],
            SystemCall::Stable64Write | SystemCall::Stable64Read => &[
                ValType::I64,
                ValType::I64,
                ValType::I64,
            ],
        }
    }

    /// The type of its result.
    pub fn result(self) -> Option<ValType>
        ensures { result ≡ (row_of self).result }
    {
        match self {
            SystemCall::MsgArgDataSize
            | SystemCall::MsgCallerSize
            | SystemCall::MsgRejectCode
            | SystemCall::MsgRejectMsgSize
            | SystemCall::CanisterSelfSize
            | SystemCall::CanisterStatus
            | SystemCall::IsController
            | SystemCall::MsgMethodNameSize
            | SystemCall::CallPerform
            | SystemCall::StableSize
            | SystemCall::StableGrow
            | SystemCall::DataCertificatePresent => Some(ValType::I32),
            SystemCall::MsgArgDataCopy
            | SystemCall::MsgCallerCopy
            | SystemCall::MsgRejectMsgCopy
            | SystemCall::MsgReplyDataAppend
            | SystemCall::MsgReply
            | SystemCall::MsgReject
            | SystemCall::MsgCyclesAvailable128
            | SystemCall::MsgCyclesRefunded128
            | SystemCall::MsgCyclesAccept128
            | SystemCall::CanisterSelfCopy
            | SystemCall::CanisterCycleBalance128
            | SystemCall::MsgMethodNameCopy
            | SystemCall::AcceptMessage
            | SystemCall::CallNew
            | SystemCall::CallOnCleanup
            | SystemCall::CallDataAppend
            | SystemCall::CallCyclesAdd
            | SystemCall::CallCyclesAdd128
            | SystemCall::StableWrite
            | SystemCall::StableRead
            | SystemCall::Stable64Write
            | SystemCall::Stable64Read
            | SystemCall::CertifiedDataSet
            | SystemCall::DebugPrint
            | SystemCall::Trap => None,
            SystemCall::MsgCyclesAvailable
            | SystemCall::MsgCyclesRefunded
            | SystemCall::MsgCyclesAccept
            | SystemCall::CanisterCycleBalance
            | SystemCall::Stable64Size
            | SystemCall::Stable64Grow
            | SystemCall::Time => Some(ValType::I64),
        }
    }

    /// Its place in the table, from 0.
    pub fn number(self) -> u32
        ensures place { slice_get calls result ≡ Some self }
        ensures number { result ≡ number_of self }
    {
        self as u32
    }

    /// The call at that place of the table, from 0.
    pub fn numbered(number: u32) -> Option<SystemCall>
        ensures { result ≡ slice_get calls number }
    {
        call_at(&CALLS, number)
    }

    /// The call of that name.
    pub fn named(name: &str) -> Option<SystemCall>
        ensures { result ≡ call_named name.now }
    {
        CALLS.iter().copied().find(|call| call.name() == name)
    }
}
