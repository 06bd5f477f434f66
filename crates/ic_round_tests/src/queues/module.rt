use std::alloc::Global;

// record { arg : blob; wasm_module : blob; mode : variant { install }; canister_id : principal }: the types, no
// argument, and the length of the module.
static FRONT: &[u8] =
    b"DIDL\x03m{k\x01\x9b\xaa\xeb\xec\x08\x7fl\x04\xd6\xfc\xa7\x02\x00\xa7\x9f\xc9~\x00\xe3\xa6\x83\xc3\x04\x01\xb3\xc4\xb1\xf2\x04h\x01\x02\x00\xc9\x04";

// The types of the module, and what it imports: `msg_arg_data_size` (0), `msg_arg_data_copy` (1),
// `msg_reply_data_append` (2), `msg_reply` (3), `call_new` (4), `call_on_cleanup` (5), `call_data_append` (6),
// `call_cycles_add` (7), `call_perform` (8), `certified_data_set` (9).
static IMPORTS: &[u8] =
    b"\x00asm\x01\x00\x00\x00\x01&\x07`\x08\x7f\x7f\x7f\x7f\x7f\x7f\x7f\x7f\x00`\x00\x01\x7f`\x03\x7f\x7f\x7f\x00`\x02\x7f\x7f\x00`\x00\x00`\x01~\x00`\x01\x7f\x00\x02\xdb\x01\x0a\x03ic0\x11msg_arg_data_size\x00\x01\x03ic0\x11msg_arg_data_copy\x00\x02\x03ic0\x15msg_reply_data_append\x00\x03\x03ic0\x09msg_reply\x00\x04\x03ic0\x08call_new\x00\x00\x03ic0\x0fcall_on_cleanup\x00\x03\x03ic0\x10call_data_append\x00\x03\x03ic0\x0fcall_cycles_add\x00\x05\x03ic0\x0ccall_perform\x00\x01\x03ic0\x12certified_data_set\x00\x03";

// `relay` (10) and `fans` (11); the callbacks 12 to 14 are in the table.
static EXPORTS: &[u8] =
    b"\x03\x06\x05\x04\x04\x06\x06\x06\x04\x04\x01p\x00\x03\x05\x03\x01\x00\x01\x070\x02\x15canister_update relay\x00\x0a\x14canister_update fans\x00\x0b\x09\x09\x01\x00A\x00\x0b\x03\x0c\x0d\x0e";

// `relay` counts its calls, and certifies the count. Without an argument it replies with the count; else it calls
// `relay` of the canister that the argument begins with, with the rest of it, and passes the reply on (12). It traps
// where that rest is less than nothing.
// `fans` lets memory grow by a page, and calls `relay` of the canisters 0 to 7, one after another, as often as its
// argument is long. It replies where the first of these calls ends, and traps where each third one does (13), whose
// cleanup counts (14).
static CODES: &[u8] =
    b"\x0a\xcc\x01\x05S\x01\x01\x7fA\x08A\x08-\x00\x00A\x01j:\x00\x00A\x08A\x01\x10\x09\x10\x00\"\x00E\x04@A\x08A\x01\x10\x02\x10\x03\x05A A\x00 \x00\x10\x01A A\x0aA\x00A\x05A\x00A\x00A\x00A\x00\x10\x04A* \x00A\x0ak\x10\x06B\xf4\x03\x10\x07\x10\x08\x1a\x0b\x0bD\x01\x01\x7fA\x01@\x00\x1a\x03@A\x17 \x00A\x07q:\x00\x00A\x10A\x0aA\x00A\x05A\x01 \x00A\x01 \x00\x10\x04A\x02 \x00\x10\x05B\xf4\x03\x10\x07\x10\x08\x1a \x00A\x01j!\x00 \x00\x10\x00I\x0d\x00\x0b\x0b\x0a\x00A\x08A\x01\x10\x02\x10\x03\x0b\x16\x00 \x00E\x04@\x10\x03\x0b \x00A\x03pA\x02F\x04@\x00\x0b\x0b\x0f\x00A\x08A\x08-\x00\x00A\x01j:\x00\x00\x0b\x0b\x1a\x02\x00A\x00\x0b\x05relay\x00A\x10\x0b\x0a\x00\x00\x00\x00\x00\x00\x00\x00\x01\x01";

/// The argument of `install_code` but for the ten bytes of the canister, with which it ends.
pub fn installing(alloc: Global) -> Option<Vec<u8>> {
    let mut arg = Vec::from_slice(alloc, FRONT).ok()?;
    arg.extend_from_slice(IMPORTS).ok()?;
    arg.extend_from_slice(EXPORTS).ok()?;
    arg.extend_from_slice(CODES).ok()?;
    arg.extend_from_slice(b"\x00\x01\x0a").ok()?;
    Some(arg)
}
