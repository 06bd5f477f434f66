use std::alloc::Global;

// record { arg : blob; wasm_module : blob; mode : variant { install }; canister_id : principal }: the types.
static TYPES: &[u8] =
    b"DIDL\x03m{k\x01\x9b\xaa\xeb\xec\x08\x7fl\x04\xd6\xfc\xa7\x02\x00\xa7\x9f\xc9~\x00\xe3\xa6\x83\xc3\x04\x01\xb3\xc4\xb1\xf2\x04h\x01\x02";

// The length of the module.
static LENGTH: &[u8] = b"\xa6\x04";

// The types of the module, and what it imports: `debug_print` (0), `msg_reply` (1), `call_new` (2), `call_on_cleanup`
// (3), `call_perform` (4), `msg_arg_data_size` (5).
static IMPORTS: &[u8] =
    b"\x00asm\x01\x00\x00\x00\x01\x1c\x05`\x00\x00`\x02\x7f\x7f\x00`\x08\x7f\x7f\x7f\x7f\x7f\x7f\x7f\x7f\x00`\x00\x01\x7f`\x01\x7f\x00\x02s\x06\x03ic0\x0bdebug_print\x00\x01\x03ic0\x09msg_reply\x00\x00\x03ic0\x08call_new\x00\x02\x03ic0\x0fcall_on_cleanup\x00\x01\x03ic0\x0ccall_perform\x00\x03\x03ic0\x11msg_arg_data_size\x00\x03";

// `say` (6), the query `ask` (7), `chain` (8), `fall` (11), `canister_init` (12), `long` (13) and `often` (14); the
// callback 9 and the cleanup 10 are in the table. There are 256 pages of memory.
static EXPORTS: &[u8] =
    b"\x03\x0a\x09\x00\x00\x00\x04\x04\x00\x00\x00\x00\x04\x04\x01p\x00\x02\x05\x04\x01\x00\x80\x02\x07\x9a\x01\x07\x13canister_update say\x00\x06\x12canister_query ask\x00\x07\x15canister_update chain\x00\x08\x14canister_update fall\x00\x0b\x0dcanister_init\x00\x0c\x14canister_update long\x00\x0d\x15canister_update often\x00\x0e\x09\x08\x01\x00A\x00\x0b\x02\x09\x0a";

// `say` says `update`. `ask` says `query`, and traps where it replies a second time. `chain` says `chain` and calls `say`
// of canister 1; its callback says `breaks` and traps, and its cleanup says `cleanup` and traps. `fall` calls the function
// that is this callback. `canister_init` says `init`, and traps where there is an argument. `long` says all of memory,
// and `often` says `update` ten thousand times.
static CODES: &[u8] =
    b"\x0a\x93\x01\x09\x0a\x00A\x00A\x06\x10\x00\x10\x01\x0b\x0c\x00A\x06A\x05\x10\x00\x10\x01\x10\x01\x0b#\x00A\x0bA\x05\x10\x00A$A\x0aA!A\x03A\x00A\x00A\x00A\x00\x10\x02A\x01A\x00\x10\x03\x10\x04\x1a\x0b\x09\x00A\x10A\x06\x10\x00\x00\x0b\x09\x00A\x16A\x07\x10\x00\x00\x0b\x06\x00A\x00\x10\x09\x0b\x0e\x00A\x1dA\x04\x10\x00\x10\x05\x04@\x00\x0b\x0b\x0d\x00A\x00A\x80\x80\x80\x08\x10\x00\x10\x01\x0b\x1d\x01\x01\x7f\x03@A\x00A\x06\x10\x00 \x00A\x01j\"\x00A\x90\xce\x00I\x0d\x00\x0b\x10\x01\x0b";

// What is said, `say`, and the principal of canister 1.
static DATA: &[u8] =
    b"\x0b4\x01\x00A\x00\x0b.updatequerychainbreakscleanupinitsay\x00\x00\x00\x00\x00\x00\x00\x01\x01\x01";

/// The argument of `install_code` but for the ten bytes of the canister, with which it ends. The entry point gets an
/// argument of one byte, or none.
pub fn installing_talker(alloc: Global, has_arg: bool) -> Option<Vec<u8>> {
    let mut arg = Vec::from_slice(alloc, TYPES).ok()?;
    arg.extend_from_slice(if has_arg { b"\x01x" } else { b"\x00" })
        .ok()?;
    for part in [LENGTH, IMPORTS, EXPORTS, CODES, DATA] {
        arg.extend_from_slice(part).ok()?;
    }
    arg.extend_from_slice(b"\x00\x01\x0a").ok()?;
    Some(arg)
}
