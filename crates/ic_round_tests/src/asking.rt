use ic_base::NoMemory;
use ic_principal::Bytes;
use std::alloc::Global;

// The types, imports, table and memory of a module whose functions are `call_new` (0), `call_on_cleanup`
// (1), `call_cycles_add` (2), `call_perform` (3), `msg_reply_data_append` (4), `msg_reply` (5), and seven of
// its own.
static FRONT: &[u8] =
    b"\x00asm\x01\x00\x00\x00\x01 \x06`\x00\x00`\x08\x7f\x7f\x7f\x7f\x7f\x7f\x7f\x7f\x00`\x02\x7f\x7f\x00`\x01~\x00`\x00\x01\x7f`\x01\x7f\x00\x02{\x06\x03ic0\x08call_new\x00\x01\x03ic0\x0fcall_on_cleanup\x00\x02\x03ic0\x0fcall_cycles_add\x00\x03\x03ic0\x0ccall_perform\x00\x04\x03ic0\x15msg_reply_data_append\x00\x02\x03ic0\x09msg_reply\x00\x00\x03\x08\x07\x00\x00\x00\x05\x05\x05\x05\x04\x04\x01p\x00\x04\x05\x03\x01\x00\x01";

// `cleans` (6), `replies` (7) and `many` (8); the callbacks 9 to 12 are in the table.
static EXPORTS: &[u8] =
    b"\x07K\x03\x16canister_update cleans\x00\x06\x17canister_update replies\x00\x07\x14canister_update many\x00\x08\x09\x0a\x01\x00A\x00\x0b\x04\x09\x0a\x0b\x0c";

// Each calls `relay` of canister 1, with 500 cycles for each call. `cleans` sets the callback 9, which traps,
// and the cleanup 10, which stores 1. `replies` replies with the text `relay`, and its callback 11 replies
// again. `many` performs 501 calls with the callback 12, which does nothing, and replies what the last one
// answered.
static CODES: &[u8] =
    b"\x0a\x9e\x01\x07\"\x00A\x15A\x0aA\x10A\x05A\x00A\x00A\x00A\x00\x10\x00B\xf4\x03\x10\x02A\x01A\x00\x10\x01\x10\x03\x1a\x0b$\x00A\x15A\x0aA\x10A\x05A\x02A\x00A\x02A\x00\x10\x00B\xf4\x03\x10\x02\x10\x03\x1aA\x10A\x05\x10\x04\x10\x05\x0b>\x01\x02\x7f\x03@A\x15A\x0aA\x10A\x05A\x03A\x00A\x03A\x00\x10\x00B\xf4\x03\x10\x02\x10\x03!\x01 \x00A\x01j\"\x00A\xf5\x03I\x0d\x00\x0bA\x00 \x016\x02\x00A\x00A\x04\x10\x04\x10\x05\x0b\x03\x00\x00\x0b\x09\x00A\x00A\x016\x02\x00\x0b\x04\x00\x10\x05\x0b\x02\x00\x0b";

// `relay`, and the principal of canister 1.
static DATA: &[u8] = b"\x0b\x15\x01\x00A\x10\x0b\x0frelay\x00\x00\x00\x00\x00\x00\x00\x01\x01\x01";

/// The module's bytes.
pub fn asking_bytes(alloc: Global) -> Result<Bytes, NoMemory> {
    let mut items = Vec::from_slice(alloc, FRONT)?;
    items.extend_from_slice(EXPORTS)?;
    items.extend_from_slice(CODES)?;
    items.extend_from_slice(DATA)?;
    Ok(Bytes { items })
}
