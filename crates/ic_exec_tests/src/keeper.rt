use crate::canisters::valid_of;
use ic_base::NoMemory;
use ic_state::Code;
use std::alloc::Global;

// Types; the imports `msg_arg_data_size`, `stable_grow`, `stable_write` and `certified_data_set` (0 to
// 3); one page of memory.
static FRONT: &[u8] =
    b"\x00asm\x01\x00\x00\x00\x01\x18\x05`\x00\x00`\x01\x7f\x01\x7f`\x03\x7f\x7f\x7f\x00`\x02\x7f\x7f\x00`\x00\x01\x7f\x02W\x04\x03ic0\x11msg_arg_data_size\x00\x04\x03ic0\x0bstable_grow\x00\x01\x03ic0\x0cstable_write\x00\x02\x03ic0\x12certified_data_set\x00\x03\x03\x05\x04\x00\x00\x00\x00\x05\x03\x01\x00\x01";

// `canister_init` certifies the first four bytes, stores 7 in the first, lets stable memory grow by a
// page, and traps where there is an argument. `canister_pre_upgrade` lets it grow by a page, writes the
// first four bytes at the end of the second page, and certifies two of them. `canister_post_upgrade`
// writes them at the beginning, and traps where there is an argument. The start function stores 1 at 8.
static BACK: &[u8] =
    b"\x07@\x03\x0dcanister_init\x00\x04\x14canister_pre_upgrade\x00\x05\x15canister_post_upgrade\x00\x06\x08\x01\x07\x0aO\x04\x1a\x00A\x00A\x04\x10\x03A\x00A\x07:\x00\x00A\x01\x10\x01\x1a\x10\x00\x04@\x00\x0b\x0b\x17\x00A\x01\x10\x01\x1aA\xfc\xff\x07A\x00A\x04\x10\x02A\x00A\x02\x10\x03\x0b\x10\x00A\x00A\x00A\x04\x10\x02\x10\x00\x04@\x00\x0b\x0b\x09\x00A\x08A\x01:\x00\x00\x0b";

// The bytes `seed`, at the beginning of memory or past its end by one.
static INSIDE: &[u8] = b"\x0b\x0c\x01\x00A\x80\x80\x00\x0b\x04seed";

static OUTSIDE: &[u8] = b"\x0b\x0c\x01\x00A\xfd\xff\x03\x0b\x04seed";

fn bytes_of(alloc: Global, is_inside: bool) -> Result<Vec<u8>, NoMemory> {
    let mut bytes = Vec::from_slice(alloc, FRONT)?;
    bytes.extend_from_slice(BACK)?;
    bytes.extend_from_slice(if is_inside { INSIDE } else { OUTSIDE })?;
    Ok(bytes)
}

/// A module that keeps things in its stable memory, with its segment inside memory or past its end.
pub fn keeper(alloc: Global, is_inside: bool) -> Option<Code> {
    let bytes = bytes_of(alloc, is_inside).ok()?;
    let valid = valid_of(alloc, bytes.as_slice())?;
    Some(Code {
        valid,
        hash: [if is_inside { 1 } else { 2 }; 32],
    })
}
