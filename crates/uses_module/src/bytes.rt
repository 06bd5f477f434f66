//! The modules of this example, as bytes (WebAssembly Core 1.0, chapter 5).

use ic_base::NoMemory;
use std::alloc::Global;

const MAGIC: &[u8] = b"\0asm\x01\0\0\0";

/// (type 0 (func)), (type 1 (func (result i64))), (type 2 (func (param i32 i32)))
const TYPES: &[u8] = b"\x01\x0d\x03\x60\0\0\x60\0\x01\x7e\x60\x02\x7f\x7f\0";

/// Functions 0 to 2, each of its type.
pub const THREE_IMPORTS: &[u8] = b"\x02\x38\x03\
    \x03ic0\x04time\0\x01\
    \x03ic0\x15msg_reply_data_append\0\x02\
    \x03ic0\x09msg_reply\0\0";

/// Those three, and one that is no call of the System API.
pub const FOUR_IMPORTS: &[u8] = b"\x02\x45\x04\
    \x03ic0\x04time\0\x01\
    \x03ic0\x15msg_reply_data_append\0\x02\
    \x03ic0\x09msg_reply\0\0\
    \x03env\x06memcpy\0\x02";

/// Function 3, of type 0, and a memory of one page.
const FUNCTIONS: &[u8] = b"\x03\x02\x01\0\x05\x03\x01\0\x01";

pub const ONE_EXPORT: &[u8] = b"\x07\x16\x01\x12canister_query now\0\x03";

/// That query, and one that is no entry point here.
pub const TWO_EXPORTS: &[u8] = b"\x07\x2b\x02\
    \x12canister_query now\0\x03\
    \x12canister_heartbeat\0\x03";

/// Stores the time at address 0, and replies with these eight bytes.
const CODES: &[u8] = b"\x0a\x13\x01\x11\0\
    \x41\0\x10\0\x37\x03\0\
    \x41\0\x41\x08\x10\x01\
    \x10\x02\x0b";

/// A module with these imports and exports.
pub fn module_with(alloc: Global, imports: &[u8], exports: &[u8]) -> Result<Vec<u8>, NoMemory> {
    let mut bytes = Vec::from_slice(alloc, MAGIC)?;
    for section in [TYPES, imports, FUNCTIONS, exports, CODES] {
        bytes.extend_from_slice(section)?;
    }
    Ok(bytes)
}
