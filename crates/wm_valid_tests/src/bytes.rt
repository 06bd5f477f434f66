use ic_base::NoMemory;
use ic_leb::write_u;
use std::alloc::Global;

// The magic bytes, one function type, and one function of it.
const MAGIC: [u8; 8] = [0x00, 0x61, 0x73, 0x6D, 0x01, 0x00, 0x00, 0x00];

const TYPE: [u8; 6] = [0x01, 0x04, 0x01, 0x60, 0x00, 0x00];

const FUNCTION: [u8; 4] = [0x03, 0x02, 0x01, 0x00];

/// The parts, one after the other.
fn joined(alloc: Global, parts: &[&[u8]]) -> Result<Vec<u8>, NoMemory> {
    let mut bytes = Vec::new(alloc);
    for part in parts {
        bytes.extend_from_slice(part)?;
    }
    Ok(bytes)
}

/// The magic bytes, and the parts after them.
pub fn module_of(alloc: Global, parts: &[&[u8]]) -> Result<Vec<u8>, NoMemory> {
    let body = joined(alloc, parts)?;
    joined(alloc, &[&MAGIC, &body])
}

/// The number of the bytes, and the bytes.
fn sized(alloc: Global, front: &[u8], content: &[u8]) -> Result<Vec<u8>, NoMemory> {
    let mut size = Vec::new(alloc);
    write_u(content.len() as u128, &mut size)?;
    joined(alloc, &[front, &size, content])
}

/// A module with one function that has this code, after its size.
fn with_code(alloc: Global, code: &[u8]) -> Result<Vec<u8>, NoMemory> {
    let codes = sized(alloc, &[0x01], code)?;
    let section = sized(alloc, &[0x0A], &codes)?;
    module_of(alloc, &[&TYPE, &FUNCTION, &section])
}

/// A module with one function, which has no locals and these words and an end for its body.
pub fn with_body(alloc: Global, words: &[u8]) -> Result<Vec<u8>, NoMemory> {
    let code = joined(alloc, &[b"\x00", words, b"\x0B"])?;
    with_code(alloc, &code)
}

/// A module with one function, in which this instruction stands alone.
pub fn with_instruction(alloc: Global, opcode: u8, operands: &[u8]) -> Result<Vec<u8>, NoMemory> {
    let words = joined(alloc, &[&[opcode], operands])?;
    with_body(alloc, &words)
}

pub fn zeros(alloc: Global, length: usize) -> Result<Vec<u8>, NoMemory> {
    Ok(b"\x00".repeat(alloc, length)?)
}
