use ic_base::NoMemory;
use ic_leb::write_u;
use std::alloc::Global;

/// A section: its id and its content.
type Section = (u8, &'static [u8]);

// () -> (), (i32) -> () and () -> i64.
static BEFORE: [Section; 6] = [
    (1, b"\x03\x60\x00\x00\x60\x01\x7f\x00\x60\x00\x01\x7e"),
    (
        2,
        b"\x03\x03ic0\x0eaccept_message\x00\x00\x03ic0\x17msg_cycles_available128\x00\x01\x03ic0\x04time\x00\x02",
    ),
    (3, b"\x02\x00\x01"),
    (4, b"\x01\x70\x00\x04"),
    (5, b"\x01\x01\x01\x03"),
    (6, b"\x01\x7e\x01\x42\x07\x0b"),
];

static TABLE: Section = (9, b"\x01\x00\x41\x01\x0b\x03\x01\x04\x03");

// One data segment is counted before the codes.
static DATA_COUNT: Section = (12, b"\x01");

static DATA: Section = (
    11,
    b"\x01\x00\x41\x00\x0b\x08\x80\xff\x7f\x01\xfe\x00\x00\x80",
);

fn push_section(bytes: &mut Vec<u8>, id: u8, content: &[u8]) -> Result<(), NoMemory> {
    bytes.push(id)?;
    write_u(content.len() as u128, bytes)?;
    bytes.extend_from_slice(content)
}

fn sections_before(alloc: Global) -> Result<Vec<u8>, NoMemory> {
    let mut bytes = Vec::from_slice(alloc, b"\x00asm\x01\x00\x00\x00")?;
    for (id, content) in &BEFORE {
        push_section(&mut bytes, *id, content)?;
    }
    Ok(bytes)
}

/// The code section of the body, with two locals of type i32 and one of type i64, and of an empty one.
fn codes(alloc: Global, body: &[u8]) -> Result<Vec<u8>, NoMemory> {
    let mut code = Vec::from_slice(alloc, b"\x02\x02\x7f\x01\x7e")?;
    code.extend_from_slice(body)?;
    code.push(0x0b)?;
    let mut codes = Vec::from_slice(alloc, b"\x02")?;
    write_u(code.len() as u128, &mut codes)?;
    codes.extend_from_slice(&code)?;
    codes.extend_from_slice(b"\x02\x00\x0b")?;
    Ok(codes)
}

/// A module with a memory of 1 to 3 pages, whose functions are `accept_message` (0),
/// `msg_cycles_available128` (1), `time` (2), the body (3) with two locals of type i32 and one of type i64, and one of type
/// (i32) -> () that does nothing (4). The function of the number `begins` is the start function and
/// the method `run`. The table has none, 1, 4 and 3; the global is of type i64 and begins with 7.
pub fn module(alloc: Global, begins: u8, body: &[u8]) -> Result<Vec<u8>, NoMemory> {
    let mut bytes = sections_before(alloc)?;
    let mut export = Vec::from_slice(alloc, b"\x01\x13canister_update run\x00")?;
    export.push(begins)?;
    push_section(&mut bytes, 7, &export)?;
    push_section(&mut bytes, 8, &[begins])?;
    push_section(&mut bytes, TABLE.0, TABLE.1)?;
    push_section(&mut bytes, DATA_COUNT.0, DATA_COUNT.1)?;
    push_section(&mut bytes, 10, &codes(alloc, body)?)?;
    push_section(&mut bytes, DATA.0, DATA.1)?;
    Ok(bytes)
}
