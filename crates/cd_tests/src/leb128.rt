use ic_base::NoMemory;
use ic_leb::{LebFault, Width, read_s, read_u, size_s, size_u, take_s, take_u, write_s, write_u};
use std::alloc::Global;
use std::process::Abort;
use std::test::*;

type Unsigned = (&'static [u8], Width, Result<(u128, usize), LebFault>);

type Signed = (&'static [u8], Width, Result<(i128, usize), LebFault>);

static UNSIGNED: [Unsigned; 16] = [
    (b"\xe5\x8e\x26", Width::Wasm32, Ok((624485, 3))),
    (b"\x83\x00", Width::Wasm32, Ok((3, 2))),
    (b"\xff\xff\xff\xff\x0f", Width::Wasm32, Ok((4294967295, 5))),
    (b"\x80\x80\x80\x80\x10", Width::Wasm32, Err(LebFault::Wide)),
    (b"\x80\x80\x80\x80\x80", Width::Wasm32, Err(LebFault::Long)),
    (b"\x80", Width::Wasm32, Err(LebFault::Short)),
    (
        b"\xff\xff\xff\xff\xff\xff\xff\xff\xff\x01",
        Width::Wasm64,
        Ok((u64::MAX as u128, 10)),
    ),
    (
        b"\x80\x80\x80\x80\x80\x80\x80\x80\x80\x02",
        Width::Wasm64,
        Err(LebFault::Wide),
    ),
    (
        b"\x80\x80\x80\x80\x80\x80\x80\x80\x80\x80\x00",
        Width::Wasm64,
        Err(LebFault::Long),
    ),
    (b"", Width::Wasm64, Err(LebFault::Short)),
    (b"\xff\x00", Width::Candid, Ok((127, 2))),
    (
        b"\xff\xff\xff\xff\xff\xff\xff\xff\xff\xff\xff\xff\xff\xff\xff\xff\xff\xff\x03",
        Width::Candid,
        Ok((u128::MAX, 19)),
    ),
    (
        b"\x80\x80\x80\x80\x80\x80\x80\x80\x80\x80\x80\x80\x80\x80\x80\x80\x80\x80\x04",
        Width::Candid,
        Err(LebFault::Wide),
    ),
    (
        b"\x80\x80\x80\x80\x80\x80\x80\x80\x80\x80\x80\x80\x80\x80\x80\x80\x80\x80\x80\x80\x80\x80\x80\x00",
        Width::Candid,
        Ok((0, 24)),
    ),
    (
        b"\x80\x80\x80\x80\x80\x80\x80\x80\x80\x80\x80\x80\x80\x80\x80\x80\x80\x80\x80\x80\x80\x80\x80\x80\x00",
        Width::Candid,
        Err(LebFault::Long),
    ),
    (b"\x80\x80", Width::Candid, Err(LebFault::Short)),
];

fn unsigned() -> &'static [Unsigned] {
    &UNSIGNED
}

#[test]
fn reads_unsigned(rt: HostRuntime) {
    for (bytes, width, expected) in unsigned() {
        assert_eq!(rt; &read_u(bytes, 0, *width), expected);
    }
}

static SIGNED: [Signed; 14] = [
    (b"\xc0\xbb\x78", Width::Wasm32, Ok((-123456, 3))),
    (b"\xfe\xff\x7f", Width::Wasm32, Ok((-2, 3))),
    (
        b"\xff\xff\xff\xff\x07",
        Width::Wasm32,
        Ok((i32::MAX as i128, 5)),
    ),
    (
        b"\x80\x80\x80\x80\x78",
        Width::Wasm32,
        Ok((i32::MIN as i128, 5)),
    ),
    (b"\xff\xff\xff\xff\x0f", Width::Wasm32, Err(LebFault::Wide)),
    (b"\x80\x80\x80\x80\x70", Width::Wasm32, Err(LebFault::Wide)),
    (
        b"\xff\xff\xff\xff\xff\x7f",
        Width::Wasm32,
        Err(LebFault::Long),
    ),
    (b"\xff", Width::Wasm32, Err(LebFault::Short)),
    (
        b"\x80\x80\x80\x80\x80\x80\x80\x80\x80\x7f",
        Width::Wasm64,
        Ok((i64::MIN as i128, 10)),
    ),
    (
        b"\x80\x80\x80\x80\x80\x80\x80\x80\x80\x01",
        Width::Wasm64,
        Err(LebFault::Wide),
    ),
    (
        b"\x80\x80\x80\x80\x80\x80\x80\x80\x80\x80\x80\x80\x80\x80\x80\x80\x80\x80\x7e",
        Width::Candid,
        Ok((i128::MIN, 19)),
    ),
    (
        b"\x80\x80\x80\x80\x80\x80\x80\x80\x80\x80\x80\x80\x80\x80\x80\x80\x80\x80\x02",
        Width::Candid,
        Err(LebFault::Wide),
    ),
    (
        b"\xff\xff\xff\xff\xff\xff\xff\xff\xff\xff\xff\xff\xff\xff\xff\xff\xff\xff\xff\xff\xff\xff\xff\x7f",
        Width::Candid,
        Ok((-1, 24)),
    ),
    (
        b"\xff\xff\xff\xff\xff\xff\xff\xff\xff\xff\xff\xff\xff\xff\xff\xff\xff\xff\xff\xff\xff\xff\xff\xff\x7f",
        Width::Candid,
        Err(LebFault::Long),
    ),
];

fn signed() -> &'static [Signed] {
    &SIGNED
}

#[test]
fn reads_signed(rt: HostRuntime) {
    for (bytes, width, expected) in signed() {
        assert_eq!(rt; &read_s(bytes, 0, *width), expected);
    }
}

fn written(alloc: Global) -> Result<Vec<u8>, NoMemory> {
    let mut out = Vec::new(alloc);
    write_u(624485, &mut out)?;
    write_s(-123456, &mut out)?;
    write_s(64, &mut out)?;
    Ok(out)
}

// The first two numbers of the bytes.
fn taken(bytes: &[u8]) -> Result<(u128, i128), LebFault> {
    let (n, rest) = take_u(bytes, Width::Wasm32)?;
    let (z, _) = take_s(rest, Width::Wasm32)?;
    Ok((n, z))
}

fn compare<R: Abort>(rt: &R, bytes: &[u8]) {
    assert_eq!(rt; bytes, b"\xe5\x8e\x26\xc0\xbb\x78\xc0\x00".as_slice());
    assert_eq!(rt; taken(bytes), Ok((624485, -123456)));
}

#[test]
fn writes_the_shortest(rt: HostRuntime) -> Result<(), NoMemory> {
    assert_eq!(rt; (size_u(624485), size_s(-123456), size_s(64)), (3, 3, 2));
    let out = written(rt.alloc())?;
    compare(&rt, &out);
    Ok(())
}
