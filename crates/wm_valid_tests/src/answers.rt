// What is read and written. No test owns a module: with several exits it would be long to prove.
use crate::bytes::*;
use ic_base::NoMemory;
use ic_principal::Bytes;
use std::alloc::Global;
use std::process::Abort;
use std::test::*;
use wm_decode::{ModuleFault, decode};
use wm_encode::{encode, read_back, read_fits, relay_fits};
use wm_tree::samples::relay;
use wm_tree::{Module, opcode_of};

pub fn fault_of(alloc: Global, bytes: &[u8]) -> Option<ModuleFault> {
    decode(alloc, bytes).err()
}

fn shown(alloc: Global, module: &Module) -> Result<String, Fail> {
    Ok(format!(in alloc; "{module:?}")?)
}

/// How the module of these bytes is shown.
pub fn shown_in(alloc: Global, bytes: &[u8]) -> Result<String, Fail> {
    match decode(alloc, bytes) {
        Ok(module) => shown(alloc, &module),
        Err(fault) => Err(Fail::from(fault)),
    }
}

/// The first instruction of a module, as it is shown, after its opcode.
fn first_shown(alloc: Global, module: &Module) -> Result<String, Fail> {
    let code = module.codes.items.first().ok_or("a code")?;
    let instr = code.body.items.first().ok_or("an instruction")?;
    Ok(format!(in alloc; "{} {instr:?}", opcode_of(instr))?)
}

/// What is read where this instruction stands alone.
fn read_as(alloc: Global, opcode: u8, operands: &[u8]) -> Result<String, Fail> {
    let bytes = with_instruction(alloc, opcode, operands)?;
    match decode(alloc, &bytes) {
        Ok(module) => first_shown(alloc, &module),
        Err(fault) => Err(Fail::from(fault)),
    }
}

/// The first of these names, of instructions with opcodes that follow one another, that is not read.
pub fn name_not(
    alloc: Global,
    first: u8,
    names: &'static str,
    operands: &[u8],
    shown: &str,
) -> Result<Option<&'static str>, Fail> {
    let mut opcode = first;
    for name in names.split(' ') {
        let expected = format!(in alloc; "{opcode} {name}{shown}")?;
        if read_as(alloc, opcode, operands)?.as_str() != expected.as_str() {
            return Ok(Some(name));
        }
        opcode = opcode.wrapping_add(1);
    }
    Ok(None)
}

/// Reads a module and writes it.
fn read_and_written(alloc: Global, bytes: &[u8]) -> Result<Bytes, ModuleFault> {
    let module = decode(alloc, bytes)?;
    read_fits(bytes, &module);
    match encode(alloc, &module) {
        Ok(written) => Ok(written),
        Err(_) => Err(ModuleFault::NoMemory),
    }
}

/// Compares what a module is when it is read and written.
pub fn compare<R: Abort + AllocGlobal>(rt: &R, given: &[u8], expected: &[u8]) -> Result<(), Fail> {
    let written = read_and_written(rt.alloc(), given)?;
    assert_eq!(rt; written.items.as_slice(), expected);
    Ok(())
}

pub fn compare_opcode<R: Abort + AllocGlobal>(rt: &R, opcode: u8) -> Result<(), Fail> {
    let bytes = with_body(rt.alloc(), &[opcode])?;
    compare(rt, &bytes, &bytes)
}

pub fn relay_written(alloc: Global) -> Result<Bytes, NoMemory> {
    let module = relay(alloc)?;
    relay_fits();
    encode(alloc, &module)
}

fn relay_again(alloc: Global) -> Result<Module, ModuleFault> {
    match relay(alloc) {
        Ok(module) => {
            relay_fits();
            read_back(alloc, &module)
        }
        Err(_) => Err(ModuleFault::NoMemory),
    }
}

/// How many functions the relay module has when it is written and read.
pub fn relay_codes(alloc: Global) -> Result<usize, ModuleFault> {
    match relay_again(alloc) {
        Ok(module) => Ok(module.codes.items.len()),
        Err(fault) => Err(fault),
    }
}
