ghost use Rattle.std.specs.Prelude.{ℕ, None};
ghost use Rattle.ic_base.specs.Gives.{Gives};
ghost use Rattle.ic_leb.specs.declared.width.Width.TheVariants as width;
ghost use Rattle.ic_leb.specs.Reading.{signed_reader};
ghost use Rattle.wm_decode.specs.Forms.{operand_form, prefix_rows};
ghost use Rattle.wm_decode.specs.Readers.{zero_at, table_at, prefixed_at, mem_arg_at, memory_at, behind_at, float_at, word_at};

use crate::floats::{FloatOperands, admitted};
use crate::opcodes::{access, plain};
use crate::profile::Profile;
use crate::types::block_type;
use crate::values::{byte, list, number};
use ic_base::ReadError;
use ic_leb::{Width, take_s};
use std::alloc::Global;
use wm_tree::{Indices, Instr, MemArg};

/// Reads the byte 00.
#[tactic(auto, unfolding(crate::specs::Readers::zero_at))]
fn zero(bytes: &[u8]) -> Result<(u8, &[u8]), ReadError>
    ensures { Gives (λ x. (x.0, x.1.now)) result (zero_at bytes.now) }
{
    let (code, rest) = byte(bytes)?;
    if code == 0x00 {
        Ok((code, rest))
    } else {
        Err(ReadError::Refused)
    }
}

/// Reads the index of the one table.
#[tactic(auto, unfolding(crate::specs::Readers::table_at))]
fn table(bytes: &[u8]) -> Result<(u32, &[u8]), ReadError>
    ensures { Gives (λ x. (x.0, x.1.now)) result (table_at bytes.now) }
{
    let (index, rest) = number(bytes)?;
    if index == 0 {
        Ok((index, rest))
    } else {
        Err(ReadError::Refused)
    }
}

/// Reads an alignment and an offset.
#[tactic(auto, unfolding(crate::specs::Readers::mem_arg_at))]
fn mem_arg(bytes: &[u8]) -> Result<(MemArg, &[u8]), ReadError>
    ensures { Gives (λ x. (x.0, x.1.now)) result (mem_arg_at bytes.now) }
{
    let (align, rest) = number(bytes)?;
    let (offset, rest) = number(rest)?;
    Ok((MemArg { align, offset }, rest))
}

/// Reads a signed number of 32 bits.
fn signed_32(bytes: &[u8]) -> Result<(i32, &[u8]), ReadError>
    ensures { Gives (λ x. (x.0, x.1.now)) result (signed_reader width.Wasm32 bytes.now) }
{
    let (n, rest) = take_s(bytes, Width::Wasm32)?;
    Ok((n as i32, rest))
}

/// Reads a signed number of 64 bits.
fn signed_64(bytes: &[u8]) -> Result<(i64, &[u8]), ReadError>
    ensures { Gives (λ x. (x.0, x.1.now)) result (signed_reader width.Wasm64 bytes.now) }
{
    let (n, rest) = take_s(bytes, Width::Wasm64)?;
    Ok((n as i64, rest))
}

/// Reads the labels of a `br_table`.
fn br_table(alloc: Global, profile: Profile, bytes: &[u8]) -> Result<(Instr, &[u8]), ReadError>
    ensures { Gives (λ x. (x.0, x.1.now)) result (behind_at profile.float None (operand_form 0x0E) bytes.now) }
{
    let (items, rest) = list(alloc, &profile, bytes)?;
    let (other, rest) = number(rest)?;
    let labels = Indices { items };
    Ok((Instr::BrTable { labels, other }, rest))
}

/// Reads what follows the opcode of a load or store.
fn accessed(opcode: u8, bytes: &[u8]) -> Result<(Instr, &[u8]), ReadError>
    ensures { Gives (λ x. (x.0, x.1.now)) result (memory_at opcode bytes.now) }
{
    let (arg, rest) = mem_arg(bytes)?;
    match access(opcode, arg) {
        Some(instr) => Ok((instr, rest)),
        None => Err(ReadError::Refused),
    }
}

/// Reads what follows the prefix FC.
fn prefixed(bytes: &[u8]) -> Result<(Instr, &[u8]), ReadError>
    ensures { Gives (λ x. (x.0, x.1.now)) result (prefixed_at prefix_rows bytes.now) }
{
    let (opcode, rest) = number(bytes)?;
    match opcode {
        10 => {
            let (_to, rest) = zero(rest)?;
            let (_from, rest) = zero(rest)?;
            Ok((Instr::MemoryCopy, rest))
        }
        11 => {
            let (_zero, rest) = zero(rest)?;
            Ok((Instr::MemoryFill, rest))
        }
        _ => Err(ReadError::Refused),
    }
}

/// Reads what follows an opcode that has operands.
fn with_operands(
    alloc: Global,
    profile: Profile,
    opcode: u8,
    bytes: &[u8],
) -> Result<(Instr, &[u8]), ReadError>
    ensures { Gives (λ x. (x.0, x.1.now)) result (behind_at profile.float None (operand_form opcode) bytes.now) }
{
    match opcode {
        0x02 => {
            let (kind, rest) = block_type(profile, bytes)?;
            Ok((Instr::Block(kind), rest))
        }
        0x03 => {
            let (kind, rest) = block_type(profile, bytes)?;
            Ok((Instr::Loop(kind), rest))
        }
        0x04 => {
            let (kind, rest) = block_type(profile, bytes)?;
            Ok((Instr::If(kind), rest))
        }
        0x0C => {
            let (label, rest) = number(bytes)?;
            Ok((Instr::Br(label), rest))
        }
        0x0D => {
            let (label, rest) = number(bytes)?;
            Ok((Instr::BrIf(label), rest))
        }
        0x0E => br_table(alloc, profile, bytes),
        0x10 => {
            let (function, rest) = number(bytes)?;
            Ok((Instr::Call(function), rest))
        }
        0x11 => {
            let (kind, rest) = number(bytes)?;
            let (_table, rest) = table(rest)?;
            Ok((Instr::CallIndirect(kind), rest))
        }
        0x20 => {
            let (local, rest) = number(bytes)?;
            Ok((Instr::LocalGet(local), rest))
        }
        0x21 => {
            let (local, rest) = number(bytes)?;
            Ok((Instr::LocalSet(local), rest))
        }
        0x22 => {
            let (local, rest) = number(bytes)?;
            Ok((Instr::LocalTee(local), rest))
        }
        0x23 => {
            let (global, rest) = number(bytes)?;
            Ok((Instr::GlobalGet(global), rest))
        }
        0x24 => {
            let (global, rest) = number(bytes)?;
            Ok((Instr::GlobalSet(global), rest))
        }
        0x3F => {
            let (_zero, rest) = zero(bytes)?;
            Ok((Instr::MemorySize, rest))
        }
        0x40 => {
            let (_zero, rest) = zero(bytes)?;
            Ok((Instr::MemoryGrow, rest))
        }
        0x41 => {
            let (n, rest) = signed_32(bytes)?;
            Ok((Instr::I32Const(n), rest))
        }
        0x42 => {
            let (n, rest) = signed_64(bytes)?;
            Ok((Instr::I64Const(n), rest))
        }
        0xFC => prefixed(bytes),
        _ => accessed(opcode, bytes),
    }
}

/// Reads what follows the opcode of a float instruction. `unreachable` stands for each.
fn float_word(operands: FloatOperands, bytes: &[u8]) -> Result<(Instr, &[u8]), ReadError>
    ensures { Gives (λ x. (x.0, x.1.now)) result (float_at operands bytes.now) }
{
    match operands {
        FloatOperands::Nothing => Ok((Instr::Unreachable, bytes)),
        FloatOperands::Address => {
            let (_arg, rest) = mem_arg(bytes)?;
            Ok((Instr::Unreachable, rest))
        }
        FloatOperands::Constant(size) => {
            let size = size as usize;
            if bytes.len() < size {
                return Err(ReadError::Refused);
            }
            Ok((Instr::Unreachable, &bytes[size..]))
        }
    }
}

/// Reads an instruction, an `else` or an `end`.
#[tactic(auto, unfolding(crate::specs::Readers::word_at))]
pub(crate) fn word(
    alloc: Global,
    profile: Profile,
    bytes: &[u8],
) -> Result<(Instr, &[u8]), ReadError>
    ensures { Gives (λ x. (x.0, x.1.now)) result (word_at profile.float bytes.now) }
{
    let (opcode, rest) = byte(bytes)?;
    if let Some(operands) = admitted(profile, opcode) {
        return float_word(operands, rest);
    }
    if let Some(instr) = plain(opcode) {
        return Ok((instr, rest));
    }
    with_operands(alloc, profile, opcode, rest)
}
