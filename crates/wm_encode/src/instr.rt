ghost use Rattle.std.specs.Prelude.{◌≡◌, ◌<◌, ◌^◌, ◌++◌, length, OnOk, All};
ghost use Rattle.wm_tree.specs.Row.{row_of};
ghost use Rattle.wm_encode.specs.Instructions as written;
ghost use Rattle.wm_encode.specs.Ranges.{RangedOperands, RangedMemArg, RangedWord};

use crate::item::{Encode, each_size, list_size, write_each, write_list};
use crate::types::write_block_type;
use ic_base::NoMemory;
use ic_leb::{size_s, write_s};
use wm_tree::{Instr, MemArg, opcode_of};

/// The numbers of `memory.copy` and `memory.fill` after the prefix FC.
const COPY: u32 = 10;

const FILL: u32 = 11;

impl Encode<()> for MemArg {
    ghost bytes = { written.mem_arg };

    ghost Ranged = { RangedMemArg };

    fn size(&self) -> usize {
        self.align.size() + self.offset.size()
    }

    fn write(&self, out: &mut Vec<u8>) -> Result<(), NoMemory> {
        self.align.write(out)?;
        self.offset.write(out)?;
        Ok(())
    }
}

// How many bytes follow the opcode.
fn operands_size(instr: &Instr) -> usize
    requires { length (written.operands (row_of instr.now).operands) < 2 ^ 63 }
    ensures { result ≡ length (written.operands (row_of instr.now).operands) }
{
    match instr {
        Instr::Block(_) | Instr::Loop(_) | Instr::If(_) => 1,
        Instr::Br(x)
        | Instr::BrIf(x)
        | Instr::Call(x)
        | Instr::LocalGet(x)
        | Instr::LocalSet(x)
        | Instr::LocalTee(x)
        | Instr::GlobalGet(x)
        | Instr::GlobalSet(x) => x.size(),
        Instr::BrTable { labels, other } => list_size(&labels.items) + other.size(),
        Instr::CallIndirect(x) => x.size() + 1,
        Instr::I32Load(m)
        | Instr::I64Load(m)
        | Instr::I32Load8S(m)
        | Instr::I32Load8U(m)
        | Instr::I32Load16S(m)
        | Instr::I32Load16U(m)
        | Instr::I64Load8S(m)
        | Instr::I64Load8U(m)
        | Instr::I64Load16S(m)
        | Instr::I64Load16U(m)
        | Instr::I64Load32S(m)
        | Instr::I64Load32U(m)
        | Instr::I32Store(m)
        | Instr::I64Store(m)
        | Instr::I32Store8(m)
        | Instr::I32Store16(m)
        | Instr::I64Store8(m)
        | Instr::I64Store16(m)
        | Instr::I64Store32(m) => m.size(),
        Instr::MemorySize | Instr::MemoryGrow => 1,
        Instr::MemoryCopy => COPY.size() + 2,
        Instr::MemoryFill => FILL.size() + 1,
        Instr::I32Const(z) => size_s(*z as i128),
        Instr::I64Const(z) => size_s(*z as i128),
        _ => 0,
    }
}

// Appends what follows the opcode.
fn write_operands(instr: &Instr, out: &mut Vec<u8>) -> Result<(), NoMemory>
    requires { length (written.operands (row_of instr.now).operands) < 2 ^ 63 }
    ensures written { OnOk result (out.new.items ≡ out.old.items ++ written.operands (row_of instr.now).operands) }
    ensures ranged { OnOk result (RangedOperands (row_of instr.now).operands) }
{
    match instr {
        Instr::Block(t) | Instr::Loop(t) | Instr::If(t) => write_block_type(*t, out)?,
        Instr::Br(x)
        | Instr::BrIf(x)
        | Instr::Call(x)
        | Instr::LocalGet(x)
        | Instr::LocalSet(x)
        | Instr::LocalTee(x)
        | Instr::GlobalGet(x)
        | Instr::GlobalSet(x) => x.write(out)?,
        Instr::BrTable { labels, other } => {
            write_list(&labels.items, out)?;
            other.write(out)?;
        }
        Instr::CallIndirect(x) => {
            x.write(out)?;
            out.push(0x00)?;
        }
        Instr::I32Load(m)
        | Instr::I64Load(m)
        | Instr::I32Load8S(m)
        | Instr::I32Load8U(m)
        | Instr::I32Load16S(m)
        | Instr::I32Load16U(m)
        | Instr::I64Load8S(m)
        | Instr::I64Load8U(m)
        | Instr::I64Load16S(m)
        | Instr::I64Load16U(m)
        | Instr::I64Load32S(m)
        | Instr::I64Load32U(m)
        | Instr::I32Store(m)
        | Instr::I64Store(m)
        | Instr::I32Store8(m)
        | Instr::I32Store16(m)
        | Instr::I64Store8(m)
        | Instr::I64Store16(m)
        | Instr::I64Store32(m) => m.write(out)?,
        Instr::MemorySize | Instr::MemoryGrow => out.push(0x00)?,
        Instr::MemoryCopy => {
            COPY.write(out)?;
            out.push(0x00)?;
            out.push(0x00)?;
        }
        Instr::MemoryFill => {
            FILL.write(out)?;
            out.push(0x00)?;
        }
        Instr::I32Const(z) => write_s(*z as i128, out)?,
        Instr::I64Const(z) => write_s(*z as i128, out)?,
        _ => {}
    }
    Ok(())
}

impl Encode<()> for Instr {
    ghost bytes = { written.word };

    ghost Ranged = { RangedWord };

    fn size(&self) -> usize {
        1 + operands_size(self)
    }

    fn write(&self, out: &mut Vec<u8>) -> Result<(), NoMemory> {
        out.push(opcode_of(self))?;
        write_operands(self, out)?;
        Ok(())
    }
}

pub(crate) fn expr_size(words: &[Instr]) -> usize
    requires { length (written.expr words.now) < 2 ^ 63 }
    ensures { result ≡ length (written.expr words.now) }
{
    each_size(words) + 1
}

/// An expression: its words, and the byte that ends it.
pub(crate) fn write_expr(words: &[Instr], out: &mut Vec<u8>) -> Result<(), NoMemory>
    requires { length (written.expr words.now) < 2 ^ 63 }
    ensures written { OnOk result (out.new.items ≡ out.old.items ++ written.expr words.now) }
    ensures ranged { OnOk result (All RangedWord words.now) }
{
    write_each(words, out)?;
    out.push(0x0B)?;
    Ok(())
}
