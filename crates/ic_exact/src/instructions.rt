ghost use Rattle.std.specs.Prelude.{◌≡◌, ◌↔◌, IsTrue};
ghost use Rattle.wm_tree.specs.Row.{row_of};
ghost use Rattle.ic_exact.specs.Operands.{operands_seen};

use crate::exact::Same;
use crate::items::same_items;
use wm_tree::{Indices, Instr, Instrs, MemArg, ValType, opcode_of};

/// What follows the opcode of an instruction.
#[derive(Drop)]
enum Operands<'a> {
    Nothing,
    Block(Option<ValType>),
    Index(u32),
    Labels(&'a Indices, u32),
    TypeIndex(u32),
    Memory(MemArg),
    Reserved,
    Prefixed(u32, u32),
    Number32(i32),
    Number64(i64),
}

fn operands_of(instr: &Instr) -> Operands<'_>
    ensures { operands_seen result ≡ (row_of instr.now).operands }
{
    match instr {
        Instr::Block(t) | Instr::Loop(t) | Instr::If(t) => Operands::Block(*t),
        Instr::Br(x)
        | Instr::BrIf(x)
        | Instr::Call(x)
        | Instr::LocalGet(x)
        | Instr::LocalSet(x)
        | Instr::LocalTee(x)
        | Instr::GlobalGet(x)
        | Instr::GlobalSet(x) => Operands::Index(*x),
        Instr::BrTable { labels, other } => Operands::Labels(labels, *other),
        Instr::CallIndirect(x) => Operands::TypeIndex(*x),
        Instr::I32Load(m)
        | Instr::I64Load(m)
        | Instr::I32Load8S(m)
        | Instr::I32Load8U(m)
        | Instr::I32Load16S(m)
        | Instr::I32Load16U(m)
        | Instr::I64Load8S(m)
        | Instr::I64Load8U(m)
        | Instr::I64Load16S(m)
        | Instr::I64Load16U(m)
        | Instr::I64Load32S(m)
        | Instr::I64Load32U(m)
        | Instr::I32Store(m)
        | Instr::I64Store(m)
        | Instr::I32Store8(m)
        | Instr::I32Store16(m)
        | Instr::I64Store8(m)
        | Instr::I64Store16(m)
        | Instr::I64Store32(m) => Operands::Memory(*m),
        Instr::MemorySize | Instr::MemoryGrow => Operands::Reserved,
        Instr::MemoryCopy => Operands::Prefixed(10, 2),
        Instr::MemoryFill => Operands::Prefixed(11, 1),
        Instr::I32Const(z) => Operands::Number32(*z),
        Instr::I64Const(z) => Operands::Number64(*z),
        _ => Operands::Nothing,
    }
}

fn same_block(a: Option<ValType>, b: Option<ValType>) -> bool
    ensures { IsTrue result ↔ (a ≡ b) }
{
    match (a, b) {
        (Some(a), Some(b)) => a.same(&b),
        (None, None) => true,
        _ => false,
    }
}

fn same_operands(a: &Operands, b: &Operands) -> bool
    ensures { IsTrue result ↔ (operands_seen a.now ≡ operands_seen b.now) }
{
    match (a, b) {
        (Operands::Nothing, Operands::Nothing) => true,
        (Operands::Block(a), Operands::Block(b)) => same_block(*a, *b),
        (Operands::Index(a), Operands::Index(b)) => a == b,
        (Operands::Labels(a, m), Operands::Labels(b, n)) => m == n && a.same(b),
        (Operands::TypeIndex(a), Operands::TypeIndex(b)) => a == b,
        (Operands::Memory(a), Operands::Memory(b)) => a.same(b),
        (Operands::Reserved, Operands::Reserved) => true,
        (Operands::Prefixed(a, m), Operands::Prefixed(b, n)) => a == b && m == n,
        (Operands::Number32(a), Operands::Number32(b)) => a == b,
        (Operands::Number64(a), Operands::Number64(b)) => a == b,
        _ => false,
    }
}

impl Same for Instr {
    #[tactic(auto, using(crate::proofs::OneRow::one_row))]
    fn same(&self, other: &Instr) -> bool {
        opcode_of(self) == opcode_of(other)
            && same_operands(&operands_of(self), &operands_of(other))
    }
}

impl Same for Instrs {
    fn same(&self, other: &Instrs) -> bool {
        same_items(self.items.as_slice(), other.items.as_slice())
    }
}
