ghost use Rattle.std.specs.Prelude.{◌≡◌, None};
ghost use Rattle.wm_tree.specs.Row.{row_of};
ghost use Rattle.wm_tree.specs.Signatures as row;

use crate::instr::Instr;
use crate::types::{MemArg, ValType};

/// The three structured instructions that a block type and a body follow.
#[derive(Clone, Copy, Debug, PartialEq, Eq)]
pub enum Shape {
    Block,
    Loop,
    If,
}

/// What an instruction takes from the operand stack, `first` the topmost, and what it gives.
#[derive(Clone, Copy, Debug, PartialEq, Eq)]
pub struct Signature {
    pub first: Option<ValType>,
    pub second: Option<ValType>,
    /// Of `memory.copy` and `memory.fill` alone.
    pub third: Option<ValType>,
    pub gives: Option<ValType>,
}

/// How an instruction is typed (WebAssembly Core 1.0, 3.3; Core 2.0, 3.3).
#[derive(Clone, Copy, Debug, PartialEq, Eq)]
pub enum Class {
    /// A block, a loop or an `if` begins.
    Opens {
        shape: Shape,
        result: Option<ValType>,
    },
    /// `else`
    Turns,
    /// `end`
    Closes,
    /// It takes and gives by a signature, and has no further condition.
    Fixed(Signature),
    /// It takes and gives by a signature, and needs a memory.
    Memory(Signature),
    /// A load or a store: the alignment is at most the natural one, both powers of 2.
    Access {
        signature: Signature,
        arg: MemArg,
        natural: u32,
    },
    /// An instruction with a rule of its own.
    Special,
}

/// How the instruction is typed.
pub fn class_of(instr: &Instr) -> Class
    ensures { result ≡ (row_of instr.now).class }
{
    match instr {
        Instr::Nop => Class::Fixed(nothing()),
        Instr::Block(t) => Class::Opens {
            shape: Shape::Block,
            result: *t,
        },
        Instr::Loop(t) => Class::Opens {
            shape: Shape::Loop,
            result: *t,
        },
        Instr::If(t) => Class::Opens {
            shape: Shape::If,
            result: *t,
        },
        Instr::Else => Class::Turns,
        Instr::End => Class::Closes,
        Instr::I32Load(m) => load(ValType::I32, *m, 2),
        Instr::I64Load(m) => load(ValType::I64, *m, 3),
        Instr::I32Load8S(m) | Instr::I32Load8U(m) => load(ValType::I32, *m, 0),
        Instr::I32Load16S(m) | Instr::I32Load16U(m) => load(ValType::I32, *m, 1),
        Instr::I64Load8S(m) | Instr::I64Load8U(m) => load(ValType::I64, *m, 0),
        Instr::I64Load16S(m) | Instr::I64Load16U(m) => load(ValType::I64, *m, 1),
        Instr::I64Load32S(m) | Instr::I64Load32U(m) => load(ValType::I64, *m, 2),
        Instr::I32Store(m) => store(ValType::I32, *m, 2),
        Instr::I64Store(m) => store(ValType::I64, *m, 3),
        Instr::I32Store8(m) => store(ValType::I32, *m, 0),
        Instr::I32Store16(m) => store(ValType::I32, *m, 1),
        Instr::I64Store8(m) => store(ValType::I64, *m, 0),
        Instr::I64Store16(m) => store(ValType::I64, *m, 1),
        Instr::I64Store32(m) => store(ValType::I64, *m, 2),
        Instr::MemorySize => Class::Memory(constant(ValType::I32)),
        Instr::MemoryGrow => Class::Memory(unary(ValType::I32)),
        Instr::MemoryCopy | Instr::MemoryFill => Class::Memory(range_write()),
        Instr::I32Const(_) => Class::Fixed(constant(ValType::I32)),
        Instr::I64Const(_) => Class::Fixed(constant(ValType::I64)),
        Instr::I32Eqz => Class::Fixed(test(ValType::I32)),
        Instr::I32Eq
        | Instr::I32Ne
        | Instr::I32LtS
        | Instr::I32LtU
        | Instr::I32GtS
        | Instr::I32GtU
        | Instr::I32LeS
        | Instr::I32LeU
        | Instr::I32GeS
        | Instr::I32GeU => Class::Fixed(comparison(ValType::I32)),
        Instr::I64Eqz => Class::Fixed(test(ValType::I64)),
        Instr::I64Eq
        | Instr::I64Ne
        | Instr::I64LtS
        | Instr::I64LtU
        | Instr::I64GtS
        | Instr::I64GtU
        | Instr::I64LeS
        | Instr::I64LeU
        | Instr::I64GeS
        | Instr::I64GeU => Class::Fixed(comparison(ValType::I64)),
        Instr::I32Clz | Instr::I32Ctz | Instr::I32Popcnt => Class::Fixed(unary(ValType::I32)),
        Instr::I32Add
        | Instr::I32Sub
        | Instr::I32Mul
        | Instr::I32DivS
        | Instr::I32DivU
        | Instr::I32RemS
        | Instr::I32RemU
        | Instr::I32And
        | Instr::I32Or
        | Instr::I32Xor
        | Instr::I32Shl
        | Instr::I32ShrS
        | Instr::I32ShrU
        | Instr::I32Rotl
        | Instr::I32Rotr => Class::Fixed(binary(ValType::I32)),
        Instr::I64Clz | Instr::I64Ctz | Instr::I64Popcnt => Class::Fixed(unary(ValType::I64)),
        Instr::I64Add
        | Instr::I64Sub
        | Instr::I64Mul
        | Instr::I64DivS
        | Instr::I64DivU
        | Instr::I64RemS
        | Instr::I64RemU
        | Instr::I64And
        | Instr::I64Or
        | Instr::I64Xor
        | Instr::I64Shl
        | Instr::I64ShrS
        | Instr::I64ShrU
        | Instr::I64Rotl
        | Instr::I64Rotr => Class::Fixed(binary(ValType::I64)),
        Instr::I32WrapI64 => Class::Fixed(conversion(ValType::I64, ValType::I32)),
        Instr::I64ExtendI32S | Instr::I64ExtendI32U => Class::Fixed(conversion(
            ValType::I32,
            ValType::I64,
        )),
        Instr::I32Extend8S | Instr::I32Extend16S => Class::Fixed(unary(ValType::I32)),
        Instr::I64Extend8S | Instr::I64Extend16S | Instr::I64Extend32S => {
            Class::Fixed(unary(ValType::I64))
        }
        _ => Class::Special,
    }
}

fn stack_type(first: Option<ValType>, second: Option<ValType>, gives: Option<ValType>) -> Signature
    ensures { result ≡ record { first = first; second = second; third = None; gives = gives } }
{
    Signature {
        first,
        second,
        third: None,
        gives,
    }
}

fn nothing() -> Signature
    ensures { result ≡ row.nothing }
{
    stack_type(None, None, None)
}

fn constant(t: ValType) -> Signature
    ensures { result ≡ row.constant t }
{
    stack_type(None, None, Some(t))
}

fn unary(t: ValType) -> Signature
    ensures { result ≡ row.unary t }
{
    stack_type(Some(t), None, Some(t))
}

fn binary(t: ValType) -> Signature
    ensures { result ≡ row.binary t }
{
    stack_type(Some(t), Some(t), Some(t))
}

fn test(t: ValType) -> Signature
    ensures { result ≡ row.test t }
{
    stack_type(Some(t), None, Some(ValType::I32))
}

fn comparison(t: ValType) -> Signature
    ensures { result ≡ row.comparison t }
{
    stack_type(Some(t), Some(t), Some(ValType::I32))
}

fn conversion(from: ValType, to: ValType) -> Signature
    ensures { result ≡ row.conversion from to }
{
    stack_type(Some(from), None, Some(to))
}

fn range_write() -> Signature
    ensures { result ≡ row.range_write }
{
    Signature {
        first: Some(ValType::I32),
        second: Some(ValType::I32),
        third: Some(ValType::I32),
        gives: None,
    }
}

fn load(t: ValType, arg: MemArg, natural: u32) -> Class
    ensures { result ≡ row.load t arg natural }
{
    Class::Access {
        signature: conversion(ValType::I32, t),
        arg,
        natural,
    }
}

fn store(t: ValType, arg: MemArg, natural: u32) -> Class
    ensures { result ≡ row.store t arg natural }
{
    Class::Access {
        signature: stack_type(Some(t), Some(ValType::I32), None),
        arg,
        natural,
    }
}
