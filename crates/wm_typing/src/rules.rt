ghost use Rattle.std.specs.Prelude.{◌≡◌, ◌&&◌, cond, None, slice_get};
ghost use Rattle.std.specs.List.{list_all};
ghost use Rattle.wm_typing.specs.Checks.{Moves, Becomes};
ghost use Rattle.wm_typing.specs.Flat.{labels, opened, flat_step};
ghost use Rattle.wm_typing.specs.Points as points;
ghost use Rattle.wm_typing.specs.Typed as typed;

use crate::checker::Checker;
use crate::context::Context;
use crate::fault::BodyFault;
use crate::operand::Operand;
use crate::stops::Stop;
use wm_tree::{Class, FuncType, GlobalType, Instr, Shape, Signature, ValType, class_of};

/// An instruction that takes and gives by its signature.
fn by_signature(checker: &mut Checker, signature: Signature) -> Result<(), BodyFault>
    ensures { Moves checker.old checker.new result (typed.by_signature signature checker.old.point) }
{
    checker.take_maybe(signature.first)?;
    checker.take_maybe(signature.second)?;
    checker.take_maybe(signature.third)?;
    checker.give_maybe(signature.gives)?;
    Ok(())
}

/// A call of a function of the type.
fn by_type(checker: &mut Checker, t: &FuncType) -> Result<(), BodyFault>
    ensures { Moves checker.old checker.new result (typed.by_type t.now checker.old.point) }
{
    checker.take_all(&t.params.items)?;
    checker.give_all(&t.results.items)?;
    Ok(())
}

fn select(checker: &mut Checker) -> Result<(), BodyFault>
    ensures { Moves checker.old checker.new result (typed.select checker.old.point) }
{
    checker.take(ValType::I32)?;
    let first = checker.pop()?;
    let second = checker.pop()?;
    match first.common(second) {
        Some(operand) => {
            checker.give(operand)?;
            Ok(())
        }
        None => Err(BodyFault::Untyped),
    }
}

/// Whether the label takes the type.
fn takes(checker: &Checker, t: Option<ValType>, label: u32) -> bool
    ensures { result ≡ typed.label_has t (slice_get (labels checker.now.around) label) }
{
    match checker.label(label) {
        Some(branch) => t == branch.result,
        None => false,
    }
}

/// Whether each label takes the type.
fn all_take(checker: &Checker, t: Option<ValType>, ls: &[u32]) -> bool
    ensures { result ≡ list_all (λ l. typed.label_has t (slice_get (labels checker.now.around) l)) ls.now }
{
    ls.iter().all(|l| takes(checker, t, *l))
}

fn br_table(checker: &mut Checker, ls: &[u32], other: u32) -> Result<(), BodyFault>
    ensures { Moves checker.old checker.new result
        (typed.branch_table (labels checker.old.around) ls.now other checker.old.point) }
{
    checker.take(ValType::I32)?;
    let t = checker.label_type(other)?;
    checker.take_maybe(t)?;
    if all_take(checker, t, ls) {
        checker.set_unreachable();
        Ok(())
    } else {
        Err(BodyFault::Untyped)
    }
}

/// A `br` or a `return`, which takes the type.
fn leave(checker: &mut Checker, t: Option<ValType>) -> Result<(), BodyFault>
    ensures { Moves checker.old checker.new result (typed.leaving t checker.old.point) }
{
    checker.take_maybe(t)?;
    checker.set_unreachable();
    Ok(())
}

fn br_if(checker: &mut Checker, label: u32) -> Result<(), BodyFault>
    ensures { Moves checker.old checker.new result
        (typed.branch_if (labels checker.old.around) label checker.old.point) }
{
    checker.take(ValType::I32)?;
    let t = checker.label_type(label)?;
    checker.take_maybe(t)?;
    checker.give_maybe(t)?;
    Ok(())
}

fn call_indirect(checker: &mut Checker, t: &FuncType) -> Result<(), BodyFault>
    ensures { Moves checker.old checker.new result (typed.indirect t.now checker.old.point) }
{
    checker.take(ValType::I32)?;
    by_type(checker, t)
}

/// A `global.set`.
fn set_global(checker: &mut Checker, g: GlobalType) -> Result<(), BodyFault>
    ensures { Moves checker.old checker.new result
        (cond g.mutable (points.take g.kind checker.old.point) None) }
{
    if g.mutable {
        checker.take(g.kind)
    } else {
        Err(BodyFault::Untyped)
    }
}

/// An instruction for a local or a global.
fn variable(checker: &mut Checker, context: &Context, instr: &Instr) -> Result<(), BodyFault>
    ensures { Moves checker.old checker.new result (typed.variable context.now instr.now checker.old.point) }
{
    match instr {
        Instr::LocalGet(n) => {
            let t = context.local(*n)?;
            checker.give(Operand::Known(t))?;
            Ok(())
        }
        Instr::LocalSet(n) => {
            let t = context.local(*n)?;
            checker.take(t)
        }
        Instr::LocalTee(n) => {
            let t = context.local(*n)?;
            checker.take(t)?;
            checker.give(Operand::Known(t))?;
            Ok(())
        }
        Instr::GlobalGet(n) => {
            let g = context.global(*n)?;
            checker.give(Operand::Known(g.kind))?;
            Ok(())
        }
        Instr::GlobalSet(n) => {
            let g = context.global(*n)?;
            set_global(checker, g)
        }
        _ => Err(BodyFault::Untyped),
    }
}

/// An instruction with a rule of its own.
fn special(checker: &mut Checker, context: &Context, instr: &Instr) -> Result<(), BodyFault>
    ensures { Moves checker.old checker.new result
        (typed.special context.now (labels checker.old.around) instr.now checker.old.point) }
{
    match instr {
        Instr::Unreachable => {
            checker.set_unreachable();
            Ok(())
        }
        Instr::Br(label) => {
            let t = checker.label_type(*label)?;
            leave(checker, t)
        }
        Instr::BrIf(label) => br_if(checker, *label),
        Instr::BrTable { labels, other } => br_table(checker, &labels.items, *other),
        Instr::Return => leave(checker, context.result),
        Instr::Call(f) => {
            let t = context.type_of(*f)?;
            by_type(checker, t)
        }
        Instr::CallIndirect(n) => {
            let t = context.indirect_type(*n)?;
            call_indirect(checker, t)
        }
        Instr::Drop => {
            let _ = checker.pop()?;
            Ok(())
        }
        Instr::Select => select(checker),
        _ => variable(checker, context, instr),
    }
}

/// A block begins.
fn open(
    checker: &mut Checker,
    place: u32,
    stop: Stop,
    shape: Shape,
    gives: Option<ValType>,
) -> Result<(), BodyFault>
    ensures { Becomes checker.new result (opened place stop shape gives checker.old) }
{
    match shape {
        Shape::Block => checker.open(Shape::Block, stop.past_end, gives)?,
        Shape::Loop => checker.open(Shape::Loop, place, gives)?,
        Shape::If => {
            checker.take(ValType::I32)?;
            checker.open(Shape::If, stop.past_end, gives)?;
        }
    }
    Ok(())
}

/// An instruction that needs a memory.
fn with_memory(
    checker: &mut Checker,
    context: &Context,
    is_aligned: bool,
    signature: Signature,
) -> Result<(), BodyFault>
    ensures { Moves checker.old checker.new result
        (cond (context.now.has_memory && is_aligned)
        (typed.by_signature signature checker.old.point) None) }
{
    if context.has_memory && is_aligned {
        by_signature(checker, signature)
    } else {
        Err(BodyFault::Untyped)
    }
}

/// The word at a place, whose innermost open block after it has that stop.
pub(crate) fn step(
    checker: &mut Checker,
    context: &Context,
    place: u32,
    stop: Stop,
    instr: &Instr,
) -> Result<(), BodyFault>
    ensures { Becomes checker.new result (flat_step context.now place stop instr.now checker.old) }
{
    match class_of(instr) {
        Class::Opens {
            shape,
            result: gives,
        } => open(checker, place, stop, shape, gives),
        Class::Turns => checker.turn(),
        Class::Closes => checker.close(),
        Class::Fixed(signature) => by_signature(checker, signature),
        Class::Memory(signature) => with_memory(checker, context, true, signature),
        Class::Access {
            signature,
            arg,
            natural,
        } => with_memory(checker, context, arg.align <= natural, signature),
        Class::Special => special(checker, context, instr),
    }
}
