ghost use Rattle.std.specs.Prelude.{◌≡◌, IfOk};
ghost use Rattle.ic_base.specs.Gives.{Gives};
ghost use Rattle.wm_decode.specs.Readers as readers;
ghost use Rattle.wm_decode.specs.Readers.{expr_at};
ghost use Rattle.wm_decode.specs.Turn.{Turned};

use crate::profile::Profile;
use crate::words::word;
use ic_base::{NoMemory, ReadError, Stack};
use std::alloc::Global;
use wm_tree::{Class, Instrs, Shape, class_of};

/// How an expression goes on after a word.
#[derive(Clone, Copy, Debug)]
enum Turn {
    On,
    /// The word was the `end` of the expression.
    Done,
    /// The word may not be here.
    Wrong,
}

/// What a word does to the open blocks. `blocks` has, of each, whether an `else` may follow in it.
fn go_on(class: Class, blocks: &mut Stack<bool>) -> Result<Turn, NoMemory>
    ensures { IfOk result (λ turn. Turned class blocks.old blocks.new turn) }
{
    match class {
        Class::Opens { shape, result: _ } => {
            blocks.push(may_turn(shape))?;
            Ok(Turn::On)
        }
        Class::Turns => match blocks.pop() {
            Some(true) => {
                blocks.push(false)?;
                Ok(Turn::On)
            }
            _ => Ok(Turn::Wrong),
        },
        Class::Closes => match blocks.pop() {
            Some(_) => Ok(Turn::On),
            None => Ok(Turn::Done),
        },
        _ => Ok(Turn::On),
    }
}

/// Whether an `else` may follow.
fn may_turn(shape: Shape) -> bool
    ensures { result ≡ readers.may_turn shape }
{
    match shape {
        Shape::If => true,
        Shape::Block | Shape::Loop => false,
    }
}

/// Reads an expression. Blocks are kept on a stack of their own: however deep they nest, there is
/// no recursion.
pub(crate) fn expr<'a>(
    alloc: Global,
    profile: Profile,
    bytes: &'a [u8],
) -> Result<(Instrs, &'a [u8]), ReadError>
    ensures { Gives (λ x. (x.0, x.1.now)) result (expr_at profile.float bytes.now) }
{
    let mut items = Vec::new(alloc);
    let mut blocks = Stack::new(alloc);
    let mut rest = bytes;
    for _ in 0..bytes.len() {
        let (instr, after) = word(alloc, profile, rest)?;
        rest = after;
        match go_on(class_of(&instr), &mut blocks)? {
            Turn::On => items.push(instr)?,
            Turn::Done => return Ok((Instrs { items }, rest)),
            Turn::Wrong => return Err(ReadError::Refused),
        }
    }
    Err(ReadError::Refused)
}
