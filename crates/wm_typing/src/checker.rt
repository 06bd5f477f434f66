ghost use Rattle.std.specs.Prelude.{◌≡◌, [], false, None, IsTrue, OnOk, slice_get};
ghost use Rattle.wm_tree.specs.declared.class.Shape.TheVariants as shape;
ghost use Rattle.wm_typing.specs.Checks.{Moves, Pops, Gives, EndsWith, PopsFrame, Becomes, has_all_parts};
ghost use Rattle.wm_typing.specs.Points as points;
ghost use Rattle.wm_typing.specs.Flat.{levels, around, branches, labels, label_type, entered, turned, closed_to, to_label, height};
ghost use Rattle.wm_typing.specs.Runs.{branch};

use crate::fault::BodyFault;
use crate::flat::Branch;
use crate::number::in_u32;
use crate::operand::Operand;
use ic_base::{NoMemory, Stack};
use std::alloc::Global;
use std::marker::Model;
use wm_tree::{Shape, ValType};

/// A block that is open, or the body itself.
#[derive(Clone, Copy, Debug)]
pub(crate) struct ControlFrame {
    pub(crate) shape: Shape,
    /// Where a branch to it leads.
    pub(crate) target: u32,
    pub(crate) result: Option<ValType>,
    /// The number of operands below its own.
    pub(crate) height: u32,
    /// Whether what follows can't be reached.
    pub(crate) is_unreachable: bool,
}

/// The operands and the open blocks at a point of a body (WebAssembly Core 1.0, appendix "Validation
/// Algorithm"). Contracts see the operands by the blocks that they belong to.
#[derive(Debug, Drop)]
pub(crate) struct Checker {
    operands: Stack<Operand>,
    frame: ControlFrame,
    // The frames around it.
    outer: Stack<ControlFrame>,
}

impl Model for Checker {
    ghost use Rattle.std.specs.Prelude.{◌≤◌, length};
    ghost use Rattle.wm_typing.specs.Flat.{Levels};

    ghost Value = { Levels };

    ghost use Rattle.wm_typing.specs.Checks.{levels_of, Descends};

    ghost view = { λ c. levels_of c.operands c.frame c.outer };

    ghost invariant = { λ c. (c.frame.height ≤ length c.operands) × Descends c.frame.height c.outer };
}

/// A block that begins where the operands have that height.
fn control_frame(shape: Shape, target: u32, gives: Option<ValType>, height: u32) -> ControlFrame
    ensures { result ≡ record {
      shape = shape;
      target = target;
      result = gives;
      height = height;
      is_unreachable = false;
    } }
{
    ControlFrame {
        shape,
        target,
        result: gives,
        height,
        is_unreachable: false,
    }
}

#[tactic(auto, unfolding(crate::specs::Checks::levels_of))]
impl Checker {
    /// At the start of a body that ends at the target.
    pub(crate) fn new(alloc: Global, target: u32, gives: Option<ValType>) -> Self
        ensures { result ≡ levels points.start (around shape.Block target gives []) }
    {
        Checker {
            operands: Stack::new(alloc),
            frame: control_frame(Shape::Block, target, gives, 0),
            outer: Stack::new(alloc),
        }
    }

    /// The number of operands.
    pub(crate) fn height(&self) -> usize
        ensures { result ≡ height self.now }
    {
        self.operands.len()
    }

    /// Puts an operand on top.
    pub(crate) fn give(&mut self, operand: Operand) -> Result<(), NoMemory>
        ensures { OnOk result (self.new ≡ levels (points.give operand self.old.point) self.old.around) }
    {
        self.operands.push(operand)?;
        Ok(())
    }

    /// Puts an operand of the type on top, if there is one.
    pub(crate) fn give_maybe(&mut self, t: Option<ValType>) -> Result<(), NoMemory>
        ensures { OnOk result (self.new ≡ levels (points.give_maybe t self.old.point) self.old.around) }
    {
        match t {
            Some(t) => self.give(Operand::Known(t)),
            None => Ok(()),
        }
    }

    /// Takes the topmost operand of the block. Where the point can't be reached, there is always one.
    pub(crate) fn pop(&mut self) -> Result<Operand, BodyFault>
        ensures { Pops self.old self.new result }
    {
        if self.operands.len() > self.frame.height as usize {
            if let Some(operand) = self.operands.pop() {
                return Ok(operand);
            }
        }
        if self.frame.is_unreachable {
            Ok(Operand::Any)
        } else {
            Err(BodyFault::Untyped)
        }
    }

    /// Takes the topmost operand, which must fit the type.
    pub(crate) fn take(&mut self, t: ValType) -> Result<(), BodyFault>
        ensures { Moves self.old self.new result (points.take t self.old.point) }
    {
        let operand = self.pop()?;
        if operand.fits(t) {
            Ok(())
        } else {
            Err(BodyFault::Untyped)
        }
    }

    /// Takes an operand of the type, if there is one.
    pub(crate) fn take_maybe(&mut self, t: Option<ValType>) -> Result<(), BodyFault>
        ensures { Moves self.old self.new result (points.take_maybe t self.old.point) }
    {
        match t {
            Some(t) => self.take(t),
            None => Ok(()),
        }
    }

    /// Whether the point can't be reached and none of its operands is known.
    fn is_bottomless(&self) -> bool
        ensures { IsTrue result → self.now.point ≡ points.unreachable }
    {
        let height = self.frame.height as usize;
        if self.operands.len() == height {
            self.frame.is_unreachable
        } else {
            false
        }
    }

    /// Takes operands of these types, the last from the top.
    pub(crate) fn take_all(&mut self, types: &[ValType]) -> Result<(), BodyFault>
        ensures { Moves self.old self.new result (points.take_all types.now self.old.point) }
    {
        for i in (0..types.len()).rev() {
            // It gives all that is asked for, however long the list.
            if self.is_bottomless() {
                return Ok(());
            }
            self.take(types[i])?;
        }
        Ok(())
    }

    /// Gives operands of these types, the last on top.
    pub(crate) fn give_all(&mut self, types: &[ValType]) -> Result<(), NoMemory>
        ensures { OnOk result
            (self.new ≡ levels (points.give_all types.now self.old.point) self.old.around) }
    {
        for t in types {
            self.give(Operand::Known(*t))?;
        }
        Ok(())
    }

    /// What follows can't be reached, until the block ends.
    pub(crate) fn set_unreachable(&mut self)
        ensures { self.new ≡ levels points.unreachable self.old.around }
    {
        self.operands.truncate(self.frame.height as usize);
        self.frame.is_unreachable = true;
    }

    /// A block begins.
    pub(crate) fn open(
        &mut self,
        shape: Shape,
        target: u32,
        gives: Option<ValType>,
    ) -> Result<(), NoMemory>
        ensures { OnOk result (self.new ≡ entered shape target gives self.old) }
    {
        let height = in_u32(self.operands.len())?;
        self.outer.push(self.frame)?;
        self.frame = control_frame(shape, target, gives, height);
        Ok(())
    }

    /// How a branch to the label leads. The innermost block has label 0.
    pub(crate) fn label(&self, label: u32) -> Option<Branch>
        ensures { result ≡ slice_get (branches self.now.around) label }
    {
        if label == 0 {
            return Some(branch_to(&self.frame));
        }
        match self.outer.nth(label as usize - 1) {
            Some(frame) => Some(branch_to(frame)),
            None => None,
        }
    }

    /// What a branch to the label takes.
    pub(crate) fn label_type(&self, label: u32) -> Result<Option<ValType>, BodyFault>
        ensures { Gives (λ t. t) result (slice_get (labels self.now.around) label) }
    {
        match self.label(label) {
            Some(branch) => Ok(branch.result),
            None => Err(BodyFault::Untyped),
        }
    }

    /// How a branch to the label leads, or anything where there is no such label.
    pub(crate) fn to_label(&self, label: u32) -> Branch
        ensures { result ≡ to_label self.now label }
    {
        match self.label(label) {
            Some(branch) => branch,
            None => Branch::jump(0),
        }
    }

    /// Takes the result of the innermost block, after which nothing may be left.
    pub(crate) fn end(&mut self) -> Result<(), BodyFault>
        ensures { EndsWith self.old self.new result }
    {
        let gives = self.frame.result;
        self.take_maybe(gives)?;
        if self.operands.len() == self.frame.height as usize {
            Ok(())
        } else {
            Err(BodyFault::Untyped)
        }
    }

    /// The innermost block begins again as one that is no `if`.
    fn begin_again(&mut self)
        requires { self.old.point.operands ≡ [] }
        ensures { let a = self.old.around in
            self.new ≡ levels points.start (around shape.Block a.target a.result a.outer) }
    {
        self.frame.shape = Shape::Block;
        self.frame.is_unreachable = false;
    }

    /// The `else` of an `if`.
    pub(crate) fn turn(&mut self) -> Result<(), BodyFault>
        ensures { Becomes self.new result (turned self.old.around.shape self.old) }
    {
        match self.frame.shape {
            Shape::If => {
                self.end()?;
                self.begin_again();
                Ok(())
            }
            Shape::Block | Shape::Loop => Err(BodyFault::Untyped),
        }
    }

    /// The innermost block goes. False: it is the body.
    fn pop_frame(&mut self) -> bool
        requires { self.old.point.operands ≡ [] }
        ensures { PopsFrame self.old.around.outer self.new result }
    {
        match self.outer.pop() {
            Some(frame) => {
                self.frame = frame;
                true
            }
            None => false,
        }
    }

    /// The innermost block ends, and gives its result.
    pub(crate) fn close(&mut self) -> Result<(), BodyFault>
        ensures { Becomes self.new result (closed_to self.old.around.outer self.old) }
    {
        let shape = self.frame.shape;
        let gives = self.frame.result;
        self.end()?;
        if has_all_parts(shape, gives) && self.pop_frame() {
            self.give_maybe(gives)?;
            Ok(())
        } else {
            Err(BodyFault::Untyped)
        }
    }
}

/// Whether a block of that shape may end: an `if` without `else` gives nothing.
fn has_all_parts(shape: Shape, gives: Option<ValType>) -> bool
    ensures { result ≡ has_all_parts shape gives }
{
    match (shape, gives) {
        (Shape::If, Some(_)) => false,
        _ => true,
    }
}

/// How a branch to the block leads.
fn branch_to(frame: &ControlFrame) -> Branch
    ensures { result
        ≡ branch frame.now.target frame.now.height (label_type frame.now.shape frame.now.result) }
{
    let taken = match frame.shape {
        Shape::Block | Shape::If => frame.result,
        Shape::Loop => None,
    };
    Branch {
        target: frame.target,
        height: frame.height,
        result: taken,
    }
}
