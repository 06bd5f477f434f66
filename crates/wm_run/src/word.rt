ghost use Rattle.std.specs.Prelude.{◌≡◌, ◌<◌, length, slice_get, Some};
ghost use Rattle.wm_typing.specs.declared.op.Op.{Op as Word};
ghost use Rattle.wm_typing.specs.FlatCode.{FlatCode as Flat};
ghost use Rattle.wm_typing.specs.Ops.{unhinted};
ghost use Rattle.wm_words.specs.Words.{number_of};

use crate::activation::Activation;
use crate::calls::code_of;
use wm_typing::Op;
use wm_valid::Valid;
use wm_words::operation;

/// The number that a call has.
fn number_of(op: Op) -> u32
    ensures { result ≡ number_of (unhinted op) }
{
    match op {
        Op::Call(number) => number,
        Op::CallHost(number) => number,
        Op::CallIndirect(number) => number,
        _ => 0,
    }
}

/// The number of the call at which a function stopped.
pub(crate) fn number_at(valid: &Valid, here: Activation) -> u32
    requires { (code : Flat) × (slice_get valid.now.codes here.function ≡ Some code) × (here.place < length code.ops) }
    ensures { (code : Flat) (o : Word) → slice_get valid.now.codes here.function ≡ Some code → slice_get code.ops here.place ≡ Some o → result ≡ number_of o }
{
    number_of(operation(&code_of(valid, here.function).ops, here.place))
}
