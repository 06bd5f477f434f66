ghost use Rattle.std.specs.Prelude.{◌≡◌};
ghost use Rattle.wm_decode.specs.Instructions.{float_operands};
ghost use Rattle.wm_decode.specs.Readers.{floats};

use crate::profile::Profile;

/// What follows the opcode of a float instruction.
#[derive(Clone, Copy, Debug)]
pub(crate) enum FloatOperands {
    Nothing,
    /// An alignment and an offset.
    Address,
    /// That many bytes.
    Constant(u8),
}

/// The float instructions (WebAssembly Core 1.0, 5.4).
fn operands_of(opcode: u8) -> Option<FloatOperands>
    ensures { result ≡ float_operands opcode }
{
    match opcode {
        0x2A | 0x2B | 0x38 | 0x39 => Some(FloatOperands::Address),
        0x43 => Some(FloatOperands::Constant(4)),
        0x44 => Some(FloatOperands::Constant(8)),
        0x5B..=0x66 | 0x8B..=0xA6 | 0xA8..=0xAB | 0xAE..=0xBF => Some(FloatOperands::Nothing),
        _ => None,
    }
}

/// The float instruction of an opcode, where floats are admitted.
pub(crate) fn admitted(profile: Profile, opcode: u8) -> Option<FloatOperands>
    ensures { result ≡ floats profile.float opcode }
{
    if profile.float {
        operands_of(opcode)
    } else {
        None
    }
}
