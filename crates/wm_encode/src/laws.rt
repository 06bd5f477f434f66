ghost use Rattle.std.specs.Prelude.{◌≡◌, ◌≤◌, false, length, MatchResult};
ghost use Rattle.wm_tree.specs.IsModule.{IsModule};
ghost use Rattle.wm_tree.specs.Relay.{relay};
ghost use Rattle.wm_decode.specs.Answer.{largest};
ghost use Rattle.wm_decode.specs.Mod.{Mod};
ghost use Rattle.wm_decode.specs.declared.fault.ModuleFault.TheVariants as fault;
ghost use Rattle.wm_encode.specs.Fits.{Fits};
ghost use Rattle.wm_encode.specs.Whole.{whole};

use crate::writer::encode;
use std::alloc::Global;
use wm_decode::{ModuleFault, decode};
use wm_tree::Module;

/// Writes a module and reads what was written: it is the module again, unless memory runs out.
pub fn read_back(alloc: Global, module: &Module) -> Result<Module, ModuleFault>
    requires fits { Fits «module».now }
    requires small { length (whole «module».now) ≤ largest }
    ensures { MatchResult result (λ m. m ≡ «module».now) (λ e. e ≡ fault.NoMemory) }
{
    match encode(alloc, module) {
        Ok(bytes) => decode(alloc, &bytes.items),
        Err(_) => Err(ModuleFault::NoMemory),
    }
}

/// What was read can be written. It is a law, and does nothing when it is called.
pub fn read_fits(bytes: &[u8], module: &Module)
    requires spelled { Mod false «module».now bytes.now }
    requires kept { IsModule «module».now }
    ensures { Fits «module».now }
{}

/// The relay module can be written and read back. It is a law, and does nothing when it is called.
pub fn relay_fits()
    ensures fits { Fits relay }
    ensures small { length (whole relay) ≤ largest }
{}
