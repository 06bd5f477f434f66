ghost use Rattle.std.specs.Prelude.{◌≡◌};
ghost use Rattle.sha2.specs.Sha256.{sha256};
ghost use Rattle.wm_tree.specs.IsModule.{IsModule};
ghost use Rattle.ic_mgmt_candid.specs.Checks.{MeetsBy};
ghost use Rattle.ic_mgmt_candid.specs.Modules.{module_of, validated};

use crate::cause::Cause;
use crate::denial::{Denial, Unmet};
use sha2::{Digest, Sha256};
use std::alloc::Global;
use wm_decode::{ModuleFault, decode, listing_of};
use wm_tree::Module;
use wm_valid::{Invalid, Refused, Valid, validate};

/// The module with what validation found out, or the check that fails. How its code is written in the bytes is kept beside it.
fn checked(alloc: Global, module: Module, bytes: &[u8]) -> Result<Valid, Unmet>
    requires { IsModule «module» }
    ensures { MeetsBy (λ valid. valid.module) result (validated «module») }
{
    match validate(alloc, module) {
        Ok(valid) => Ok(valid.listed(listing_of(alloc, bytes)?)),
        Err(
            Refused {
                fault: Invalid::NoMemory,
                ..
            },
        ) => Err(Unmet::NoMemory),
        Err(Refused { fault, .. }) => Err(Unmet::Denied(Denial::ModuleRefused(Cause::Unchecked(
            fault,
        )))),
    }
}

/// The module that the bytes are, where they are one and it is valid; else why it is refused. Time
/// and memory grow with the bytes, of which at most 2,097,152 are looked at.
pub fn module_of(alloc: Global, bytes: &[u8]) -> Result<Valid, Unmet>
    ensures { MeetsBy (λ valid. valid.module) result (module_of bytes.now) }
{
    match decode(alloc, bytes) {
        Ok(module) => checked(alloc, module, bytes),
        Err(ModuleFault::NoMemory) => Err(Unmet::NoMemory),
        Err(ModuleFault::TooLarge) => Err(Unmet::Denied(Denial::ModuleRefused(Cause::Undecoded(
            ModuleFault::TooLarge,
        )))),
        Err(ModuleFault::Compressed) => Err(Unmet::Denied(Denial::ModuleRefused(Cause::Undecoded(
            ModuleFault::Compressed,
        )))),
        Err(ModuleFault::Float) => Err(Unmet::Denied(Denial::ModuleRefused(Cause::Undecoded(
            ModuleFault::Float,
        )))),
        Err(ModuleFault::NotModule) => Err(Unmet::Denied(Denial::ModuleRefused(Cause::Undecoded(
            ModuleFault::NotModule,
        )))),
    }
}

/// The hash of a module's bytes (FIPS 180-4, SHA-256).
pub fn hash_of(bytes: &[u8]) -> [u8; 32]
    ensures { result ≡ sha256 bytes.now }
{
    Sha256::digest(bytes)
}
