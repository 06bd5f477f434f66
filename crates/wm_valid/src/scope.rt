ghost use Rattle.std.specs.Prelude.{◌≡◌, map};
ghost use Rattle.wm_valid.specs.Bodies.{hosts_of};
ghost use Rattle.wm_valid.specs.Space.{function_types};

use wm_tree::{GlobalType, Module};

/// A module, and what its bodies may name beside what is in it.
#[derive(Clone, Copy)]
pub(crate) struct Scope<'a> {
    pub(crate) module: &'a Module,
    /// The index of each function's type, the imported functions first.
    pub(crate) functions: &'a [u32],
    /// The place of each imported call in the table of the System API.
    pub(crate) hosts: &'a [u32],
    /// The type of each global.
    pub(crate) globals: &'a [GlobalType],
    ghost indexed: { functions.now ≡ function_types «module».now },
    ghost numbered: { hosts.now ≡ hosts_of «module».now },
    ghost typed: { globals.now ≡ map (λ g. g.kind) «module».now.globals },
}
