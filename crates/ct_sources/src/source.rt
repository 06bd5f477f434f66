ghost use Rattle.std.specs.Prelude.{◌≡◌, ◌<◌, ◌^◌, IfOk, length};
ghost use Rattle.ct_sources.specs.IsSourceOf.{IsSourceOf};

use crate::file_interface::interface_of;
use crate::file_wasm::wasm_of;
use cd_did::Interface;
use ic_base::NoMemory;
use ic_principal::{Bytes, Text};
use std::alloc::Global;
use std::marker::Model;
use wm_valid::Valid;

/// A file as it was read: its bytes, and what they are as a module and as an interface, or why they are
/// none. Contracts see the bytes, whether they are a module, and the interface.
pub struct Source {
    pub bytes: Bytes,
    pub wasm: Result<Valid, Text>,
    pub interface: Result<Interface, Text>,
}

// Not derived, so that it is proved here and not in each crate that drops one.
impl Drop for Source {
    fn drop(self) {
        let Source {
            bytes: _bytes,
            wasm: _wasm,
            interface: _interface,
        } = self;
    }
}

impl Model for Source {
    ghost use Rattle.std.specs.Prelude.{is_ok};
    ghost use Rattle.std.specs.Result.{result_ok};
    ghost use Rattle.ct_sources.specs.Files.{SourceFile};

    ghost Value = { SourceFile };

    ghost view = { λ s. record { bytes = s.bytes; wasm = is_ok s.wasm; interface = result_ok s.interface } };
}

impl Source {
    /// A file of these bytes. A module has 2,000,000 at most, and an interface a service. Time and memory
    /// grow with the bytes.
    pub fn of(alloc: Global, bytes: Bytes) -> Result<Source, NoMemory>
        ensures { IfOk result (IsSourceOf bytes) }
    {
        let wasm = wasm_of(alloc, &bytes.items)?;
        let interface = interface_of(alloc, &bytes.items)?;
        Ok(Source {
            bytes,
            wasm,
            interface,
        })
    }
}
