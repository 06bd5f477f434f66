ghost use Rattle.std.specs.Prelude.{◌≡◌, ◌↔◌, IsNone, IfSome, false, true, slice_get};

use crate::entry::EntryName;
use crate::methods::Entries;
use crate::system_api::SystemCall;
use std::marker::Model;
use wm_tree::{Listing, Module};
use wm_typing::FlatCode;

/// A module that is valid, with what validation found out.
#[derive(Debug)]
pub struct Valid {
    module: Module,
    calls: Vec<SystemCall>,
    codes: Vec<FlatCode>,
    entries: Entries,
    /// How its code is written, where that is kept. Contracts do not see it, so nothing that is said of a module or of
    /// what it does depends on it.
    listing: Option<Listing>,
}

// Not derived, so that it is proved here and not in each crate that drops one.
impl Drop for Valid {
    fn drop(self) {
        let Valid {
            module: _module,
            calls: _calls,
            codes: _codes,
            entries: _entries,
            listing: _listing,
        } = self;
    }
}

impl Model for Valid {
    ghost use Rattle.wm_valid.specs.IsValid.{Validated, validated, IsValid};
    ghost use Rattle.wm_valid.specs.Methods.{HasEntries};

    ghost Value = { Validated };

    ghost view = { λ v. validated v.«module» v.calls.items v.codes.items };

    ghost invariant = { λ v. IsValid (validated v.«module» v.calls.items v.codes.items)
        × HasEntries v.entries v.«module».exports };
}

impl Valid {
    ghost use Rattle.std.specs.Option.{option_copied};
    ghost use Rattle.wm_valid.specs.Entries.{entry_of, exports_name, name_of};
    ghost use Rattle.wm_valid.specs.IsValid.{validated, IsValid};
    ghost use Rattle.wm_valid.specs.Indices.{is_procedure};
    ghost use Rattle.wm_valid.specs.Methods.{HasEntries};
    ghost use Rattle.wm_valid.specs.Space.{type_of};

    /// A module with what its validation found out.
    pub(crate) fn new(
        module: Module,
        calls: Vec<SystemCall>,
        codes: Vec<FlatCode>,
        entries: Entries,
    ) -> Valid
        requires valid { IsValid (validated «module» calls.items codes.items) }
        requires entries { HasEntries entries «module».exports }
        ensures { result.module ≡ «module» }
    {
        Valid {
            module,
            calls,
            codes,
            entries,
            listing: None,
        }
    }

    /// The same with how its code is written kept beside it, so that where it traps can be told as a place in the
    /// module's bytes.
    pub fn listed(self, listing: Listing) -> Valid
        ensures { result ≡ self }
    {
        let Valid {
            module,
            calls,
            codes,
            entries,
            listing: _before,
        } = self;
        Valid {
            module,
            calls,
            codes,
            entries,
            listing: Some(listing),
        }
    }

    /// How its code is written, where that is kept. It is what was handed to `listed`.
    pub fn listing(&self) -> Option<&Listing> {
        self.listing.as_ref()
    }

    /// The module.
    pub fn module(&self) -> &Module
        ensures same { result.now ≡ self.now.module }
        // Whoever holds a `Valid` may rest on what validation found out.
        ensures valid { IsValid self.now }
    {
        &self.module
    }

    /// The System API's call that the import of this number is, if there is such an import. Hosts
    /// know it by the call's own number.
    pub fn system_call(&self, import: u32) -> Option<SystemCall>
        ensures { result ≡ slice_get self.now.calls import }
    {
        self.calls.get(import as usize).copied()
    }

    /// What a machine runs by, of the function of this number among the defined ones. By `module`'s
    /// clause `valid` it suits the function's body.
    pub fn code(&self, function: u32) -> Option<&FlatCode>
        ensures { option_copied result ≡ slice_get self.now.codes function }
    {
        self.codes.get(function as usize)
    }

    /// The function that is exported as this entry point. The name is that of the method, and is
    /// read for `Update` and `Query` alone. It is looked up in a search tree.
    pub fn entry(&self, kind: EntryName, name: &str) -> Option<u32>
        ensures entry { result ≡ entry_of self.now.module kind name.now }
        // There is one exactly where something has its name.
        ensures none { IsNone result
            ↔ (exports_name self.now.module.exports (name_of kind name.now) ≡ false) }
        // It takes nothing and gives nothing.
        ensures procedure { IfSome result (λ f. is_procedure (type_of self.now.module f) ≡ true) }
    {
        self.entries.get(kind, name.as_bytes())
    }
}
