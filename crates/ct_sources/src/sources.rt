ghost use Rattle.std.specs.Prelude.{◌≡◌, ◌++◌, ◌∷◌, [], IfOk, OnOk, option_map};
ghost use Rattle.std.specs.Result.{result_ok};
ghost use Rattle.ct_sources.specs.Files.{file_at, file_bytes, file_named, wasm_place, interface_id, interface_file, interface_of, interface_text, with_file};
ghost use Rattle.ct_sources.specs.IsSourceOf.{IsSourceOf};

use crate::management::{MANAGEMENT, management};
use crate::source::Source;
use cd_did::Interface;
use ct_scope::{ByName, InterfaceId};
use ic_base::NoMemory;
use ic_principal::{Bytes, Text};
use std::alloc::Global;
use std::marker::Model;

/// The files that a test file names, in the order in which they were put in, and the interface file of
/// the management canister. Contracts see these.
pub struct Sources {
    // A file that could not be read has no source.
    files: Vec<Option<Source>>,
    places: ByName<usize>,
    management: Source,
}

// Not derived, so that it is proved here and not in each crate that drops one.
impl Drop for Sources {
    fn drop(self) {
        let Sources {
            files: _files,
            places: _places,
            management: _management,
        } = self;
    }
}

impl Model for Sources {
    ghost use Rattle.ct_sources.specs.Files.{Files};

    ghost Value = { Files };

    ghost view = { λ s. record { files = s.files.items; places = s.places; management = s.management } };
}

impl Sources {
    /// No files.
    pub fn new(alloc: Global) -> Result<Sources, NoMemory>
        ensures files { IfOk result (λ sources. sources.files ≡ []) }
        ensures places { IfOk result (λ sources. sources.places ≡ []) }
        ensures management { IfOk result (λ sources. IsSourceOf MANAGEMENT.now sources.management) }
    {
        Ok(Sources {
            files: Vec::new(alloc),
            places: ByName::new(alloc),
            management: management(alloc)?,
        })
    }

    /// Puts in a file under its name; without a source it could not be read.
    pub fn put(
        &mut self,
        alloc: Global,
        name: &Text,
        source: Option<Source>,
    ) -> Result<(), NoMemory>
        ensures { OnOk result (self.new ≡ with_file self.old name.now source) }
    {
        let place = self.files.len();
        self.files.push(source)?;
        self.places.put(alloc, name.items.as_bytes(), place)
    }

    /// The source of the file at a place, if it could be read.
    pub fn file(&self, place: usize) -> Option<&Source>
        ensures { option_map (λ source. source.now) result ≡ file_at self.now place }
    {
        match self.files.get(place) {
            None => None,
            Some(file) => match file {
                None => None,
                Some(source) => Some(source),
            },
        }
    }

    /// The bytes of the file at a place, if it could be read.
    pub fn bytes(&self, place: usize) -> Option<&Bytes>
        ensures found { option_map (λ bytes. bytes.now) result ≡ file_bytes self.now place }
    {
        match self.file(place) {
            None => None,
            Some(source) => Some(&source.bytes),
        }
    }

    // The file that an interface comes from.
    fn interface_file(&self, id: InterfaceId) -> Option<&Source>
        ensures { option_map (λ source. source.now) result ≡ interface_file self.now id }
    {
        match id {
            InterfaceId::Management => Some(&self.management),
            InterfaceId::File(place) => self.file(place),
        }
    }

    /// The interface of a canister.
    pub fn interface(&self, id: InterfaceId) -> Option<&Interface>
        ensures { option_map (λ interface. interface.now) result ≡ interface_of self.now id }
    {
        match self.interface_file(id) {
            None => None,
            Some(source) => match &source.interface {
                Ok(interface) => Some(interface),
                Err(_) => None,
            },
        }
    }

    /// The text that an interface comes from, without bytes where there is none.
    pub fn interface_text(&self, id: InterfaceId) -> &[u8]
        ensures found { result.now ≡ interface_text self.now id }
    {
        match self.interface_file(id) {
            None => &[],
            Some(source) => &source.bytes.items,
        }
    }

    // The source of the file with a name, and its place.
    fn named(&self, name: &Text) -> Option<(usize, &Source)>
        ensures { option_map (λ found. (found.0, found.1.now)) result ≡ file_named self.now name.now }
    {
        match self.places.get(name.items.as_bytes()) {
            None => None,
            Some(place) => match self.file(place) {
                None => None,
                Some(source) => Some((place, source)),
            },
        }
    }

    /// The place of the module with a name, or why there is none: nothing is said where it could
    /// not be read.
    pub fn wasm_named(&self, name: &Text) -> Result<usize, Option<&Text>>
        ensures { result_ok result ≡ wasm_place self.now name.now }
    {
        match self.named(name) {
            None => Err(None),
            Some((place, source)) => match &source.wasm {
                Ok(_) => Ok(place),
                Err(reason) => Err(Some(reason)),
            },
        }
    }

    /// The interface with a name, or why there is none: nothing is said where it could
    /// not be read.
    pub fn interface_named(&self, name: &Text) -> Result<InterfaceId, Option<&Text>>
        ensures { result_ok result ≡ interface_id self.now name.now }
    {
        match self.named(name) {
            None => Err(None),
            Some((place, source)) => match &source.interface {
                Ok(_) => Ok(InterfaceId::File(place)),
                Err(reason) => Err(Some(reason)),
            },
        }
    }
}
