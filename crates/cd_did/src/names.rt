ghost use Rattle.std.specs.Prelude.{◌≡◌, ◌<◌, [], length, take, IfOk, IfSome};
ghost use Rattle.cd_did.specs.Faults.{is_defined};
ghost use Rattle.cd_did.specs.Rings.{place_from};
ghost use Rattle.cd_did.specs.Places.{HasPlaces};

use cd_grammar::{File, Part};
use ic_base::NoMemory;
use ic_principal::Bytes;
use std::alloc::Global;
use std::collections::BTreeMap;
use std::marker::Model;

type Places = BTreeMap<Vec<u8>, usize>;

// The place of the first definition of each name.
fn put_places(
    alloc: Global,
    definitions: &[(Bytes, Part)],
    places: &mut Places,
) -> Result<(), NoMemory>
    requires { HasPlaces places.old [] (length definitions.now) }
    ensures { IfOk result (λ done. HasPlaces places.new definitions.now 0) }
{
    // From the last on, so that the first of a name stays.
    for place in (0..definitions.len()).rev() {
        let (name, _) = &definitions[place];
        places.insert(Vec::from_slice(alloc, &name.items)?, place)?;
    }
    Ok(())
}

/// A file, with a search tree of the names of its definitions. Contracts see the file.
#[derive(Drop)]
pub(crate) struct Names<'a> {
    file: &'a File,
    places: Places,
}

impl<'a> Model for Names<'a> {
    ghost use Rattle.cd_grammar.specs.File as files;
    ghost use Rattle.cd_did.specs.Places.{HasPlaces};

    ghost Value = { files.File };

    ghost view = { λ n. n.file.now };

    ghost invariant = { λ n. HasPlaces n.places n.file.now.definitions 0 };
}

impl<'a> Names<'a> {
    pub(crate) fn of(alloc: Global, file: &'a File) -> Result<Names<'a>, NoMemory>
        ensures { IfOk result (λ names. names ≡ file.now) }
    {
        let mut places = BTreeMap::new(alloc);
        match put_places(alloc, &file.definitions, &mut places) {
            Ok(()) => Ok(Names { file, places }),
            Err(e) => Err(e),
        }
    }

    pub(crate) fn file(&self) -> &'a File
        ensures { result.now ≡ self.now }
    {
        self.file
    }

    pub(crate) fn definitions(&self) -> &'a [(Bytes, Part)]
        ensures { result.now ≡ self.now.definitions }
    {
        let file = self.file;
        &file.definitions
    }

    /// The place of the first definition with the name.
    pub(crate) fn place_of(&self, name: &[u8]) -> Option<usize>
        ensures value { result ≡ place_from self.now.definitions 0 name.now }
        ensures bound { IfSome result (λ place. place < length self.now.definitions) }
    {
        self.places.get(name).copied()
    }

    /// Whether one of the definitions has the name.
    pub(crate) fn has(&self, name: &[u8]) -> bool
        ensures { result ≡ is_defined self.now.definitions name.now }
    {
        match self.place_of(name) {
            None => false,
            Some(_) => true,
        }
    }

    /// Whether one of the definitions before a place has the name.
    pub(crate) fn has_before(&self, place: usize, name: &[u8]) -> bool
        ensures { result ≡ is_defined (take place self.now.definitions) name.now }
    {
        match self.place_of(name) {
            None => false,
            Some(first) => first < place,
        }
    }
}
