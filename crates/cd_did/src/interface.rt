ghost use Rattle.std.specs.Prelude.{◌≡◌, ◌<◌, ◌^◌, length, IfOk};
ghost use Rattle.cd_grammar.specs.File as files;
ghost use Rattle.cd_grammar.specs.Grammar.{IsFile};
ghost use Rattle.cd_did.specs.Answers.{Answers, TellsOfAFile};
ghost use Rattle.cd_did.specs.Denotes.{InitStands};
ghost use Rattle.cd_grammar.specs.Fits.{FitsFile};
ghost use Rattle.cd_did.specs.Interfaces.{HasEnded, service_at, init_at, IsTabled, IsWithin, IsInitWithin};
ghost use Rattle.cd_did.specs.InterfaceOf.{interface_in, IsAnswer};
ghost use Rattle.cd_did.specs.Judges.{Judges};

use crate::entries::entries_of;
use crate::fault::{DidFault, Interface};
use crate::kinds::is_served;
use crate::names::Names;
use crate::settled::settled;
use crate::targets::{Ended, target_of, targets_of};
use cd_grammar::{File, file_of};
use cd_types::{Entry, TyRef, TyRefs, TypeTable};
use ic_base::{NoMemory, ReadError};
use std::alloc::Global;

// The reference to the service, if there is one.
fn service_of(ended: &Ended<'_, '_>) -> Option<TyRef>
    ensures { result ≡ service_at ended.now.names.now ended.now.ends.now }
{
    match &ended.names.file().main {
        None => None,
        Some(main) => Some(target_of(ended, &main.service)),
    }
}

// The types that the service is installed with.
fn init_of(ended: &Ended<'_, '_>) -> Result<TyRefs, NoMemory>
    ensures { IfOk result (λ init. init ≡ init_at ended.now.names.now ended.now.ends.now) }
{
    match &ended.names.file().main {
        None => targets_of(ended, &[]),
        Some(main) => targets_of(ended, &main.tuple.items),
    }
}

// The interface of these entries. A table has at most 10,000.
fn tabled(ended: &Ended<'_, '_>, entries: Vec<Entry>) -> Result<Interface, DidFault>
    ensures { IsTabled ended.now.names.now ended.now.ends.now entries.items result }
{
    match init_of(ended) {
        Ok(init) => match TypeTable::new(entries) {
            Ok(table) => Ok(Interface {
                table,
                service: service_of(ended),
                init,
            }),
            Err(_) => Err(DidFault::TooMany),
        },
        Err(_) => Err(DidFault::NoMemory),
    }
}

// The interface of a file whose definitions have ends.
fn interface_with(ended: &Ended<'_, '_>) -> Result<Interface, DidFault>
    requires ended { HasEnded ended.now.names.now ended.now.ends.now }
    requires fits { FitsFile ended.now.names.now }
    ensures { Judges ended.now.names.now result }
{
    if !is_served(ended) {
        return Err(DidFault::Shape);
    }
    match entries_of(ended) {
        Ok(entries) => tabled(ended, entries),
        Err(ReadError::Refused) => Err(DidFault::Shape),
        Err(ReadError::NoMemory) => Err(DidFault::NoMemory),
    }
}

// The interface of a file whose definitions are looked up.
fn interface_named(alloc: Global, names: &Names<'_>) -> Result<Interface, DidFault>
    requires few { length names.now.definitions < 2 ^ 32 }
    requires fits { FitsFile names.now }
    ensures { Judges names.now result }
{
    match settled(alloc, names) {
        Ok(ends) => interface_with(&Ended {
            alloc,
            names,
            ends: &ends,
        }),
        Err(fault) => Err(fault),
    }
}

// The interface of a file.
fn interface_of(alloc: Global, file: &File) -> Result<Interface, DidFault>
    requires few { length file.now.definitions < 2 ^ 32 }
    requires fits { FitsFile file.now }
    ensures { Judges file.now result }
{
    match Names::of(alloc, file) {
        Ok(names) => interface_named(alloc, &names),
        Err(_) => Err(DidFault::NoMemory),
    }
}

/// The interface that a text says. Time grows with the text, times the logarithm of the number of
/// its definitions, fields and methods.
pub fn read_interface(alloc: Global, text: &[u8]) -> Result<Interface, DidFault>
    requires { length text.now < 2 ^ 32 }
    // Of the file that the text is, each fault is answered exactly where its reason holds and none
    // before it; else the interface stands for the file.
    ensures answers { (file : files.File) → IsFile file text.now → Answers file result }
    // The text is a file, but where the answer is that it is none, or memory ran out.
    ensures file { TellsOfAFile result ((file : files.File) × IsFile file text.now) }
    ensures said { IsAnswer result (interface_in text.now) }
    ensures within { IfOk result IsWithin }
    // The types before `->` stand for the file's, and are within the table.
    ensures installed { (file : files.File) → IsFile file text.now → IfOk result (λ interface. InitStands file interface.table interface.init) }
    ensures inside { IfOk result IsInitWithin }
{
    match file_of(alloc, text) {
        Ok(file) => interface_of(alloc, &file),
        Err(ReadError::Refused) => Err(DidFault::NotInterface),
        Err(ReadError::NoMemory) => Err(DidFault::NoMemory),
    }
}
