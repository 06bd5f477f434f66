//! What is kept of a module's bytes beside the module.
ghost use Rattle.std.specs.Prelude.{◌≡◌, IfOk, OnOk};
ghost use Rattle.ic_base.specs.Gives.{Gives};
ghost use Rattle.wm_decode.specs.Listing.{listing_in, listed, nothing_listed, with_section, subsection_at, function_names};

use crate::sections::{Section, after_magic, read_section};
use crate::values::text;
use ic_base::{NoMemory, ReadError};
use std::alloc::{AllocError, Global};
use wm_tree::{Data, Listing};

/// The id of the subsection with the names of functions.
const FUNCTION_NAMES: u8 = 1;

/// The content of the subsection of that id. A subsection is written as a section is.
fn subsection(bytes: &[u8], id: u8) -> Result<&[u8], ReadError>
    ensures { Gives (λ content. content.now) result (subsection_at id bytes.now) }
{
    let mut rest = bytes;
    for _ in 0..bytes.len() {
        let (section, after) = read_section(rest)?;
        if section.id == id {
            return Ok(section.content);
        }
        rest = after;
    }
    Err(ReadError::Refused)
}

/// The names of functions in the content of a custom section, if it is the name section.
fn function_names(content: &[u8]) -> Result<&[u8], ReadError>
    ensures { Gives (λ names. names.now) result (function_names content.now) }
{
    let (name, rest) = text(content)?;
    if name == "name" {
        subsection(rest, FUNCTION_NAMES)
    } else {
        Err(ReadError::Refused)
    }
}

/// Nothing is kept.
fn nothing(alloc: Global) -> Listing
    ensures { result ≡ nothing_listed }
{
    Listing {
        at: 0,
        code: Data {
            items: Vec::new(alloc),
        },
        names: Data {
            items: Vec::new(alloc),
        },
    }
}

/// Keeps what is wanted of a section, whose content begins at that place.
fn keep(alloc: Global, listing: &mut Listing, at: usize, section: &Section) -> Result<(), NoMemory>
    ensures { OnOk result (listing.new ≡ with_section at section.now listing.old) }
{
    match section.id {
        0 => match function_names(section.content) {
            Ok(names) => {
                listing.names = Data {
                    items: Vec::from_slice(alloc, names)?,
                };
            }
            Err(ReadError::Refused) => {}
            Err(ReadError::NoMemory) => return Err(AllocError),
        },
        10 => {
            if let Ok(at) = u32::try_from(at) {
                listing.at = at;
                listing.code = Data {
                    items: Vec::from_slice(alloc, section.content)?,
                };
            }
        }
        _ => {}
    }
    Ok(())
}

/// What is kept of these sections, the last ones of a module of `all` bytes.
fn kept_of(alloc: Global, sections: &[u8], all: usize) -> Result<Listing, NoMemory>
    ensures { IfOk result (λ listing. listing ≡ listed all all sections.now nothing_listed) }
{
    let mut listing = nothing(alloc);
    let mut rest = sections;
    for _ in 0..all {
        match read_section(rest) {
            Ok((section, after)) => {
                // The content of a section is what is after its size.
                let at = all
                    .saturating_sub(after.len())
                    .saturating_sub(section.content.len());
                keep(alloc, &mut listing, at, &section)?;
                rest = after;
            }
            Err(ReadError::Refused) => return Ok(listing),
            Err(ReadError::NoMemory) => return Err(AllocError),
        }
    }
    Ok(listing)
}

/// What is kept of a module's bytes: of the code section its place and content, and of the name section the names of
/// functions. It is read leniently: of bytes that are no module, up to where they are none. It takes at most as much
/// memory as the bytes do.
pub fn listing_of(alloc: Global, bytes: &[u8]) -> Result<Listing, NoMemory>
    ensures { IfOk result (λ listing. listing ≡ listing_in bytes.now) }
{
    match after_magic(bytes) {
        Ok(sections) => kept_of(alloc, sections, bytes.len()),
        Err(ReadError::Refused) => Ok(nothing(alloc)),
        Err(ReadError::NoMemory) => Err(AllocError),
    }
}
