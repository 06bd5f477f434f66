ghost use Rattle.std.specs.Prelude.{◌≡◌, length, None, Some, MatchOption};
ghost use Rattle.ic_base.specs.Gives.{Gives};
ghost use Rattle.wm_decode.specs.Mod.{content_of, place_of};
ghost use Rattle.wm_decode.specs.Readers.{list_in, number_in, section_at, sections_at, magic_at};

use crate::profile::Profile;
use crate::values::{byte, list, number, text, vec_bytes};
use ic_base::{Item, ReadError};
use std::alloc::Global;
use std::marker::Model;

/// The first byte of a section, and its content.
#[derive(Debug, Drop)]
pub(crate) struct Section<'a> {
    pub(crate) id: u8,
    pub(crate) content: &'a [u8],
}

impl<'a> Model for Section<'a> {
    ghost use Rattle.wm_decode.specs.Mod.{Section};

    ghost Value = { Section };

    ghost view = { λ s. record { id = s.id; content = s.content.now } };
}

/// The magic bytes and the version.
const MAGIC: [u8; 8] = [0x00, 0x61, 0x73, 0x6D, 0x01, 0x00, 0x00, 0x00];

/// The bytes after the magic ones.
#[tactic(auto, unfolding(crate::specs::Readers::magic_at))]
pub(crate) fn after_magic(bytes: &[u8]) -> Result<&[u8], ReadError>
    ensures { Gives (λ rest. rest.now) result (magic_at bytes.now) }
{
    bytes.strip_prefix(&MAGIC).ok_or(ReadError::Refused)
}

/// Reads a section.
#[tactic(auto, unfolding(crate::specs::Readers::section_at))]
pub(crate) fn read_section(bytes: &[u8]) -> Result<(Section, &[u8]), ReadError>
    ensures { Gives (λ x. (x.0, x.1.now)) result (section_at bytes.now) }
{
    let (id, rest) = byte(bytes)?;
    let (content, rest) = vec_bytes(rest)?;
    Ok((Section { id, content }, rest))
}

/// The place of the section of that id, 0 where none has it (Core 2.0, 5.5.16).
fn place(id: u8) -> u8
    ensures { result ≡ place_of id }
{
    match id {
        0..=9 => id,
        12 => 10,
        10 => 11,
        11 => 12,
        _ => 0,
    }
}

/// The sections that the bytes are, but the custom ones, whose names alone are looked at.
pub(crate) fn sections(alloc: Global, bytes: &[u8]) -> Result<Vec<Section>, ReadError>
    ensures { Gives (λ found. found.items) result (sections_at (length bytes.now) 0 bytes.now) }
{
    let mut found = Vec::new(alloc);
    let mut last = 0;
    let mut rest = bytes;
    for _ in 0..bytes.len() {
        if rest.is_empty() {
            return Ok(found);
        }
        let (section, after) = read_section(rest)?;
        rest = after;
        let at = place(section.id);
        if section.id == 0 {
            text(section.content)?;
        } else if last < at {
            last = at;
            found.push(section)?;
        } else {
            return Err(ReadError::Refused);
        }
    }
    if rest.is_empty() {
        Ok(found)
    } else {
        Err(ReadError::Refused)
    }
}

/// The content of the section of that id.
fn content<'a>(sections: &[Section<'a>], id: u8) -> Option<&'a [u8]>
    ensures { MatchOption result (content_of id sections.now ≡ None) (λ c. content_of id sections.now ≡ Some c.now) }
{
    for section in sections {
        if section.id == id {
            return Some(section.content);
        }
    }
    None
}

/// Reads the list in the section of that id.
pub(crate) fn list_of<C, T: Item<C>>(
    alloc: Global,
    context: &C,
    sections: &[Section],
    id: u8,
) -> Result<Vec<T>, ReadError>
    ensures { Gives (λ items. items.items) result (list_in (T.reading context.now) (content_of id sections.now)) }
{
    match content(sections, id) {
        None => Ok(Vec::new(alloc)),
        Some(content) => {
            let (items, rest) = list(alloc, context, content)?;
            if rest.is_empty() {
                Ok(items)
            } else {
                Err(ReadError::Refused)
            }
        }
    }
}

/// Reads the number that is the section of that id, where there is one.
pub(crate) fn number_of(sections: &[Section], id: u8) -> Result<Option<u32>, ReadError>
    ensures { Gives (λ n. n) result (number_in (content_of id sections.now)) }
{
    match content(sections, id) {
        None => Ok(None),
        Some(content) => {
            let (n, rest) = number(content)?;
            if rest.is_empty() {
                Ok(Some(n))
            } else {
                Err(ReadError::Refused)
            }
        }
    }
}
