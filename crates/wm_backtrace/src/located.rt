ghost use Rattle.std.specs.Prelude.{◌≡◌, IfOk, map, Option, Some};
ghost use Rattle.std.specs.Option.{option_copied};
ghost use Rattle.wm_tree.specs.declared.listing.Listing.{Listing};
ghost use Rattle.wm_backtrace.specs.Names.{offset_at, place_of};

use crate::names::name_of;
use ic_base::{NoMemory, ReadError};
use ic_principal::Text;
use std::alloc::{AllocError, Global};
use std::marker::Model;
use wm_decode::offset_of;
use wm_run::{Backtrace, Site};
use wm_tree::{Listing, Module};
use wm_valid::Valid;
use wm_valid::system_api::SystemCall;

/// A function under way, by its name.
#[derive(Debug, Drop)]
pub struct Place {
    pub function: Text,
    /// The offset of its instruction in the module's bytes, where it is kept how these are written.
    pub offset: Option<usize>,
}

/// Functions under way, the innermost first.
#[derive(Debug, Drop)]
pub struct Places {
    pub items: Vec<Place>,
}

impl Model for Places {
    ghost use Rattle.std.specs.Prelude.{List};
    ghost use Rattle.wm_backtrace.specs.declared.located.Place.{Place};

    ghost Value = { List Place };

    ghost view = { λ l. l.items.items };
}

/// Where a run trapped.
#[derive(Debug, Drop)]
pub struct Located {
    /// The call of the System API that trapped, if one did.
    pub call: Option<SystemCall>,
    /// The functions under way, at most 32.
    pub places: Places,
    /// How many more there are, which wait around these.
    pub more: usize,
}

/// The offset of a word in the bytes that are kept.
fn offset_at(
    alloc: Global,
    listing: &Listing,
    imports: usize,
    site: Site,
) -> Result<Option<usize>, NoMemory>
    ensures { IfOk result (λ offset. offset ≡ offset_at (Some listing.now) imports site.function site.word) }
{
    let Some(function) = site.function.checked_sub(imports as u64) else {
        return Ok(None);
    };
    match offset_of(alloc, listing, function as usize, site.word) {
        Ok(offset) => Ok(Some(offset)),
        Err(ReadError::Refused) => Ok(None),
        Err(ReadError::NoMemory) => Err(AllocError),
    }
}

/// A function under way, by its name and its offset.
fn place_at(
    alloc: Global,
    listing: Option<&Listing>,
    module: &Module,
    site: Site,
) -> Result<Place, NoMemory>
    ensures { IfOk result (λ place. place ≡ place_of (option_copied listing.entry) «module».now site) }
{
    let function = name_of(alloc, listing, &module.exports.items, site.function)?;
    let offset = match listing {
        Some(listing) => offset_at(alloc, listing, module.imports.items.len(), site)?,
        None => None,
    };
    Ok(Place { function, offset })
}

/// Functions under way, by their names and offsets.
fn places_of(
    alloc: Global,
    listing: Option<&Listing>,
    module: &Module,
    sites: &[Site],
) -> Result<Places, NoMemory>
    ensures { IfOk result (λ places. places ≡ map (place_of (option_copied listing.entry) «module».now) sites.now) }
{
    let mut items = Vec::new(alloc);
    for site in sites {
        items.push(place_at(alloc, listing, module, *site)?)?;
    }
    Ok(Places { items })
}

/// Where a run of this module trapped. Time grows, for each function under way, with the functions of the module and
/// with the words of its own body.
pub fn locate(alloc: Global, valid: &Valid, backtrace: &Backtrace) -> Result<Located, NoMemory>
    ensures call { IfOk result (λ l. l.call ≡ backtrace.now.call) }
    ensures more { IfOk result (λ l. l.more ≡ backtrace.now.more) }
    // What is kept of the module's bytes, if anything is, is not part of `valid`'s value.
    ensures places { IfOk result (λ l. (kept : Option Listing) × (l.places ≡ map (place_of kept valid.now.«module») backtrace.now.sites)) }
{
    Ok(Located {
        call: backtrace.call,
        places: places_of(
            alloc,
            valid.listing(),
            valid.module(),
            &backtrace.sites.items,
        )?,
        more: backtrace.more,
    })
}
