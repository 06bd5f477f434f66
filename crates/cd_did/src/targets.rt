ghost use Rattle.std.specs.Prelude.{◌≡◌, IfOk, map, slice_get};
ghost use Rattle.cd_did.specs.Rings.{jump_from};
ghost use Rattle.cd_did.specs.Targets.{row_or, found_at, ref_of, target};

use crate::names::Names;
use crate::rings::jump_from;
use cd_grammar::Part;
use cd_types::{Primitive, TyRef, TyRefs};
use ic_base::NoMemory;
use std::alloc::Global;

/// A file, where its definitions lead, and where what stands for its types is made.
#[derive(Drop)]
pub(crate) struct Ended<'n, 'a> {
    pub(crate) alloc: Global,
    pub(crate) names: &'n Names<'a>,
    pub(crate) ends: &'n [usize],
}

// The type of the definition that the one at a place leads to.
fn end_of<'a>(ended: &Ended<'_, 'a>, part: &'a Part, place: usize) -> &'a Part
    ensures { result.now ≡ row_or part.now (slice_get ended.now.names.now.definitions (jump_from ended.now.ends.now place)) }
{
    match ended.names.definitions().get(jump_from(ended.ends, place)) {
        None => part,
        Some(definition) => &definition.1,
    }
}

/// What a part is once each name is replaced by its definition.
pub(crate) fn found_of<'a>(ended: &Ended<'_, 'a>, part: &'a Part) -> &'a Part
    ensures { result.now ≡ found_at ended.now.names.now.definitions ended.now.ends.now part.now }
{
    match part {
        Part::Name(name) => match ended.names.place_of(&name.items) {
            None => part,
            Some(place) => end_of(ended, part, place),
        },
        _ => part,
    }
}

fn ref_of(part: &Part) -> TyRef
    ensures { result ≡ ref_of part.now }
{
    match part {
        Part::Prim(prim) => TyRef::Prim(*prim),
        Part::Place(place) => {
            if *place < 1 << 32 {
                TyRef::Index(*place as u32)
            } else {
                TyRef::Prim(Primitive::Null)
            }
        }
        Part::Float => TyRef::Prim(Primitive::Null),
        Part::Name(_) => TyRef::Prim(Primitive::Null),
    }
}

/// The reference that stands for a part.
pub(crate) fn target_of(ended: &Ended<'_, '_>, part: &Part) -> TyRef
    ensures { result ≡ target ended.now.names.now.definitions ended.now.ends.now part.now }
{
    ref_of(found_of(ended, part))
}

/// The references that stand for some parts.
pub(crate) fn targets_of(ended: &Ended<'_, '_>, parts: &[Part]) -> Result<TyRefs, NoMemory>
    ensures { IfOk result (λ refs. refs ≡ map (target ended.now.names.now.definitions ended.now.ends.now) parts.now) }
{
    let mut items = Vec::new(ended.alloc);
    for part in parts {
        items.push(target_of(ended, part))?;
    }
    Ok(TyRefs { items })
}
