ghost use Rattle.std.specs.Prelude.{◌≡◌, ◌<◌, length, map, IfOk, None};
ghost use Rattle.cd_did.specs.Rings.{Apart, AllBound, leads_to, next_place, firsts, jump_from, HasEnds, is_named_at, with_place, least_from};

use crate::names::Names;
use cd_grammar::Part;
use ic_base::NoMemory;
use ic_principal::Bytes;
use std::alloc::Global;

// The place that a definition leads to, which is at a place.
fn leads_to(names: &Names<'_>, here: usize, part: &Part) -> usize
    ensures { result ≡ leads_to names.now.definitions here part.now }
{
    match part {
        Part::Name(name) => match names.place_of(&name.items) {
            None => here,
            Some(place) => place,
        },
        _ => here,
    }
}

fn next_place(names: &Names<'_>, place: usize) -> usize
    ensures { result ≡ next_place names.now.definitions place }
{
    match names.definitions().get(place) {
        None => place,
        Some(definition) => leads_to(names, place, &definition.1),
    }
}

// The next place of each definition.
fn first_jumps(alloc: Global, names: &Names<'_>) -> Result<Vec<usize>, NoMemory>
    ensures { IfOk result (λ jumps. jumps.items ≡ firsts names.now.definitions (length names.now.definitions)) }
{
    let mut jumps = Vec::new(alloc);
    for place in 0..names.definitions().len() {
        jumps.push(next_place(names, place))?;
    }
    Ok(jumps)
}

pub(crate) fn jump_from(jumps: &[usize], place: usize) -> usize
    ensures { result ≡ jump_from jumps.now place }
{
    match jumps.get(place) {
        None => 0,
        Some(next) => *next,
    }
}

// Each jump twice.
fn doubled(alloc: Global, jumps: &[usize]) -> Result<Vec<usize>, NoMemory>
    ensures { IfOk result (λ longer. longer.items ≡ map (jump_from jumps.now) jumps.now) }
{
    let mut longer = Vec::new(alloc);
    for place in jumps {
        longer.push(jump_from(jumps, *place))?;
    }
    Ok(longer)
}

/// For each definition the place that one comes to from it through names alone, by at least as many
/// steps as there are definitions. Time grows with n log n steps and n look-ups of names.
pub(crate) fn ends_of(alloc: Global, names: &Names<'_>) -> Result<Vec<usize>, NoMemory>
    requires apart { Apart names.now.definitions }
    requires bound { AllBound names.now.definitions }
    ensures { IfOk result (λ ends. HasEnds names.now.definitions ends.items) }
{
    let mut jumps = first_jumps(alloc, names)?;
    let mut steps: usize = 1;
    while steps < names.definitions().len() {
        jumps = doubled(alloc, &jumps)?;
        steps *= 2;
    }
    Ok(jumps)
}

fn is_named_at(definitions: &[(Bytes, Part)], place: usize) -> bool
    ensures { result ≡ is_named_at definitions.now place }
{
    match definitions.get(place) {
        None => false,
        Some(definition) => match definition.1 {
            Part::Name(_) => true,
            _ => false,
        },
    }
}

fn with_place(definitions: &[(Bytes, Part)], least: Option<usize>, place: usize) -> Option<usize>
    ensures { result ≡ with_place (is_named_at definitions.now) least place }
{
    if !is_named_at(definitions, place) {
        return least;
    }
    match least {
        None => Some(place),
        Some(other) => {
            if place < other {
                Some(place)
            } else {
                Some(other)
            }
        }
    }
}

/// The first definition that leads back to itself, of the ends of all.
pub(crate) fn vacuous_of(definitions: &[(Bytes, Part)], ends: &[usize]) -> Option<usize>
    ensures { result ≡ least_from (is_named_at definitions.now) None ends.now }
{
    let mut least = None;
    for end in ends {
        least = with_place(definitions, least, *end);
    }
    least
}
