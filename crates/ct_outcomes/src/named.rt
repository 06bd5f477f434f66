ghost use Rattle.std.specs.Prelude.{◌≡◌, option_map, slice_get};
ghost use Rattle.ct_outcomes.specs.Standings.{name_of, standing_at};

use crate::standing::Standing;
use ic_principal::{Bytes, Principal};

/// A name, and what it stands for.
#[derive(Drop)]
pub struct Named {
    pub name: Bytes,
    pub standing: Standing,
}

/// The first name that stands for a principal, those before all that are there from the start.
pub fn name_of<'n>(names: &'n [Named], id: &Principal) -> Option<&'n [u8]>
    ensures { option_map (λ name. name.now) result ≡ name_of names.now id.now }
{
    for named in names {
        if named.standing.is_principal(id) {
            return Some(&named.name.items);
        }
    }
    None
}

/// What the name in a slot stands for.
pub fn standing_at(names: &[Named], slot: usize) -> Option<&Standing>
    ensures { option_map (λ standing. standing.now) result ≡ standing_at names.now slot }
{
    match names.get(slot) {
        None => None,
        Some(named) => Some(&named.standing),
    }
}

/// The name in a slot, if there is one.
pub fn name_at(names: &[Named], slot: usize) -> Option<&[u8]>
    ensures { option_map (λ name. name.now) result ≡ option_map (λ named. named.name) (slice_get names.now slot) }
{
    match names.get(slot) {
        None => None,
        Some(named) => Some(&named.name.items),
    }
}
