ghost use Rattle.std.specs.Prelude.{◌≡◌, ◌<◌, ◌^◌, length};
ghost use Rattle.cd_did.specs.Settles.{Settles};

use crate::checks::{Test, file_passes, repeated_of};
use crate::fault::DidFault;
use crate::names::Names;
use crate::rings::{ends_of, vacuous_of};
use std::alloc::Global;

/// The ends of a file's definitions, or the first of its faults up to `Vacuous`.
#[tactic(auto, using(crate::proofs::ApartLemmas::apart, crate::proofs::ApartLemmas::all_bound, crate::proofs::Ends::vacuous_found, crate::proofs::Ends::vacuous_inside))]
pub(crate) fn settled(alloc: Global, names: &Names<'_>) -> Result<Vec<usize>, DidFault>
    requires { length names.now.definitions < 2 ^ 32 }
    ensures { Settles names.now result }
{
    let file = names.file();
    if !file_passes(&Test::NoFloat, file) {
        return Err(DidFault::Float);
    }
    if let Some(place) = repeated_of(names) {
        let definition = place as u32;
        return Err(DidFault::Repeated { definition });
    }
    if !file_passes(&Test::Bound(names), file) {
        return Err(DidFault::Unbound);
    }
    match ends_of(alloc, names) {
        Err(_) => Err(DidFault::NoMemory),
        Ok(ends) => match vacuous_of(names.definitions(), &ends) {
            None => Ok(ends),
            Some(place) => {
                let definition = place as u32;
                Err(DidFault::Vacuous { definition })
            }
        },
    }
}
