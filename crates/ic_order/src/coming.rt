ghost use Rattle.std.specs.Prelude.{◌≡◌, ◌||◌, not, IfOk, OnOk};
ghost use Rattle.ic_order.specs.declared.way.Way.{Way as AWay};
ghost use Rattle.ic_order.specs.Ways.{equal_ways, next_places};
ghost use Rattle.ic_order.specs.Seen.{has_way};

use crate::way::{Way, way_of};
use ic_base::NoMemory;
use ic_behaviour::Message;
use std::alloc::Global;
use std::collections::BTreeSet;

// Puts a way into a set, and says whether it is new there.
fn add(ways: &mut BTreeSet<Way>, way: Way) -> Result<bool, NoMemory>
    ensures new { IfOk result (λ new. new ≡ not (has_way ways.old way)) }
    ensures kept { OnOk result ((other : AWay) → has_way ways.new other ≡ (has_way ways.old other || equal_ways other way)) }
{
    let new = ways.insert(way)?;
    Ok(new)
}

/// The places of the messages that may come next, from the front: of each way the first message.
pub fn next_places(alloc: Global, messages: &[Message]) -> Result<Vec<usize>, NoMemory>
    ensures { IfOk result (λ places. places.items ≡ next_places messages.now) }
{
    let mut ways = BTreeSet::new(alloc);
    let mut places = Vec::new(alloc);
    for (place, message) in messages.iter().enumerate() {
        if add(&mut ways, way_of(message))? {
            places.push(place)?;
        }
    }
    Ok(places)
}
