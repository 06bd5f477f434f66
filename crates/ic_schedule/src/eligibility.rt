ghost use Rattle.std.specs.Prelude.{◌≡◌, Some};
ghost use Rattle.std.specs.Bool.{OnTrue, OnFalse};
ghost use Rattle.ic_behaviour.specs.Steps.{IsEligible};
ghost use Rattle.ic_schedule.specs.Picks.{goes_first, is_eligible};

use ic_calls::same_way;
use ic_state::{Message, World};

// No earlier message has the sender and the callee of this one.
fn goes_first(earlier: &[Message], message: &Message) -> bool
    ensures { result ≡ goes_first earlier.now (Some message.now) }
{
    !earlier.iter().any(|other| same_way(message, other))
}

/// Whether the message at a place may be delivered next: there is one, and no earlier one has its
/// sender and its callee.
pub fn eligible(world: &World, place: usize) -> bool
    ensures value { result ≡ is_eligible world.now place }
    ensures yes { OnTrue result (IsEligible world.now place) }
    ensures no { OnFalse result (¬ IsEligible world.now place) }
{
    let messages = &world.parts().messages.items;
    match messages.get(place) {
        Some(message) => goes_first(&messages[..place], message),
        None => false,
    }
}
