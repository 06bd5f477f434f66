ghost use Rattle.std.specs.Prelude.{◌≡◌, length, nat_lt};
ghost use Rattle.ct_asked.specs.declared.asked.Asked.TheVariants.{Call, Query};
ghost use Rattle.ct_asked.specs.Asked.{most_bytes, unless_too_long};

use ct_outcomes::Came;
use ic_script::Ask;

/// The most bytes of an argument, as a script's line may have.
const MOST_BYTES: usize = 2_097_152;

/// What is asked from outside, or why nothing is: what comes in its place.
#[derive(Drop)]
pub enum Asked {
    Call(Ask),
    Query(Ask),
    Nothing(Came),
}

fn is_too_long(ask: &Ask) -> bool
    ensures { result ≡ nat_lt most_bytes (length ask.now.arg) }
{
    ask.arg.items.len() > MOST_BYTES
}

/// A call, if its argument is not too long.
pub(crate) fn call_of(ask: Ask) -> Asked
    ensures { result ≡ unless_too_long Call ask }
{
    if is_too_long(&ask) {
        Asked::Nothing(Came::ArgumentTooLong)
    } else {
        Asked::Call(ask)
    }
}

/// A query, if its argument is not too long.
pub(crate) fn query_of(ask: Ask) -> Asked
    ensures { result ≡ unless_too_long Query ask }
{
    if is_too_long(&ask) {
        Asked::Nothing(Came::ArgumentTooLong)
    } else {
        Asked::Query(ask)
    }
}
