ghost use Rattle.std.specs.Prelude.{◌≡◌, ◌<◌, [], ◌∷◌, ◌++◌, length, Some, slice_get, slice_set, OnOk, OnErr};
ghost use Rattle.std.specs.List.{position, filter, list_any};
ghost use Rattle.ic_behaviour.specs.State.{same_id, id_of};
ghost use Rattle.ic_behaviour.specs.Executing.{is_own};
ghost use Rattle.ic_behaviour.specs.Closing.{is_open};
ghost use Rattle.ic_behaviour.specs.Local.{context_of};

use ic_base::NoMemory;
use ic_principal::Principal;
use ic_state::{CallId, Context, Contexts, Origin};

/// Whether both are the id of one call.
pub fn is_same(a: &CallId, b: &CallId) -> bool
    ensures { result ≡ same_id a.now b.now }
{
    match a {
        CallId::Ingress(k) => match b {
            CallId::Ingress(l) => *k == *l,
            CallId::Canister { .. } => false,
        },
        CallId::Canister { caller, number } => match b {
            CallId::Ingress(_) => false,
            CallId::Canister {
                caller: other,
                number: m,
            } => caller.cmp(other).is_eq() && *number == *m,
        },
    }
}

/// The place of the first context with this id.
pub fn find_context(contexts: &Contexts, own: &CallId) -> Option<usize>
    ensures { result ≡ position (is_own own.now) contexts.now }
{
    contexts
        .items
        .iter()
        .position(|context| is_same(own, &context.id))
}

/// How many contexts there are.
pub fn count(contexts: &Contexts) -> usize
    ensures { result ≡ length contexts.now }
{
    contexts.items.len()
}

/// The context at that place.
pub fn context_at(contexts: &Contexts, place: usize) -> Context
    requires { place < length contexts.now }
    ensures { slice_get contexts.now place ≡ Some result }
{
    contexts.items[place]
}

/// Puts a context in place of the one there.
pub fn put(contexts: &mut Contexts, place: usize, context: Context)
    requires { place < length contexts.old }
    ensures { contexts.new ≡ slice_set contexts.old place context }
{
    contexts.items[place] = context;
}

/// The id of the call that comes from this origin.
pub fn call_id(origin: &Origin) -> CallId
    ensures { result ≡ id_of origin.now }
{
    match origin {
        Origin::Ingress(k) => CallId::Ingress(*k),
        Origin::Canister { caller, number, .. } => CallId::Canister {
            caller: *caller,
            number: *number,
        },
    }
}

/// Makes the context of a call, after the others. After `NoMemory` they are as before.
pub fn open_context(
    contexts: &mut Contexts,
    origin: &Origin,
    caller: &Principal,
    cycles: u128,
) -> Result<(), NoMemory>
    ensures ok { OnOk result (contexts.new ≡ contexts.old ++ context_of origin.now caller.now cycles ∷ []) }
    ensures err { OnErr result (contexts.new ≡ contexts.old) }
{
    contexts.items.push(Context {
        id: call_id(origin),
        origin: *origin,
        caller: *caller,
        must_respond: true,
        deleted: false,
        available: cycles,
        outstanding: 0,
    })?;
    Ok(())
}

/// Whether a context awaits a call.
pub fn has_open(contexts: &Contexts) -> bool
    ensures { result ≡ list_any is_open contexts.now }
{
    contexts.items.iter().any(|context| context.outstanding > 0)
}

/// Removes the contexts that await no call.
pub fn remove_closed(contexts: &mut Contexts)
    ensures { contexts.new ≡ filter is_open contexts.old }
{
    contexts.items.retain(|context| context.outstanding > 0);
}
