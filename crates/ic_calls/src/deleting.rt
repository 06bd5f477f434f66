ghost use Rattle.std.specs.Prelude.{◌≡◌, ◌++◌, map, OnOk};
ghost use Rattle.std.specs.List.{flat_map};
ghost use Rattle.ic_calls.specs.Changes.{rejected, deleted};

use crate::farewells::uninstalled;
use ic_base::NoMemory;
use ic_state::{Answered, AnsweredList, Context};
use std::alloc::Global;

// Rejects a context that must respond.
fn reject(alloc: Global, context: &Context, answers: &mut AnsweredList) -> Result<(), NoMemory>
    ensures { OnOk result (answers.new ≡ answers.old ++ rejected context.now) }
{
    if !context.must_respond {
        return Ok(());
    }
    let response = uninstalled(alloc)?;
    answers.items.push(Answered {
        origin: context.origin,
        response,
        refund: context.available,
    })?;
    Ok(())
}

/// Rejects the contexts that must respond, in their order.
pub(crate) fn reject_all(
    alloc: Global,
    contexts: &[Context],
    answers: &mut AnsweredList,
) -> Result<(), NoMemory>
    ensures { OnOk result (answers.new ≡ answers.old ++ flat_map rejected contexts.now) }
{
    for context in contexts {
        reject(alloc, context, answers)?;
    }
    Ok(())
}

fn deleted(context: Context) -> Context
    ensures { result ≡ deleted context }
{
    let Context {
        id,
        origin,
        caller,
        outstanding,
        ..
    } = context;
    Context {
        id,
        origin,
        caller,
        must_respond: false,
        deleted: true,
        available: 0,
        outstanding,
    }
}

/// No context must respond any more, and no callback runs in any.
pub(crate) fn delete_all(contexts: &mut [Context])
    ensures { contexts.new ≡ map deleted contexts.old }
{
    for context in contexts.iter_mut() {
        *context = deleted(*context);
    }
}
