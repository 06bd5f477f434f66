ghost use Rattle.std.specs.Prelude.{◌≡◌, option_map, IfOk};
ghost use Rattle.ct_outcomes.specs.Answers.{Finds};
ghost use Rattle.ct_outcomes.specs.Types.{types_at};
ghost use Rattle.ct_run.specs.Statements.{Judges, MeetsAt, expected_of, reply_types};

use crate::names::Names;
use crate::runner::Runner;
use crate::verdict::{Unmet, Wanted};
use ct_check::{CheckedAction, CheckedOutcomes};
use ct_outcomes::{At, Came, Named, met};
use ic_base::NoMemory;
use std::alloc::Global;

/// What is expected, where it is told.
pub fn wanted_of(expected: &CheckedOutcomes<'_, '_>) -> Wanted {
    if expected.items.is_empty() {
        Wanted::Reply
    } else {
        Wanted::Written(expected.span)
    }
}

/// The outcomes that are expected of an action.
pub fn expected_of<'m, 'f, 'a>(action: &'m CheckedAction<'f, '_, 'a>) -> &'m CheckedOutcomes<'f, 'a>
    ensures { result.now ≡ expected_of action.now }
{
    match action {
        CheckedAction::Call(message) => &message.expected,
        CheckedAction::Query(message) => &message.expected,
        CheckedAction::Upgrade(change) => &change.expected,
        CheckedAction::Reinstall(change) => &change.expected,
    }
}

// What the outcome binds that what came meets, where a reply is read at these types.
fn met_at(
    alloc: Global,
    at: Option<At<'_>>,
    expected: &CheckedOutcomes<'_, '_>,
    names: &[Named],
    came: &Came,
) -> Result<Option<Vec<Named>>, NoMemory>
    ensures { Finds (λ bound. bound.items) (MeetsAt (option_map types_at at.entry) names.now expected.now came.now) result }
{
    match at {
        None => Ok(None),
        Some(at) => met(alloc, at, &expected.items, names, came),
    }
}

impl<'i, R, G> Runner<'i, R, G> {
    /// Whether what came meets one of the outcomes, which binds names; if it meets none, what is told.
    pub fn judge(
        &self,
        names: &mut Names,
        expected: &CheckedOutcomes<'_, '_>,
        at: Option<At<'i>>,
        came: Came,
    ) -> Result<Option<Unmet<'i>>, NoMemory>
        ensures { IfOk result (λ unmet. Judges (option_map types_at at.entry) names.old expected.now came names.new (option_map (λ u. u.came) unmet)) }
    {
        match met_at(self.alloc, at, expected, &names.items, &came)? {
            None => Ok(Some(Unmet {
                wanted: wanted_of(expected),
                came,
                at,
            })),
            Some(mut bound) => {
                names.items.append(&mut bound)?;
                Ok(None)
            }
        }
    }

    /// Where a reply to a move is read.
    pub fn reply_at(&self, action: &CheckedAction<'_, 'i, '_>) -> Option<At<'i>>
        ensures { option_map types_at result ≡ reply_types self.now.files action.now }
    {
        let asker = self.asker();
        match action {
            CheckedAction::Call(message) => asker.at(message.interface, message.method.results),
            CheckedAction::Query(message) => asker.at(message.interface, message.method.results),
            CheckedAction::Upgrade(change) => asker.at(change.interface, &[]),
            CheckedAction::Reinstall(change) => asker.at(change.interface, &[]),
        }
    }
}
