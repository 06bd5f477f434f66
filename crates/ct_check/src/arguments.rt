ghost use Rattle.std.specs.Prelude.{◌≡◌, IfOk, is_none, option_map};
ghost use Rattle.ct_check.specs.Answer.{Gives};
ghost use Rattle.ct_check.specs.Values.{are_values};
ghost use Rattle.ct_check.specs.Holds as holds;

use crate::cause::{CheckCause, CheckError, CheckFault, fault};
use crate::checked::{CheckedOutcome, CheckedOutcomes, Filled};
use crate::checker::Checker;
use crate::naming::Lets;
use crate::values::Between;
use cd_types::TyRef;
use ct_file::{Arguments, Expected, Installed, Outcome, Quoted};
use ct_scope::InterfaceId;
use ic_base::NoMemory;
use ic_principal::Text;
use std::marker::Model;

/// Types of an interface. Contracts see both.
#[derive(Drop)]
pub(crate) struct TypesOf<'t> {
    pub(crate) interface: InterfaceId,
    pub(crate) types: &'t [TyRef],
}

impl<'t> Model for TypesOf<'t> {
    ghost use Rattle.ct_check.specs.Values as values;

    ghost Value = { values.TypesOf };

    ghost view = { λ t. record { interface = t.interface; types = t.types.now } };
}

// The fault that comes first in the text; `place`: of a token that is no value of its type.
fn earlier<'a>(found: CheckFault<'a>, place: Option<usize>) -> CheckFault<'a> {
    match place {
        Some(place) if place < found.place => CheckFault {
            place,
            cause: CheckCause::NotOfType,
        },
        _ => found,
    }
}

// Whether patterns may be written among values.
fn admits(lets: Lets) -> bool
    ensures { result ≡ holds.admits lets }
{
    match lets {
        Lets::Unknown => false,
        Lets::Bind => true,
        Lets::Refused => true,
    }
}

fn lets_among(lets: Lets, expected: &Expected<'_>) -> Lets
    ensures { result ≡ holds.lets_among lets expected.now }
{
    if expected.items.len() > 1 {
        Lets::Refused
    } else {
        lets
    }
}

impl<'o, 'i> Checker<'o, 'i> {
    // The place of the first token with which no values of the types go on.
    fn value_fault<'a>(
        &self,
        arguments: &Arguments<'a>,
        at: &TypesOf<'_>,
        patterns: bool,
    ) -> Result<Option<usize>, NoMemory>
        ensures { IfOk result (λ place. is_none place ≡ are_values patterns self.now at.now arguments.now) }
    {
        let Some(interface) = self.sources.interface(at.interface) else {
            return Ok(Some(arguments.place));
        };
        let meanings = self.meanings(&arguments.items)?;
        let between = Between {
            tokens: &arguments.items,
            end: arguments.end,
        };
        between.value_fault(self.alloc, &meanings, &interface.table, at.types, patterns)
    }

    /// Values of the types, with the names that they use. Of faults the first in the text is answered.
    #[tactic(auto, unfolding(crate::specs::Holds::filled))]
    pub(crate) fn filled<'f, 'a>(
        &mut self,
        arguments: &'f Arguments<'a>,
        at: &TypesOf<'_>,
        lets: Lets,
    ) -> Result<Filled<'f, 'a>, CheckError<'a>>
        ensures { Gives (λ filling. (filling, self.new)) result (holds.filled lets at.now self.old arguments.now) }
    {
        let place = self.value_fault(arguments, at, admits(lets))?;
        match self.names(&arguments.items, lets) {
            Ok(names) => match place {
                None => Ok(Filled { arguments, names }),
                Some(place) => Err(fault(place, CheckCause::NotOfType)),
            },
            Err(CheckError::NoMemory) => Err(CheckError::NoMemory),
            Err(CheckError::Faulty(found)) => Err(CheckError::Faulty(earlier(found, place))),
        }
    }

    /// The arguments of an installation, which may be left out where there are no types.
    pub(crate) fn installed<'f, 'a>(
        &mut self,
        installed: &'f Installed<'a>,
        at: &TypesOf<'_>,
    ) -> Result<Option<Filled<'f, 'a>>, CheckError<'a>>
        ensures { Gives (λ filling. (filling, self.new)) result (holds.installed at.now self.old installed.now) }
    {
        match &installed.arguments {
            Some(arguments) => Ok(Some(self.filled(arguments, at, Lets::Unknown)?)),
            None => {
                if at.types.is_empty() {
                    Ok(None)
                } else {
                    Err(fault(installed.place, CheckCause::ExpectedArguments))
                }
            }
        }
    }

    fn maybe_text<'a>(&self, written: &Option<Quoted<'a>>) -> Result<Option<Text>, CheckError<'a>>
        ensures { Gives (λ text. text) result (holds.maybe_text written.now) }
    {
        match written {
            None => Ok(None),
            Some(written) => Ok(Some(self.text(written)?)),
        }
    }

    fn outcome<'f, 'a>(
        &mut self,
        outcome: &'f Outcome<'a>,
        at: &TypesOf<'_>,
        lets: Lets,
    ) -> Result<CheckedOutcome<'f, 'a>, CheckError<'a>>
        ensures { Gives (λ checked. (checked, self.new)) result (holds.outcome lets at.now self.old outcome.now) }
    {
        match outcome {
            Outcome::Replies(None) => Ok(CheckedOutcome::Replies(None)),
            Outcome::Replies(Some(arguments)) => Ok(CheckedOutcome::Replies(Some(self.filled(
                arguments, at, lets,
            )?))),
            Outcome::Rejects { code, text } => Ok(CheckedOutcome::Rejects {
                code: code.as_ref().map(|code| code.value),
                text: self.maybe_text(text)?,
            }),
            Outcome::Refused => Ok(CheckedOutcome::Refused),
        }
    }

    fn outcomes_of<'f, 'a>(
        &mut self,
        outcomes: &'f [Outcome<'a>],
        at: &TypesOf<'_>,
        lets: Lets,
    ) -> Result<Vec<CheckedOutcome<'f, 'a>>, CheckError<'a>>
        ensures { Gives (λ items. (items.items, self.new)) result (holds.all_checked (holds.outcome lets at.now) self.old outcomes.now) }
    {
        let mut items = Vec::new(self.alloc);
        for outcome in outcomes {
            items.push(self.outcome(outcome, at, lets)?)?;
        }
        Ok(items)
    }

    /// The outcomes that are expected. `lets`: what `let` may do where there is one alone.
    pub(crate) fn outcomes<'f, 'a>(
        &mut self,
        expected: &'f Expected<'a>,
        at: &TypesOf<'_>,
        lets: Lets,
    ) -> Result<CheckedOutcomes<'f, 'a>, CheckError<'a>>
        ensures { Gives (λ checked. (checked, self.new)) result (holds.expected_checked lets at.now self.old expected.now) }
    {
        let items = self.outcomes_of(&expected.items, at, lets_among(lets, expected))?;
        let span = expected.span;
        Ok(CheckedOutcomes { items, span })
    }
}
