ghost use Rattle.std.specs.Prelude.{◌≡◌, [], List, ℕ, true, false, Some, None, IfOk, IfSome, map, option_map, cond};
ghost use Rattle.std.specs.Bool.{Decides};
ghost use Rattle.cd_codec.specs.Answers.{contents};
ghost use Rattle.cd_tokens.specs.View.{token_views};
ghost use Rattle.ct_patterns.specs.Views.{Bound, binding_views};
ghost use Rattle.ct_patterns.specs.Meets as patterns;
ghost use Rattle.ct_values.specs.Steps.{step_views};
ghost use Rattle.ct_values.specs.Spelled.{spelled};
ghost use Rattle.ct_outcomes.specs.declared.came.Came.{Came};
ghost use Rattle.ct_outcomes.specs.declared.came.Came.TheVariants as coming;
ghost use Rattle.ct_outcomes.specs.declared.named.Named as naming;
ghost use Rattle.ct_outcomes.specs.Answers.{Finds, IsAnswer};
ghost use Rattle.ct_outcomes.specs.Standings.{named_of};
ghost use Rattle.ct_outcomes.specs.Meets.{HasPart, IsRejectedSo, Meets, MeetsFilled, MeetsFirst, MeetsOne, MeetsSaid, Reads};
ghost use Rattle.ct_outcomes.specs.Types.{types_at};

use crate::at::At;
use crate::came::Came;
use crate::filling::{filled_in, texts_of};
use crate::message::values_of;
use crate::named::Named;
use crate::standing::Standing;
use cd_codec::Values;
use cd_coerce::laws::one_answer;
use cd_tokens::Token;
use ct_check::{CheckedOutcome, Filled};
use ct_patterns::{Bindings, Step, meet};
use ct_values::{Admitted, PatternFault, pattern_of};
use ic_base::NoMemory;
use ic_principal::{Bytes, Text};
use std::alloc::{AllocError, Global};

// What names are bound to.
fn named_of(alloc: Global, at: At<'_>, bindings: &Bindings<'_, '_>) -> Result<Vec<Named>, NoMemory>
    ensures { IfOk result (λ named. named.items ≡ map (named_of (types_at at.entry)) (binding_views bindings.now.items.items)) }
{
    let mut named = Vec::new(alloc);
    for binding in &bindings.items {
        let name = Bytes {
            items: Vec::from_slice(alloc, binding.name.bytes)?,
        };
        let standing = Standing::of_part(alloc, at.table(), binding.ty, binding.part)?;
        named.push(Named { name, standing })?;
    }
    Ok(named)
}

// The pattern that tokens say at types, if they say one.
fn steps_of<'a>(
    alloc: Global,
    at: At<'_>,
    tokens: &[Token<'a>],
) -> Result<Option<Vec<Step<'a>>>, NoMemory>
    ensures { Finds (λ steps. step_views steps.items) (λ steps. spelled (record { patterns = true; names = false }) (types_at at.entry).0 (types_at at.entry).1 (token_views tokens.now) ≡ Some steps) result }
{
    let admitted = Admitted {
        patterns: true,
        names: false,
    };
    match pattern_of(alloc, at.table(), at.types(), admitted, tokens) {
        Ok(steps) => Ok(Some(steps)),
        Err(PatternFault::Unexpected { .. }) => Ok(None),
        Err(PatternFault::NoMemory) => Err(AllocError),
    }
}

// What a pattern binds, if the values meet it.
fn steps_met(
    alloc: Global,
    at: At<'_>,
    steps: &[Step<'_>],
    values: &Values,
) -> Result<Option<Vec<Named>>, NoMemory>
    ensures { Finds (λ bound. bound.items) (λ bound. (bindings : List Bound) × patterns.Meets steps.now (contents values.now) bindings × (bound ≡ map (named_of (types_at at.entry)) bindings)) result }
{
    match meet(alloc, steps, &values.items)? {
        None => Ok(None),
        Some(bindings) => Ok(Some(named_of(alloc, at, &bindings)?)),
    }
}

// What the pattern binds that tokens say, if the values meet it.
fn tokens_met(
    alloc: Global,
    at: At<'_>,
    tokens: &[Token<'_>],
    values: &Values,
) -> Result<Option<Vec<Named>>, NoMemory>
    ensures { Finds (λ bound. bound.items) (MeetsSaid (types_at at.entry) (token_views tokens.now) (contents values.now)) result }
{
    match steps_of(alloc, at, tokens)? {
        None => Ok(None),
        Some(steps) => steps_met(alloc, at, &steps, values),
    }
}

// What the values of an outcome bind, if those of a reply meet them.
fn filled_met(
    alloc: Global,
    at: At<'_>,
    filled: &Filled<'_, '_>,
    names: &[Named],
    values: &Values,
) -> Result<Option<Vec<Named>>, NoMemory>
    ensures { Finds (λ bound. bound.items) (MeetsFilled (types_at at.entry) names.now filled.now (contents values.now)) result }
{
    let texts = texts_of(alloc, &filled.names, names)?;
    match filled_in(alloc, filled, names, &texts)? {
        None => Ok(None),
        Some(tokens) => tokens_met(alloc, at, &tokens, values),
    }
}

fn has_code(wanted: Option<u128>, code: u32) -> bool
    ensures { Decides result (IfSome wanted (λ k. k ≡ code)) }
{
    match wanted {
        None => true,
        Some(wanted) => wanted == u128::from(code),
    }
}

fn contains(text: &Text, part: &Text) -> bool
    ensures { Decides result (HasPart text.now part.now) }
{
    let whole = text.items.as_str();
    let sought = part.items.as_str();
    whole.contains(sought)
}

fn has_part(part: &Option<Text>, text: &Text) -> bool
    ensures { Decides result (IfSome part.now (HasPart text.now)) }
{
    match part {
        None => true,
        Some(part) => contains(text, part),
    }
}

// Whether a reject has a code and a part of its text, where they are given.
fn is_rejected_so(wanted: Option<u128>, part: &Option<Text>, code: u32, text: &Text) -> bool
    ensures { Decides result (IsRejectedSo wanted part.now code text.now) }
{
    has_code(wanted, code) && has_part(part, text)
}

/// An answer as it is compared with outcomes.
#[derive(Drop)]
pub(crate) enum Answer<'c> {
    /// A reply whose values can be read.
    Values(Values),
    Rejected { code: u32, text: &'c Text },
    Refused,
    /// What meets no outcome.
    Other,
}

fn reply_of<'c>(alloc: Global, at: At<'_>, bytes: &Bytes) -> Result<Answer<'c>, NoMemory>
    ensures { IfOk result (IsAnswer (types_at at.entry) (coming.Replied bytes.now)) }
{
    match values_of(alloc, at, bytes)? {
        Some(values) => Ok(Answer::Values(values)),
        None => Ok(Answer::Other),
    }
}

fn answer_of<'c>(alloc: Global, at: At<'_>, came: &'c Came) -> Result<Answer<'c>, NoMemory>
    ensures { IfOk result (IsAnswer (types_at at.entry) came.now) }
{
    match came {
        Came::Replied(bytes) => reply_of(alloc, at, bytes),
        Came::Rejected { code, text } => Ok(Answer::Rejected { code: *code, text }),
        Came::Refused => Ok(Answer::Refused),
        Came::NotValues | Came::ArgumentTooLong | Came::TooManyCalls => Ok(Answer::Other),
        Came::RoundsWithoutEnd | Came::NoAnswer | Came::NotMade { .. } => Ok(Answer::Other),
        Came::NotUpgradable | Came::NotPrincipal(_) => Ok(Answer::Other),
    }
}

// Nothing is bound, if an outcome is met.
fn bound_if(alloc: Global, is_met: bool) -> Option<Vec<Named>>
    ensures { option_map (λ bound. bound.items) result ≡ cond is_met (Some []) None }
{
    if is_met { Some(Vec::new(alloc)) } else { None }
}

// What an outcome binds, if a reply with these values meets it.
fn reply_met(
    alloc: Global,
    at: At<'_>,
    outcome: &CheckedOutcome<'_, '_>,
    names: &[Named],
    values: &Values,
) -> Result<Option<Vec<Named>>, NoMemory>
    ensures { (bytes : List ℕ) → Reads (types_at at.entry) bytes (contents values.now) → Finds (λ bound. bound.items) (Meets (types_at at.entry) names.now outcome.now (coming.Replied bytes)) result }
{
    one_answer();
    match outcome {
        CheckedOutcome::Replies(given) => match given {
            None => Ok(bound_if(alloc, true)),
            Some(filled) => filled_met(alloc, at, filled, names, values),
        },
        CheckedOutcome::Rejects { .. } | CheckedOutcome::Refused => Ok(None),
    }
}

// What an outcome binds, if the answer meets it.
fn outcome_met(
    alloc: Global,
    at: At<'_>,
    outcome: &CheckedOutcome<'_, '_>,
    names: &[Named],
    answer: &Answer<'_>,
) -> Result<Option<Vec<Named>>, NoMemory>
    ensures { (came : Came) → IsAnswer (types_at at.entry) came answer.now → Finds (λ bound. bound.items) (Meets (types_at at.entry) names.now outcome.now came) result }
{
    match answer {
        Answer::Values(values) => reply_met(alloc, at, outcome, names, values),
        Answer::Rejected { code, text } => match outcome {
            CheckedOutcome::Rejects {
                code: wanted,
                text: part,
            } => Ok(bound_if(alloc, is_rejected_so(*wanted, part, *code, text))),
            CheckedOutcome::Replies(_) | CheckedOutcome::Refused => Ok(None),
        },
        Answer::Refused => match outcome {
            CheckedOutcome::Refused => Ok(bound_if(alloc, true)),
            CheckedOutcome::Replies(_) | CheckedOutcome::Rejects { .. } => Ok(None),
        },
        Answer::Other => Ok(None),
    }
}

// What the first of the outcomes binds that the answer meets.
fn first_met(
    alloc: Global,
    at: At<'_>,
    outcomes: &[CheckedOutcome<'_, '_>],
    names: &[Named],
    answer: &Answer<'_>,
) -> Result<Option<Vec<Named>>, NoMemory>
    ensures { (came : Came) → IsAnswer (types_at at.entry) came answer.now → Finds (λ bound. bound.items) (MeetsFirst (types_at at.entry) names.now outcomes.now came) result }
{
    for outcome in outcomes {
        let bound = outcome_met(alloc, at, outcome, names, answer)?;
        if bound.is_some() {
            return Ok(bound);
        }
    }
    Ok(None)
}

/// What the first outcome binds that what came meets; without outcomes any reply is expected. More
/// than 16,777,216 tokens in place of names count as out of memory.
pub fn met(
    alloc: Global,
    at: At<'_>,
    outcomes: &[CheckedOutcome<'_, '_>],
    names: &[Named],
    came: &Came,
) -> Result<Option<Vec<Named>>, NoMemory>
    // What is answered is bound by the first outcome that is met.
    ensures found { IfOk result (λ found. IfSome found (λ bound. MeetsOne (types_at at.entry) names.now outcomes.now came.now bound.items)) }
    // Where nothing is answered no outcome is met.
    ensures only { IfOk result (λ found. found ≡ None → (bound : List naming.Named) → MeetsOne (types_at at.entry) names.now outcomes.now came.now bound → ⊥) }
{
    let answer = answer_of(alloc, at, came)?;
    if outcomes.is_empty() {
        return first_met(alloc, at, &[CheckedOutcome::Replies(None)], names, &answer);
    }
    first_met(alloc, at, outcomes, names, &answer)
}
