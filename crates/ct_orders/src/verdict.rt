ghost use Rattle.std.specs.Prelude.{ℕ, List};
ghost use Rattle.ct_check.specs.declared.checked.CheckedStep.{CheckedStep};
ghost use Rattle.ct_run.specs.Statements.{Setting};
ghost use Rattle.ct_orders.specs.Verdicts.{FailsFirst};
ghost use Rattle.ct_orders.specs.Course.{IsVerdict};

use ct_cases::Failing;
use ct_run::{Failure, Names};

/// A statement that is not met in a case, and what names stand for there.
#[derive(Drop)]
pub struct NotMet<'i> {
    pub failure: Failure<'i>,
    pub names: Names,
}

/// An interleave that has more cases than may be met: how many parts of the test come before it, and its place in the
/// text.
#[derive(Clone, Copy, Debug)]
pub struct TooMany {
    pub part: usize,
    pub place: usize,
}

/// What comes of a test.
#[derive(Drop)]
pub enum Verdict<'i> {
    /// Each statement is met on every way through it.
    Passed,
    /// One is not, in the first such case.
    Failed(NotMet<'i>),
    /// All that was seen is met, but an interleave has more cases than may be met: the first that has.
    Undecided(TooMany),
}

/// Where a way through a test ends.
#[derive(Clone, Copy, Debug, PartialEq, Eq)]
pub enum Last {
    /// With the test.
    End,
    /// With the statement that begins at this place, which is not met.
    Statement(usize),
    /// With the calls of the interleave at this place, since none of its orders came to an end.
    Calls(usize),
}

/// A way through a test: the places of the messages that are delivered in its interleaves, one after another.
#[derive(Drop)]
pub struct Way {
    pub order: Vec<usize>,
    pub last: Last,
}

/// How a test ended, and the way on which it did: that of the case that fails, or else of the first case.
#[derive(Drop)]
pub struct Ended<'i> {
    pub verdict: Verdict<'i>,
    pub way: Way,
}

/// The end of the test, after this many parts.
pub(crate) fn ended_at<'i>(failing: Failing<'i>, place: usize) -> Ended<'i>
    ensures { (setting : Setting) (most : ℕ) (steps : List CheckedStep) → FailsFirst setting most steps place failing.entry.order.items failing.entry.names failing.entry.unmet.came → IsVerdict setting most steps result }
{
    let Failing {
        span,
        unmet,
        names,
        order,
    } = failing;
    let failure = Failure { place, span, unmet };
    let last = Last::Statement(span.start);
    Ended {
        verdict: Verdict::Failed(NotMet { failure, names }),
        way: Way { order, last },
    }
}
