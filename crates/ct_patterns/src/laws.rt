//! What holds of patterns: each function does nothing, and its contract is the law.

ghost use Rattle.std.specs.Prelude.{◌≡◌, ◌↔◌, List, Some};
ghost use Rattle.cd_codec.specs.Content.{Content};
ghost use Rattle.ct_patterns.specs.declared.step.Step as steps;
ghost use Rattle.ct_patterns.specs.Views.{Bound};
ghost use Rattle.ct_patterns.specs.Meets.{Meets};
ghost use Rattle.ct_patterns.specs.Met.{met};

/// A function gives what a pattern binds to values that meet it, and nothing for others.
pub fn meets_met()
    ensures { (pattern : List steps.Step) (values : List Content) (bindings : List Bound) → Meets pattern values bindings ↔ (met pattern values ≡ Some bindings) }
{}

/// A pattern binds one thing at most to values.
pub fn one_meeting()
    ensures { (pattern : List steps.Step) (values : List Content) (bindings others : List Bound) → Meets pattern values bindings → Meets pattern values others → bindings ≡ others }
{}
