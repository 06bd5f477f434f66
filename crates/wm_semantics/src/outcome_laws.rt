//! What holds of the outcomes of runs and targets: each function does nothing, and its contract is
//! the law.

ghost use Rattle.std.specs.Prelude.{◌≡◌, ℕ, suc, Some, option_map};
ghost use Rattle.wm_tree.specs.declared.parts.Module.{Module};
ghost use Rattle.wm_store.specs.Lists.{Lists};
ghost use Rattle.wm_semantics.specs.declared.target.Target.{Target};
ghost use Rattle.wm_semantics.specs.Steps.{State, Outcome, Reaches, NeverStuck};
ghost use Rattle.wm_semantics.specs.Begin.{Invokes, InvokesOn};
ghost use Rattle.wm_semantics.specs.Entry.{Entered, Entry, entry};
ghost use Rattle.wm_semantics.specs.Through.{IsSeenAs, outcome_through};
ghost use Rattle.wm_semantics.specs.Fuel.{HostOf, answers_of, IsFunctional, AgreesWith, Rises, run_for, measure, invoked};

use crate::host::Host;

/// A run and a target have one outcome at most, where the host answers in one way at most.
pub fn one_outcome<H: Host>()
    ensures runs { IsFunctional H.answers → (m : Module) (limit : ℕ) (s : State H) (o p : Outcome H) → Reaches H.answers m limit s o → Reaches H.answers m limit s p → o ≡ p }
    ensures targets { IsFunctional H.answers → (m : Module) (limit : ℕ) (h : H) (s : Lists) (used : ℕ) (target : Target) (o p : Outcome H) → Invokes H.answers m limit h s used target o → Invokes H.answers m limit h s used target p → o ≡ p }
{}

/// Where a function gives the host's answers, it gives the outcome.
pub fn by_fuel<H: Host>()
    ensures runs { (reply : HostOf H) → Rises reply → AgreesWith reply H.answers → (m : Module) (limit : ℕ) (s : State H) (o : Outcome H) → Reaches H.answers m limit s o → run_for reply m limit (suc (measure limit s)) s ≡ Some o }
    ensures targets { (reply : HostOf H) → Rises reply → AgreesWith reply H.answers → (m : Module) (limit : ℕ) (h : H) (s : Lists) (used : ℕ) (target : Target) (o : Outcome H) → Invokes H.answers m limit h s used target o → invoked reply m limit h s used target ≡ Some o }
{}

/// What the function gives is an outcome.
pub fn fuel_reaches<H>()
    ensures runs { (reply : HostOf H) (m : Module) (limit n : ℕ) (s : State H) (o : Outcome H) → run_for reply m limit n s ≡ Some o → Reaches (answers_of reply) m limit s o }
    ensures targets { (reply : HostOf H) (m : Module) (limit : ℕ) (h : H) (s : Lists) (used : ℕ) (target : Target) (o : Outcome H) → invoked reply m limit h s used target ≡ Some o → Invokes (answers_of reply) m limit h s used target o }
{}

/// A run and a target that never get stuck have an outcome, where the host is a function.
pub fn some_outcome<H>()
    ensures runs { (reply : HostOf H) → Rises reply → (m : Module) (limit : ℕ) (s : State H) → NeverStuck (answers_of reply) m limit s → (o : Outcome H) × (run_for reply m limit (suc (measure limit s)) s ≡ Some o) × Reaches (answers_of reply) m limit s o }
    ensures targets { (reply : HostOf H) → Rises reply → (m : Module) (limit : ℕ) (h : H) (s : Lists) (used : ℕ) (target : Target) → InvokesOn (answers_of reply) m limit h s used target → (o : Outcome H) × (invoked reply m limit h s used target ≡ Some o) × Invokes (answers_of reply) m limit h s used target o }
{}

/// Where a function gives the host's answers, it gives the outcome of an entry.
pub fn entry_is<H: Host>()
    ensures { (reply : HostOf H) → Rises reply → AgreesWith reply H.answers → (m : Module) (s : Lists) (target : Target) (h : H) (limit spent : ℕ) (e : Entered H) → Entry H.answers m s target h limit spent e → entry reply m s target h limit spent ≡ e }
{}

/// What the function gives is the outcome of an entry that never gets stuck.
pub fn entry_runs<H>()
    ensures { (reply : HostOf H) → Rises reply → (m : Module) (s : Lists) (target : Target) (h : H) (limit spent : ℕ) → InvokesOn (answers_of reply) m limit h s spent target → Entry (answers_of reply) m s target h limit spent (entry reply m s target h limit spent) }
{}

/// Where one host, looked at through a function, answers as another does, what comes of it, looked at so, is what comes of
/// the other: what is not looked at changes no run.
pub fn seen_through<H, G>()
    ensures { (see : H → G) (reply : HostOf H) (seen : HostOf G) → IsSeenAs see reply seen → (m : Module) (limit : ℕ) (h : H) (s : Lists) (used : ℕ) (target : Target)
        → invoked seen m limit (see h) s used target ≡ option_map (outcome_through see) (invoked reply m limit h s used target) }
{}
