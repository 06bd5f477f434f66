//! What holds of the host and of executions: each function does nothing, and its contract is the law.

ghost use Rattle.std.specs.Prelude.{◌≡◌, ℕ, false, List, []};
ghost use Rattle.wm_store.specs.Lists.{Lists};
ghost use Rattle.wm_semantics.specs.declared.target.Target.{Target as ATarget};
ghost use Rattle.wm_semantics.specs.Fuel.{IsFunctional, AgreesWith, Rises};
ghost use Rattle.ic_behaviour.specs.declared.execution.EntryKind.{EntryKind as AKind};
ghost use Rattle.ic_behaviour.specs.declared.execution.View.{View as AView};
ghost use Rattle.ic_behaviour.specs.declared.execution.Effects.{Effects as SomeEffects};
ghost use Rattle.ic_behaviour.specs.State.{Code as SomeCode};
ghost use Rattle.ic_behaviour.specs.Outcomes.{Returns};
ghost use Rattle.ic_behaviour.specs.Entry.{enters_by};
ghost use Rattle.ic_behaviour.specs.Installing.{enters_after};
ghost use Rattle.ic_api.specs.Kinds.{may_call};
ghost use Rattle.ic_api.specs.Running.{Running, starting, api_reply, Meets};
ghost use Rattle.ic_api.specs.Effects.{effects_of};
ghost use Rattle.ic_api.specs.Kept.{RunKept};
ghost use Rattle.ic_api.specs.Executed.{Executed};
ghost use Rattle.ic_api.specs.System.{system_api};
ghost use Rattle.ic_heard.specs.Hears.{Speech};
ghost use Rattle.ic_api.specs.Hearing.{Listening, Hears, hearing_reply, hearing_api};

/// The host is the function `api_reply`.
pub fn host_is_function()
    ensures agrees { AgreesWith api_reply Meets }
    ensures functional { IsFunctional Meets }
    ensures rises { Rises api_reply }
{}

/// Each reply keeps what a run keeps, whatever the record, the call and its arguments are.
pub fn replies_keep()
    ensures { (h : Running) (import : ℕ) (args : List ℕ) (s : Lists) (limit used : ℕ) → RunKept h (api_reply h import args s limit used).host }
{}

/// What a run keeps of its host, an execution keeps from what it sees to its effects.
pub fn executions_keep()
    ensures { (kind : AKind) (view : AView) (h : Running) → RunKept (starting kind view) h → Executed kind view (effects_of h) }
{}

/// Whatever code is entered, with whatever store and view: what it does makes and loses no cycles,
/// and answers once.
pub fn entries_are_lawful()
    ensures { (code : SomeCode) (s : Lists) (target : ATarget) (kind : AKind) (view : AView) (limit : ℕ) (t : Lists) (e : SomeEffects) (used : ℕ)
        → enters_by system_api code s target kind view limit ≡ Returns t e used → Executed kind view e }
{}

/// What may make no call, as the entry points of an installation and the start function, leaves the
/// balance, however much was used before: so nothing is lost where an installation keeps the store and
/// the certified data alone.
pub fn installations_are_quiet()
    ensures { (code : SomeCode) (s : Lists) (target : ATarget) (kind : AKind) (view : AView) (limit spent : ℕ) (t : Lists) (e : SomeEffects) (used : ℕ)
        → may_call kind ≡ false → enters_after system_api code s target kind view limit spent ≡ Returns t e used → (e.balance ≡ view.balance) × (e.calls ≡ []) }
{}

/// The host to which somebody listens is the function `hearing_reply`.
pub fn hearing_is_function()
    ensures agrees { AgreesWith hearing_reply Hears }
    ensures functional { IsFunctional Hears }
    ensures rises { Rises hearing_reply }
{
    host_is_function();
}

/// Whatever was heard before, code that is entered leaves the same store, has the same effects and uses the same as where
/// nobody listens, and traps where it does there.
pub fn hearing_changes_nothing()
    ensures { (before : Speech) (code : SomeCode) (s : Lists) (target : ATarget) (kind : AKind) (view : AView) (limit spent : ℕ)
        → enters_after (hearing_api before) code s target kind view limit spent ≡ enters_after system_api code s target kind view limit spent }
{}
