ghost use Rattle.std.specs.Prelude.{◌≡◌, ℕ};
ghost use Rattle.wm_valid.specs.IsValid.{Validated, IsValid};
ghost use Rattle.wm_store.specs.Lists.{Lists, HoldsBytes};
ghost use Rattle.wm_store.specs.Fits.{Fits};
ghost use Rattle.wm_semantics.specs.declared.target.Target.{Target as ATarget};
ghost use Rattle.wm_semantics.specs.Steps.{Outcome};
ghost use Rattle.wm_semantics.specs.Begin.{Invokes, InvokesOn, IsTarget};

use crate::host::Host;
use crate::keeps::Keeps;

/// Where a module is valid and a store fits it, no state that a target leads to is stuck, with any
/// host. Each call that it asks of the host is there and takes the arguments, and each answer leads on.
pub fn never_stuck<H: Host>()
    ensures { (v : Validated) (s : Lists) (limit used : ℕ) (h : H) (to : ATarget)
        → IsValid v → Fits v.module s → HoldsBytes s → IsTarget v.module to
        → InvokesOn H.answers v.module limit h s used to }
{}

/// The store that a run ends with fits the module too, also after a trap.
pub fn store_fits<H: Host>()
    ensures fits { (v : Validated) (s : Lists) (limit used : ℕ) (h : H) (to : ATarget) (o : Outcome H)
        → IsValid v → Fits v.module s → HoldsBytes s → IsTarget v.module to
        → Invokes H.answers v.module limit h s used to o → Fits v.module o.store }
    ensures bytes { (v : Validated) (s : Lists) (limit used : ℕ) (h : H) (to : ATarget) (o : Outcome H)
        → IsValid v → Fits v.module s → HoldsBytes s → IsTarget v.module to
        → Invokes H.answers v.module limit h s used to o → HoldsBytes o.store }
{}

/// What each answer of the host keeps, and each reduction, a whole run keeps.
pub fn run_keeps<H: Keeps>()
    ensures { (v : Validated) (s : Lists) (limit used : ℕ) (h : H) (to : ATarget) (o : Outcome H)
        → IsValid v → Fits v.module s → HoldsBytes s → IsTarget v.module to
        → Invokes H.answers v.module limit h s used to o → H.kept h s used o.host o.store o.used }
{}
