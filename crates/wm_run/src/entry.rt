ghost use Rattle.std.specs.Prelude.{◌≡◌, IfSome};
ghost use Rattle.std.specs.Option.{option_map};
ghost use Rattle.wm_valid.specs.Entries.{entry_of};
ghost use Rattle.wm_semantics.specs.Begin.{IsTarget};
ghost use Rattle.wm_semantics.specs.declared.target.Target.TheVariants as target;

use wm_semantics::Target;
use wm_valid::{EntryName, Valid, every_check_passes};

/// The function that is exported as this entry point, as what `invoke` runs. The name is that of the
/// method, and is read for `Update` and `Query` alone.
pub fn entry_target(valid: &Valid, kind: EntryName, name: &str) -> Option<Target>
    ensures target { result ≡ option_map (λ f. target.Function f) (entry_of valid.now.module kind name.now) }
    // An entry point takes and gives nothing.
    ensures procedure { IfSome result (IsTarget valid.now.module) }
{
    match valid.entry(kind, name) {
        Some(function) => Some(Target::Function(function)),
        None => None,
    }
}

/// The start function, as what `invoke` runs.
pub fn start_target(valid: &Valid) -> Option<Target>
    ensures target { result ≡ option_map (λ f. target.Function f) valid.now.module.start }
    // A start function takes and gives nothing.
    ensures procedure { IfSome result (IsTarget valid.now.module) }
{
    every_check_passes();
    match valid.module().start {
        Some(function) => Some(Target::Function(function)),
        None => None,
    }
}
