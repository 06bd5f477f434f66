ghost use Rattle.std.specs.Prelude.{ℕ};
ghost use Rattle.ic_behaviour.specs.Entry.{enters_by};
ghost use Rattle.ic_behaviour.specs.Deliver.{Outside};
ghost use Rattle.ic_api.specs.System.{system_api};
ghost use Rattle.ic_run_laws.specs.EntryKeeps.{EntriesKeep};
ghost use Rattle.ic_run_laws.specs.Advances.{OutsideKeeps};
ghost use Rattle.ic_run_laws.specs.RulesKeep.{RulesKeep};
ghost use Rattle.ic_run_laws.specs.System.{system_rules};

/// The System API lets code do nothing but what keeps a state sound, so the laws hold of canisters
/// as they run.
pub fn system_api_keeps()
    ensures entries { EntriesKeep (enters_by system_api) }
    ensures rules { (outside : Outside) (limit price : ℕ) → OutsideKeeps outside
        → RulesKeep (system_rules outside limit price) }
{}
