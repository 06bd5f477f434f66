ghost use Rattle.std.specs.Prelude.{◌≡◌, Bool, List, ℕ};
ghost use Rattle.wm_tree.specs.declared.parts.Module.{Module};
ghost use Rattle.wm_decode.specs.Mod.{Mod};

/// No bytes spell two modules, with float forms or without.
pub fn one_module()
    ensures { (float : Bool) (m n : Module) (bytes : List ℕ) → Mod float m bytes → Mod float n bytes → m ≡ n }
{}
