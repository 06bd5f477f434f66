ghost use Rattle.std.specs.Prelude.{◌≡◌, None};
ghost use Rattle.wm_tree.specs.declared.parts.Module.{Module as AModule};
ghost use Rattle.wm_valid.specs.Checked.{checked};
ghost use Rattle.wm_valid.specs.Passes.{Passes};

/// No check fails exactly where each passes. It is a law, and does nothing when it is called.
pub fn every_check_passes()
    ensures each { (m : AModule) → checked m ≡ None → Passes m }
    ensures all { (m : AModule) → Passes m → checked m ≡ None }
{}
