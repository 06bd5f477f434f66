ghost use Rattle.std.specs.Prelude.{◌≡◌, List, [], ◌∷◌, ℕ, Some, slice_get, IsSome, IsSomeAnd};
ghost use Rattle.wm_tree.specs.declared.types.GlobalType.{GlobalType as AGlobalType};
ghost use Rattle.wm_tree.specs.declared.instr.Instr.{Instr as AnInstr};
ghost use Rattle.wm_tree.specs.declared.instr.Instr.TheVariants as instr;
ghost use Rattle.wm_tree.specs.declared.parts.Module.{Module as AModule};
ghost use Rattle.wm_tree.specs.Row.{row_of};
ghost use Rattle.wm_store.specs.Values.{AreValues};
ghost use Rattle.wm_store.specs.Lists.{Lists, HoldsBytes};
ghost use Rattle.wm_store.specs.Fits.{Fits};
ghost use Rattle.wm_store.specs.Meaning.{Meaning, meaning_of};
ghost use Rattle.wm_store.specs.MeaningLaws.{IsTyped, HasTypes, global_kinds, RunsWell};

/// An instruction's meaning takes and gives what validation says: by the signature of its class, or
/// by the type of its global.
pub fn meanings_are_typed()
    ensures classes { (globals : List AGlobalType) (i : AnInstr) → IsTyped (row_of i).class (meaning_of globals i) }
    ensures memory_size { (globals : List AGlobalType) → IsSome (meaning_of globals instr.MemorySize) }
    ensures memory_copy { (globals : List AGlobalType) → IsSome (meaning_of globals instr.MemoryCopy) }
    ensures memory_fill { (globals : List AGlobalType) → IsSome (meaning_of globals instr.MemoryFill) }
    ensures global_get { (globals : List AGlobalType) (x : ℕ) (t : AGlobalType) → slice_get globals x ≡ Some t
        → IsSomeAnd (meaning_of globals (instr.GlobalGet x)) (HasTypes [] (t.kind ∷ [])) }
    ensures global_set { (globals : List AGlobalType) (x : ℕ) (t : AGlobalType) → slice_get globals x ≡ Some t
        → IsSomeAnd (meaning_of globals (instr.GlobalSet x)) (HasTypes (t.kind ∷ []) []) }
{}

/// With operands in range, on a store that fits the module, an instruction has its results in range
/// and leaves such a store, or fails.
pub fn meanings_run_well()
    ensures { (m : AModule) (i : AnInstr) (row : Meaning) (s : Lists) (operands : List ℕ)
        → meaning_of (global_kinds m) i ≡ Some row → Fits m s → HoldsBytes s → AreValues row.takes operands
        → RunsWell m row.gives s (row.run operands s) }
{}
