ghost use Rattle.std.specs.Prelude.{◌≡◌, ◌+◌, List, ℕ, length};
ghost use Rattle.wm_tree.specs.declared.instr.Instr.{Instr as AnInstr};
ghost use Rattle.wm_tree.specs.Seq.{Seq, IsFlat, IsProper, flatten, past};
ghost use Rattle.wm_tree.specs.TreeOf.{tree_of};

/// The tree of a sequence's words is the sequence.
pub fn tree_of_words()
    ensures { (t : Seq) → IsProper t → tree_of (flatten t) ≡ t }
{}

/// Words that are those of some proper sequence are those of their tree.
pub fn words_of_tree()
    ensures proper { (words : List AnInstr) → IsFlat words → IsProper (tree_of words) }
    ensures same { (words : List AnInstr) → IsFlat words → flatten (tree_of words) ≡ words }
{}

/// The place after a sequence is as many places on as it has words.
pub fn place_behind()
    ensures { (t : Seq) (p : ℕ) → past t p ≡ length (flatten t) + p }
{}
