//! What holds of interface files: each function does nothing, and its contract is the law.

ghost use Rattle.std.specs.Prelude.{◌≡◌, List, ℕ};
ghost use Rattle.cd_grammar.specs.File.{File};
ghost use Rattle.cd_grammar.specs.Grammar.{IsFile};

/// A text is one file at most.
pub fn one_file()
    ensures { (file other : File) (text : List ℕ) → IsFile file text → IsFile other text → file ≡ other }
{}
