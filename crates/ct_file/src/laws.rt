//! What holds of test files: the function does nothing, and its contract is the law.

ghost use Rattle.std.specs.Prelude.{◌≡◌, List, ℕ};
ghost use Rattle.ct_file.specs.Fits.{IsFile};
ghost use Rattle.ct_file.specs.declared.tree.File.{File};

/// A text is one file at most.
pub fn one_file()
    ensures { (file other : File) (text : List ℕ) → IsFile file text → IsFile other text → file ≡ other }
{}
