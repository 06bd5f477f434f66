ghost use Rattle.std.specs.Prelude.{ℕ, ℤ, List, ◌<◌, ◌≤◌, ◌^◌, length, FitsSigned};
ghost use Rattle.ic_leb.specs.declared.width.Width.{Width};
ghost use Rattle.ic_leb.specs.Width.{bits, int_width};
ghost use Rattle.ic_leb.specs.Spells.{SpellsUnsigned, SpellsSigned};
ghost use Rattle.ic_leb.specs.Spelling.{unsigned_spelling, signed_spelling};

/// What `write_u` appends spells the number at each width that the number fits, and nothing
/// shorter does. It is a law, and does nothing when it is called.
pub fn shortest_unsigned()
    ensures spells { (width : Width) (n : ℕ) → n < 2 ^ bits width → SpellsUnsigned width n (unsigned_spelling n) }
    ensures shortest { (width : Width) (n : ℕ) (bytes : List ℕ) → SpellsUnsigned width n bytes → length (unsigned_spelling n) ≤ length bytes }
{}

/// What `write_s` appends spells the number at each width that the number fits, and nothing
/// shorter does. It is a law, and does nothing when it is called.
pub fn shortest_signed()
    ensures spells { (width : Width) (z : ℤ) → FitsSigned (int_width width) z → SpellsSigned width z (signed_spelling z) }
    ensures shortest { (width : Width) (z : ℤ) (bytes : List ℕ) → SpellsSigned width z bytes → length (signed_spelling z) ≤ length bytes }
{}
