//! What holds of tokens and of what they say: each function does nothing, and its contract is the
//! law.

ghost use Rattle.std.specs.Prelude.{◌≡◌, ◌↔◌, ℕ, ℤ, Bool, List, Some};
ghost use Rattle.cd_tokens.specs.Label.{IsTextOf, IsNameOf, IsLabel};
ghost use Rattle.cd_tokens.specs.Lexed.{IsTokens};
ghost use Rattle.cd_tokens.specs.Numeral.{IsNatural, IsInteger};
ghost use Rattle.cd_tokens.specs.ReadLabel.{text_of, name_of, label_of};
ghost use Rattle.cd_tokens.specs.ReadNumeral.{natural_of, integer_of};
ghost use Rattle.cd_tokens.specs.ReadString.{unescaped_of};
ghost use Rattle.cd_tokens.specs.ReadTokens.{tokens_of};
ghost use Rattle.cd_tokens.specs.Token.{Token};
ghost use Rattle.cd_tokens.specs.Unescaped.{Unescaped};

/// A text has one list of tokens at most.
pub fn one_list()
    ensures { (comments : Bool) (tokens others : List Token) (text : List ℕ) → IsTokens comments tokens text → IsTokens comments others text → tokens ≡ others }
{}

/// The function that reads tokens (`specs/ReadTokens`) reads the tokens of a text, and nothing else.
pub fn tokens_read()
    ensures { (comments : Bool) (tokens : List Token) (text : List ℕ) → (tokens_of comments text ≡ Some tokens) ↔ IsTokens comments tokens text }
{}

/// The functions that read numbers (`specs/ReadNumeral`) read what a token says, and nothing else.
pub fn numbers_read()
    ensures natural { (n : ℕ) (bytes : List ℕ) → (natural_of bytes ≡ Some n) ↔ IsNatural n bytes }
    ensures integer { (z : ℤ) (bytes : List ℕ) → (integer_of bytes ≡ Some z) ↔ IsInteger z bytes }
{}

/// The functions that read strings, names and labels (`specs/ReadString`, `specs/ReadLabel`) read
/// what a token says, and nothing else.
pub fn strings_read()
    ensures bytes { (said written : List ℕ) → (unescaped_of written ≡ Some said) ↔ Unescaped said written }
    ensures text { (text written : List ℕ) → (text_of written ≡ Some text) ↔ IsTextOf text written }
    ensures name { (name : List ℕ) (token : Token) → (name_of token ≡ Some name) ↔ IsNameOf name token }
    ensures label { (id : ℕ) (token : Token) → (label_of token ≡ Some id) ↔ IsLabel id token }
{}
