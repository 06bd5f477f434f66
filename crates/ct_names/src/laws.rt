//! What holds of names: each function does nothing, and its contract is the law.

ghost use Rattle.std.specs.Prelude.{◌≡◌, ◌∷◌, [], List, ℕ, true, codes};
ghost use Rattle.cd_tokens.specs.Token.{Token, run};
ghost use Rattle.cd_tokens.specs.Marks.{dot, colon, equals, open_brace};
ghost use Rattle.ct_names.specs.Words.{is_candid_word};
ghost use Rattle.ct_names.specs.declared.role.Before as before;
ghost use Rattle.ct_names.specs.Roles.{may_begin, role, after};
ghost use Rattle.ct_names.specs.Exchange.{count, exchanged};

/// Where each name stands for itself, the tokens are as they were.
pub fn names_are_left()
    ensures { (tokens : List Token) → exchanged (λ name. run name ∷ []) tokens ≡ tokens }
{}

/// Whatever is before it, a word is no use of a name before `=`, after a dot or a colon, as the first in
/// the braces of a variant, or where it is one of Candid's.
pub fn no_uses()
    ensures before_equals { (b : before.Before) (t : Token) (rest : List Token) → count (role b t (equals ∷ rest)) ≡ 0 }
    ensures after_dot { (b : before.Before) (t : Token) (rest : List Token) → count (role (after b dot (t ∷ rest)) t rest) ≡ 0 }
    ensures after_colon { (b : before.Before) (t : Token) (rest : List Token) → count (role (after b colon (t ∷ rest)) t rest) ≡ 0 }
    ensures first_in_variant { (b : before.Before) (t : Token) (rest : List Token) → may_begin b (open_brace ∷ t ∷ rest) ≡ true → count (role (after (after b (run (codes "variant")) (open_brace ∷ t ∷ rest)) open_brace (t ∷ rest)) t rest) ≡ 0 }
    ensures of_candid { (b : before.Before) (word : List ℕ) (rest : List Token) → is_candid_word word ≡ true → count (role b (run word) rest) ≡ 0 }
{}
