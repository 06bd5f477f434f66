ghost use Rattle.std.specs.Prelude.{◌≡◌, ◌&&◌, not, map};
ghost use Rattle.cd_tokens.specs.Label.{is_name};
ghost use Rattle.ct_names.specs.Words.{is_among, is_candid_word, is_free_name};

use cd_tokens::is_name;

/// The words of Candid's values, and of patterns.
const CANDID_WORDS: [&[u8]; 13] = [
    b"true",
    b"false",
    b"null",
    b"opt",
    b"vec",
    b"record",
    b"variant",
    b"func",
    b"service",
    b"principal",
    b"blob",
    b"let",
    b"_",
];

fn is_among(words: &[&[u8]], word: &[u8]) -> bool
    ensures { result ≡ is_among (map (λ w. w.now) words.now) word.now }
{
    for other in words {
        if word == *other {
            return true;
        }
    }
    false
}

/// Whether the word is one of Candid's values or patterns, which no name is.
pub fn is_candid_word(word: &[u8]) -> bool
    ensures { result ≡ is_candid_word word.now }
{
    is_among(&CANDID_WORDS, word)
}

/// Whether the bytes are a word that a name may be.
pub fn is_free_name(word: &[u8]) -> bool
    ensures { result ≡ is_free_name word.now }
{
    is_name(word) && !is_candid_word(word)
}
