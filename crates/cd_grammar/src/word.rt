ghost use Rattle.std.specs.Prelude.{◌≡◌, map};
ghost use Rattle.cd_grammar.specs.Words.{word_of, word_in, note_of};

use cd_types::Primitive;

/// A word of the grammar: no definition has such a name.
#[derive(Clone, Copy)]
pub enum Word {
    Prim(Primitive),
    Float32,
    Float64,
    Blob,
    Opt,
    Seq,
    Rec,
    Var,
    Func,
    Service,
    /// `type`
    Definition,
    Query,
    Oneway,
    CompositeQuery,
}

/// All words, as they are written.
const WORDS: [(&[u8], Word); 29] = [
    (b"null", Word::Prim(Primitive::Null)),
    (b"bool", Word::Prim(Primitive::Bool)),
    (b"nat", Word::Prim(Primitive::Nat)),
    (b"int", Word::Prim(Primitive::Int)),
    (b"nat8", Word::Prim(Primitive::Nat8)),
    (b"nat16", Word::Prim(Primitive::Nat16)),
    (b"nat32", Word::Prim(Primitive::Nat32)),
    (b"nat64", Word::Prim(Primitive::Nat64)),
    (b"int8", Word::Prim(Primitive::Int8)),
    (b"int16", Word::Prim(Primitive::Int16)),
    (b"int32", Word::Prim(Primitive::Int32)),
    (b"int64", Word::Prim(Primitive::Int64)),
    (b"text", Word::Prim(Primitive::Text)),
    (b"reserved", Word::Prim(Primitive::Reserved)),
    (b"empty", Word::Prim(Primitive::Empty)),
    (b"principal", Word::Prim(Primitive::Principal)),
    (b"float32", Word::Float32),
    (b"float64", Word::Float64),
    (b"blob", Word::Blob),
    (b"opt", Word::Opt),
    (b"vec", Word::Seq),
    (b"record", Word::Rec),
    (b"variant", Word::Var),
    (b"func", Word::Func),
    (b"service", Word::Service),
    (b"type", Word::Definition),
    (b"query", Word::Query),
    (b"oneway", Word::Oneway),
    (b"composite_query", Word::CompositeQuery),
];

// The first of the words that is written so.
fn find_word(words: &[(&[u8], Word)], bytes: &[u8]) -> Option<Word>
    ensures { result ≡ word_in (map (λ w. (w.0.now, w.1)) words.now) bytes.now }
{
    for (spelling, word) in words {
        if bytes == *spelling {
            return Some(*word);
        }
    }
    None
}

impl Word {
    /// The word that is written so.
    pub(crate) fn of(bytes: &[u8]) -> Option<Word>
        ensures { result ≡ word_of bytes.now }
    {
        find_word(&WORDS, bytes)
    }

    /// The annotation that the word is.
    pub(crate) fn note(self) -> Option<u8>
        ensures { result ≡ note_of self }
    {
        match self {
            Word::Query => Some(1),
            Word::Oneway => Some(2),
            Word::CompositeQuery => Some(3),
            _ => None,
        }
    }
}
