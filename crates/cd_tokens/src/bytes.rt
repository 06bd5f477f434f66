ghost use Rattle.std.specs.Prelude.{◌≡◌};
ghost use Rattle.cd_tokens.specs.Bytes.{is_digit, is_letter, is_word_byte, is_sign, is_mark, goes_on};

pub(crate) fn is_digit(byte: u8) -> bool
    ensures { result ≡ is_digit byte }
{
    matches!(byte, b'0'..=b'9')
}

/// A letter, a digit or `_`.
pub(crate) fn is_word_byte(byte: u8) -> bool
    ensures { result ≡ is_word_byte byte }
{
    matches!(byte, b'a'..=b'z' | b'A'..=b'Z' | b'0'..=b'9' | b'_')
}

pub(crate) fn is_sign(byte: u8) -> bool
    ensures { result ≡ is_sign byte }
{
    byte == b'+' || byte == b'-'
}

pub(crate) fn is_mark(byte: u8) -> bool
    ensures { result ≡ is_mark byte }
{
    matches!(
        byte,
        b'(' | b')' | b'{' | b'}' | b':' | b';' | b',' | b'=' | b'.'
    )
}

/// Whether a letter, a digit or `_` comes first.
pub(crate) fn goes_on(bytes: &[u8]) -> bool
    ensures { result ≡ goes_on bytes.now }
{
    match bytes {
        [] => false,
        [first, ..] => is_word_byte(*first),
    }
}
