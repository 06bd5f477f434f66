ghost use Rattle.std.specs.Prelude.{◌≤◌};

use cd_tokens::Token;

// Whether a token may be a label: a word, a number or a string.
fn may_be_label(token: &Token<'_>) -> bool {
    match token {
        Token::Run(_) | Token::Quoted(_) => true,
        Token::Mark(_) | Token::Arrow => false,
    }
}

// Whether a value begins after a token, where a word, a number or a string goes on.
fn begins_value(before: &Token<'_>) -> bool {
    match before {
        Token::Run(run) => run.bytes == b"opt".as_slice(),
        Token::Mark(mark) => *mark != b'.' && *mark != b':',
        Token::Quoted(_) | Token::Arrow => false,
    }
}

// Whether the last of tokens that go on with one another is the first of a value, and may be a label.
fn end_in_label(tokens: &[Token<'_>]) -> bool {
    match tokens {
        [] => false,
        [token] => may_be_label(token),
        [.., before, token] => may_be_label(token) && begins_value(before),
    }
}

/// Where a fault is told that is seen at a token. A word, a number or a string that begins a value is
/// taken as a label where `=` follows it, so the fault is at it and not at `=`.
pub(crate) fn told_at(tokens: &[Token<'_>], index: usize) -> usize
    ensures { result ≤ index }
{
    match tokens.get(index) {
        Some(Token::Mark(b'=')) => {
            if end_in_label(tokens.split_at(index).0) {
                index.saturating_sub(1)
            } else {
                index
            }
        }
        _ => index,
    }
}
