ghost use Rattle.std.specs.Prelude.{◌≡◌, ◌≤◌, ◌==◌, ◌&&◌, length, option_map};
ghost use Rattle.cd_tokens.specs.Bytes.{is_blank};
ghost use Rattle.cd_tokens.specs.ReadGap.{step, may_end, may_stop, past_gap};

/// Where in a gap a byte stands.
#[derive(Clone, Copy)]
enum Place {
    /// Before a blank, a comment or a token.
    Between,
    /// After the first slash of a comment.
    Slash,
    /// In a comment to the end of its line.
    Line,
    /// In a comment up to `*/`.
    Block { star: bool },
}

fn is_blank(byte: u8) -> bool
    ensures { result ≡ is_blank byte }
{
    matches!(byte, b' ' | b'\t' | b'\n' | b'\r')
}

fn begins_comment(comments: bool, byte: u8) -> bool
    ensures { result ≡ (comments && byte == 47) }
{
    comments && byte == b'/'
}

impl Place {
    fn step(self, comments: bool, byte: u8) -> Option<Place>
        ensures { result ≡ step comments self byte }
    {
        match self {
            Place::Between => {
                if is_blank(byte) {
                    Some(Place::Between)
                } else if begins_comment(comments, byte) {
                    Some(Place::Slash)
                } else {
                    None
                }
            }
            Place::Slash => {
                if byte == b'/' {
                    Some(Place::Line)
                } else if byte == b'*' {
                    Some(Place::Block { star: false })
                } else {
                    None
                }
            }
            Place::Line => {
                if byte == b'\n' {
                    Some(Place::Between)
                } else {
                    Some(Place::Line)
                }
            }
            Place::Block { star } => {
                if begins_comment(star, byte) {
                    Some(Place::Between)
                } else {
                    Some(Place::Block { star: byte == b'*' })
                }
            }
        }
    }

    fn may_end(self) -> bool
        ensures { result ≡ may_end self }
    {
        match self {
            Place::Between | Place::Line => true,
            Place::Slash | Place::Block { .. } => false,
        }
    }

    fn may_stop(self) -> bool
        ensures { result ≡ may_stop self }
    {
        match self {
            Place::Between => true,
            Place::Slash | Place::Line | Place::Block { .. } => false,
        }
    }
}

/// What comes after the gap. `None`: a comment is not closed.
pub(crate) fn past_gap(comments: bool, text: &[u8]) -> Option<&[u8]>
    ensures { option_map (λ rest. rest.now) result ≡ past_gap comments text.now }
{
    let mut place = Place::Between;
    for (index, byte) in text.iter().enumerate() {
        match place.step(comments, *byte) {
            Some(next) => place = next,
            None => {
                return if place.may_stop() {
                    Some(text.split_at(index).1)
                } else {
                    None
                };
            }
        }
    }
    if place.may_end() { Some(&[]) } else { None }
}

/// How far the gap reaches that the text begins with: up to a token, to a comment that does not end,
/// or to a byte that begins neither.
pub(crate) fn gap_len(comments: bool, text: &[u8]) -> usize
    ensures bound { result ≤ length text.now }
{
    let mut len = 0;
    let mut place = Place::Between;
    for (index, byte) in text.iter().enumerate() {
        match place.step(comments, *byte) {
            None => return len,
            Some(next) => {
                place = next;
                if place.may_stop() {
                    len = index + 1;
                }
            }
        }
    }
    len
}
