ghost use Rattle.std.specs.Prelude.{◌≡◌, ◌≤◌, suc, length, take, count_by};
ghost use Rattle.std.specs.List.{suffix_len};
ghost use Rattle.ct_file.specs.Position.{is_line_feed, is_inside_line};

use std::fmt;

/// A place in a text as people count it: lines, which end with a line feed, and the bytes of a line,
/// both from 1.
#[derive(Clone, Copy, Debug, PartialEq, Eq)]
pub struct Position {
    pub line: usize,
    pub column: usize,
}

impl fmt::Display for Position {
    fn fmt<W: fmt::Write>(&self, f: &mut fmt::Formatter<W>) -> fmt::Result {
        let line = self.line;
        let column = self.column;
        write!(f, "{line}:{column}")
    }
}

/// The position of the byte at an offset, or of the text's end.
pub fn position_of(text: &[u8], place: usize) -> Position
    requires { place ≤ length text.now }
    ensures line { result.line ≡ suc (count_by is_line_feed (take place text.now)) }
    ensures column { result.column ≡ suc (suffix_len is_inside_line (take place text.now)) }
{
    let (before, _) = text.split_at(place);
    let mut line = 1;
    let mut column = 1;
    for byte in before {
        if *byte == b'\n' {
            line += 1;
            column = 1;
        } else {
            column += 1;
        }
    }
    Position { line, column }
}
