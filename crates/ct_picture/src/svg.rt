//! Texts in SVG.

use ic_base::NoMemory;
use std::alloc::Global;

/// The width of a character, or more.
const CHARACTER: usize = 8;

/// How many bytes of a text are shown, and of the name of a column.
pub(crate) const LONGEST: usize = 110;

pub(crate) const LONGEST_NAME: usize = 40;

/// How a picture is drawn, in a light page and in a dark one; and the head of an arrow.
pub(crate) const STYLE: &str = "<style>
svg { color: #1a1a1a; background: #ffffff }
text { font: 13px monospace; fill: currentColor; stroke: #ffffff; stroke-width: 3px; paint-order: stroke }
line, path { stroke: currentColor; fill: none }
.life { stroke-opacity: 0.3 }
.answer { stroke-dasharray: 6 4 }
.statement { font-style: italic }
.said { fill-opacity: 0.75 }
text.bad { fill: #c22 }
line.bad, path.bad { stroke: #c22 }
@media (prefers-color-scheme: dark) {
svg { color: #e6e6e6; background: #161616 }
text { stroke: #161616 }
text.bad { fill: #f77 }
line.bad, path.bad { stroke: #f77 }
}
</style>
<marker id=\"head\" markerWidth=\"9\" markerHeight=\"8\" refX=\"8\" refY=\"4\" orient=\"auto\"><path d=\"M1,1 L8,4 L1,7\"/></marker>
";

// Adds a character as XML has it. Those that it has not are shown as U+FFFD.
fn push_character(character: char, out: &mut String) -> Result<(), NoMemory> {
    let code = u32::from(character);
    match character {
        '&' => out.push_str("&amp;"),
        '<' => out.push_str("&lt;"),
        '>' => out.push_str("&gt;"),
        _ if code < 0x20 || code == 0xFFFE || code == 0xFFFF => out.push('\u{FFFD}'),
        _ => out.push(character),
    }
}

/// A text as XML has it, as far as it is shown.
pub(crate) fn shown(alloc: Global, text: &[u8], longest: usize) -> Result<String, NoMemory> {
    let mut out = String::new(alloc);
    let mut length = 0_usize;
    for character in str::from_utf8(text).unwrap_or("").chars() {
        length = length.saturating_add(character.len_utf8());
        if length > longest {
            out.push('\u{2026}')?;
            break;
        }
        push_character(character, &mut out)?;
    }
    Ok(out)
}

/// A width in which the text has room, as far as it is shown.
pub(crate) fn width_of(text: &[u8], longest: usize) -> usize {
    let length = text.len().min(longest.saturating_add(1));
    CHARACTER.saturating_mul(length)
}
