use cd_tokens::is_name;
use ic_base::NoMemory;
use std::alloc::Global;

fn digit(value: u32) -> char {
    match char::from_digit(value, 16) {
        None => '0',
        Some(digit) => digit,
    }
}

// Adds a character as a Candid text has it between its quotes.
fn push_escaped(c: char, out: &mut String) -> Result<(), NoMemory> {
    let code = c as u32;
    if c == '"' || c == '\\' {
        out.push('\\')?;
        out.push(c)
    } else if code < 32 || code == 127 {
        out.push('\\')?;
        out.push(digit(code / 16))?;
        out.push(digit(code % 16))
    } else {
        out.push(c)
    }
}

/// A text in quotes, as a Candid text is printed.
pub fn quoted(alloc: Global, text: &str) -> Result<String, NoMemory> {
    let mut out = String::new(alloc);
    out.push('"')?;
    for c in text.chars() {
        push_escaped(c, &mut out)?;
    }
    out.push('"')?;
    Ok(out)
}

/// A name bare where it is one word, in quotes else.
pub(crate) fn word_or_quoted(alloc: Global, text: &str) -> Result<String, NoMemory> {
    if is_name(text.as_bytes()) {
        String::from_str(alloc, text)
    } else {
        quoted(alloc, text)
    }
}
