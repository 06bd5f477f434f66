use crate::delivery::push_principal;
use crate::rust_name::path_of;
use crate::tap::Lines;
use ct_outcomes::Named;
use ct_script::{Fallen, Spoken, Trace};
use ic_base::NoMemory;
use ic_heard::{Place, Said};
use ic_principal::{Bytes, Principal};
use std::alloc::Global;

/// What canisters said is told with: what names stand for.
#[derive(Clone, Copy)]
pub(crate) struct Naming<'t> {
    pub(crate) alloc: Global,
    pub(crate) names: &'t [Named],
}

// How many bytes the character has that begins with a byte, if one does.
fn len_of(first: u8) -> usize {
    if first < 0x80 {
        1
    } else if first < 0xE0 {
        2
    } else if first < 0xF0 {
        3
    } else {
        4
    }
}

// Whether a character is printed as it is: it is no control character, no line end and no `\`.
fn is_plain(character: char) -> bool {
    let code = u32::from(character);
    let is_control = code < 0x20 || (0x7F <= code && code < 0xA0);
    !is_control && code != 0x2028 && code != 0x2029 && character != '\\'
}

fn character_of(bytes: &[u8]) -> Option<char> {
    match str::from_utf8(bytes) {
        Ok(text) => text.chars().next(),
        Err(_) => None,
    }
}

// The first character of a text, where it is printed as it is.
fn plain_front(text: &[u8]) -> Option<&[u8]> {
    let first = text.first()?;
    let part = text.get(..len_of(*first))?;
    let character = character_of(part)?;
    if is_plain(character) {
        Some(part)
    } else {
        None
    }
}

// Adds the first character of a text, or its first byte as `\xx`. Gives how many bytes of the text these are.
fn push_front(alloc: Global, text: &[u8], out: &mut Vec<u8>) -> Result<usize, NoMemory> {
    match plain_front(text) {
        Some(part) => {
            out.extend_from_slice(part)?;
            Ok(part.len())
        }
        None => {
            let byte = text.first().copied().unwrap_or(0);
            let digits = format!(in alloc; "\\{byte:02x}")?;
            out.extend_from_slice(digits.as_bytes())?;
            Ok(1)
        }
    }
}

/// Adds a text in one line: control characters, bytes that are no UTF-8 and `\` as `\xx` a byte.
pub fn push_escaped(alloc: Global, text: &[u8], out: &mut Vec<u8>) -> Result<(), NoMemory> {
    let mut next = 0;
    for place in 0..text.len() {
        if place == next {
            let len = push_front(alloc, &text[place..], out)?;
            next = place.saturating_add(len);
        }
    }
    Ok(())
}

impl<'t> Naming<'t> {
    // Adds a text as far as it was kept, and how many bytes came after it.
    fn push_said(self, said: &Said, out: &mut Vec<u8>) -> Result<(), NoMemory> {
        push_escaped(self.alloc, &said.text.items, out)?;
        if said.more > 0 {
            let more = said.more;
            let told = format!(in self.alloc; "\\+{more}")?;
            out.extend_from_slice(told.as_bytes())?;
        }
        Ok(())
    }

    /// A text, after the name of who said it.
    pub(crate) fn spoken(self, spoken: &Spoken) -> Result<Bytes, NoMemory> {
        let mut items = Vec::new(self.alloc);
        push_principal(self.alloc, self.names, &spoken.canister, &mut items)?;
        items.extend_from_slice(b": ")?;
        self.push_said(&spoken.said, &mut items)?;
        Ok(Bytes { items })
    }

    /// No entries.
    pub(crate) fn nothing(self) -> Lines {
        Lines {
            items: Vec::new(self.alloc),
        }
    }

    /// What canisters said, after how many texts came before.
    pub(crate) fn said(self, trace: &Trace) -> Result<Lines, NoMemory> {
        let mut items = Vec::new(self.alloc);
        if trace.earlier > 0 {
            let earlier = trace.earlier;
            let told = format!(in self.alloc; "({earlier} before these)")?;
            items.push(Bytes {
                items: told.into_bytes(),
            })?;
        }
        for spoken in &trace.spoken {
            items.push(self.spoken(spoken)?)?;
        }
        Ok(Lines { items })
    }

    // A canister, before a blank.
    fn before(self, canister: &Principal) -> Result<Vec<u8>, NoMemory> {
        let mut items = Vec::new(self.alloc);
        push_principal(self.alloc, self.names, canister, &mut items)?;
        items.push(b' ')?;
        Ok(items)
    }

    // Adds the name of a function, one of Rust as the path that it was mangled from.
    fn push_function(self, function: &Said, out: &mut Vec<u8>) -> Result<(), NoMemory> {
        match path_of(self.alloc, &function.text.items)? {
            Some(path) if function.more == 0 => push_escaped(self.alloc, path.as_bytes(), out),
            _ => self.push_said(function, out),
        }
    }

    // A function under way, and the offset of its instruction.
    fn place(self, canister: &Principal, place: &Place) -> Result<Bytes, NoMemory> {
        let mut items = self.before(canister)?;
        self.push_function(&place.function, &mut items)?;
        if let Some(offset) = place.offset {
            let told = format!(in self.alloc; " at {offset:06x}")?;
            items.extend_from_slice(told.as_bytes())?;
        }
        Ok(Bytes { items })
    }

    fn push_places(self, fallen: &Fallen, out: &mut Vec<Bytes>) -> Result<(), NoMemory> {
        for place in &fallen.trapped.places.items {
            out.push(self.place(&fallen.canister, place)?)?;
        }
        Ok(())
    }

    // Where an execution trapped: the call of the System API that did, and the functions under way.
    fn push_fallen(self, fallen: &Fallen, out: &mut Vec<Bytes>) -> Result<(), NoMemory> {
        if let Some(call) = &fallen.trapped.call {
            let mut items = self.before(&fallen.canister)?;
            items.extend_from_slice(call.items.as_bytes())?;
            out.push(Bytes { items })?;
        }
        self.push_places(fallen, out)?;
        let more = fallen.trapped.more;
        if more > 0 {
            let mut items = self.before(&fallen.canister)?;
            let told = format!(in self.alloc; "and {more} more")?;
            items.extend_from_slice(told.as_bytes())?;
            out.push(Bytes { items })?;
        }
        Ok(())
    }

    /// Where executions trapped.
    pub(crate) fn trapped(self, trace: &Trace) -> Result<Lines, NoMemory> {
        let mut items = Vec::new(self.alloc);
        for fallen in &trace.trapped {
            self.push_fallen(fallen, &mut items)?;
        }
        Ok(Lines { items })
    }
}
