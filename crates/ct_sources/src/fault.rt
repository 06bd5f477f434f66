use ic_base::NoMemory;
use ic_principal::Text;
use std::alloc::Global;
use std::fmt;

/// Why a file is of no use where it is named.
#[derive(Debug, Drop)]
pub enum FileFault {
    /// It could not be read.
    Unreadable,
    /// It is no module or no interface, for this reason.
    Faulty(Text),
}

impl FileFault {
    /// A fault by its reason; without one the file could not be read.
    pub fn of(reason: Option<&Text>) -> Result<FileFault, NoMemory> {
        match reason {
            None => Ok(FileFault::Unreadable),
            Some(text) => Ok(FileFault::Faulty(text.copy()?)),
        }
    }
}

/// A reason in a text of its own.
pub(crate) fn reason(alloc: Global, text: &str) -> Result<Text, NoMemory> {
    Ok(Text {
        items: String::from_str(alloc, text)?,
    })
}

impl fmt::Display for FileFault {
    fn fmt<W: fmt::Write>(&self, f: &mut fmt::Formatter<W>) -> fmt::Result {
        match self {
            FileFault::Unreadable => f.write_str("could not be read"),
            FileFault::Faulty(text) => f.write_str(text.items.as_str()),
        }
    }
}
