//! Tests of test files, beside their crate: a crate with tests of its own is proved twice.
#![tactic(auto)]

#[cfg(test)]
mod checks;
#[cfg(test)]
mod faults;
#[cfg(test)]
mod files;
#[cfg(test)]
mod met;
#[cfg(test)]
mod names;
#[cfg(test)]
mod patterns;
#[cfg(test)]
mod types;
#[cfg(test)]
mod value_faults;

use ct_file::{FileError, position_of, read};
use std::alloc::{AllocError, Global};

/// What is reported of a text: its fault with line and column, or that it is a file.
pub fn report(alloc: Global, text: &[u8]) -> Result<String, AllocError> {
    match read(alloc, text) {
        Ok(_) => format!(in alloc; "a file"),
        Err(FileError::NoMemory) => format!(in alloc; "out of memory"),
        Err(FileError::Faulty(fault)) => {
            let position = position_of(text, fault.place);
            let cause = fault.cause;
            format!(in alloc; "{position}: {cause}")
        }
    }
}
