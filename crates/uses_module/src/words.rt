//! Why a module is refused, in words.

use anyhow::anyhow;
use wm_valid::{Invalid, Refused};

pub fn refusal(refused: &Refused) -> anyhow::Error {
    let module = &refused.module;
    match refused.fault {
        Invalid::Import { number } => match module.imports.items.get(number as usize) {
            Some(import) => anyhow!(
                "import {number} is {}.{}",
                import.module.items,
                import.name.items
            ),
            None => anyhow!("there is no import {number}"),
        },
        Invalid::Entry { export } => match module.exports.items.get(export as usize) {
            Some(exported) => anyhow!("export {export} is {}", exported.name.items),
            None => anyhow!("there is no export {export}"),
        },
        fault => anyhow!("{fault:?}"),
    }
}
