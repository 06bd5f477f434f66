ghost use Rattle.std.specs.Prelude.{◌≡◌, IfOk, None, Some, MatchOption};
ghost use Rattle.std.specs.Option.{option_copied};
ghost use Rattle.wm_backtrace.specs.Names.{is_function, exported, written, name_of};

use ic_base::{NoMemory, ReadError};
use ic_principal::Text;
use std::alloc::{AllocError, Global};
use wm_decode::name_in;
use wm_tree::{Export, ExportKind, Listing};

/// Whether it exports that function.
fn is_export(export: &Export, function: u64) -> bool
    ensures { result ≡ is_function function export.now.kind }
{
    match export.kind {
        ExportKind::Function(index) => u64::from(index) == function,
        _ => false,
    }
}

/// The first name by which a function is exported.
fn export_name(exports: &[Export], function: u64) -> Option<&str>
    ensures { MatchOption result (exported function exports.now ≡ None) (λ name. exported function exports.now ≡ Some name.now) }
{
    for export in exports {
        if is_export(export, function) {
            return Some(export.name.items.as_str());
        }
    }
    None
}

/// The name that the name section gives to it.
fn written(listing: Option<&Listing>, function: u64) -> Result<Option<&str>, NoMemory>
    ensures { IfOk result (λ name. MatchOption name (written (option_copied listing.entry) function ≡ None) (λ n. written (option_copied listing.entry) function ≡ Some n.now)) }
{
    let Some(listing) = listing else {
        return Ok(None);
    };
    match name_in(listing, function) {
        Ok(name) => Ok(Some(name)),
        Err(ReadError::Refused) => Ok(None),
        Err(ReadError::NoMemory) => Err(AllocError),
    }
}

/// What a function is called: by the module's name section, else by its first export, else `func[12]`, where 12 is its index.
pub fn name_of(
    alloc: Global,
    listing: Option<&Listing>,
    exports: &[Export],
    function: u64,
) -> Result<Text, NoMemory>
    ensures { IfOk result (λ name. name ≡ name_of (option_copied listing.entry) exports.now function) }
{
    let name = written(listing, function)?;
    let items = match name.or(export_name(exports, function)) {
        Some(name) => String::from_str(alloc, name)?,
        None => format!(in alloc; "func[{function}]")?,
    };
    Ok(Text { items })
}
