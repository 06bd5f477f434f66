ghost use Rattle.std.specs.Prelude.{◌≡◌, ◌<◌, ◌^◌, ◌||◌, None, IfOk, IfErr, OnOk, length, bytes_eq};
ghost use Rattle.wm_valid.specs.Checked.{Fails};
ghost use Rattle.wm_valid.specs.Entries as specs;
ghost use Rattle.wm_valid.specs.Methods.{HasEntries};
ghost use Rattle.wm_valid.specs.Seen.{has_name, HasAlso};
ghost use Rattle.wm_valid.specs.Space.{function_types};

use crate::indices::is_procedure;
use crate::invalid::Invalid;
use crate::methods::Entries;
use crate::names::{CANISTER, is_entry_name, name_bytes};
use crate::space::type_of;
use ic_base::NoMemory;
use std::alloc::Global;
use std::collections::BTreeSet;
use wm_tree::{Export, ExportKind, Module};

/// Whether it is a function () -> ().
fn is_entry_kind(module: &Module, functions: &[u32], kind: ExportKind) -> bool
    requires { functions.now ≡ function_types «module».now }
    ensures { result ≡ specs.is_entry_kind «module».now kind }
{
    match kind {
        ExportKind::Function(index) => is_procedure(type_of(module, functions, index)),
        _ => false,
    }
}

/// Whether the name is for entry points, and the export is none.
fn is_misnamed(module: &Module, functions: &[u32], export: &Export) -> bool
    requires { functions.now ≡ function_types «module».now }
    ensures { result ≡ specs.is_misnamed «module».now export.now }
{
    let name = name_bytes(export);
    name.starts_with(CANISTER)
        && !(is_entry_name(name) && is_entry_kind(module, functions, export.kind))
}

/// Adds a name to a set; whether it was there before.
fn add<'a>(names: &mut BTreeSet<&'a [u8]>, name: &'a [u8]) -> Result<bool, NoMemory>
    ensures seen { IfOk result (λ seen. seen ≡ has_name names.old name.now) }
    ensures names { OnOk result (HasAlso names.old names.new (bytes_eq name.now)) }
{
    Ok(!names.insert(name)?)
}

/// Whether the export is misnamed, or its method is an update and a query.
fn is_wrong(module: &Module, functions: &[u32], entries: &Entries, export: &Export) -> bool
    requires functions { functions.now ≡ function_types «module».now }
    requires entries { HasEntries entries.now «module».now.exports }
    ensures { result ≡ specs.is_wrong «module».now export.now }
{
    is_misnamed(module, functions, export) || entries.is_both(name_bytes(export))
}

/// Whether the export's name was seen before, or is wrong by itself. It counts as seen from then on.
fn is_bad<'a>(
    module: &Module,
    functions: &[u32],
    entries: &Entries,
    seen: &mut BTreeSet<&'a [u8]>,
    export: &'a Export,
) -> Result<bool, NoMemory>
    requires functions { functions.now ≡ function_types «module».now }
    requires entries { HasEntries entries.now «module».now.exports }
    ensures bad { IfOk result (λ bad.
        bad ≡ (has_name seen.old export.now.name || specs.is_wrong «module».now export.now)) }
    ensures seen { OnOk result (HasAlso seen.old seen.new (bytes_eq export.now.name)) }
{
    let repeats = add(seen, name_bytes(export))?;
    Ok(repeats || is_wrong(module, functions, entries, export))
}

/// Tries the exports: names are not repeated, those that begin with `canister_` are entry points,
/// and no method is an update and a query. `functions` has the index of each function's type.
pub(crate) fn check_exports(
    alloc: Global,
    module: &Module,
    functions: &[u32],
    entries: &Entries,
) -> Result<(), Invalid>
    requires functions { functions.now ≡ function_types «module».now }
    requires entries { HasEntries entries.now «module».now.exports }
    requires few { length «module».now.exports < 2 ^ 32 }
    ensures passes { OnOk result (specs.entry_fault «module».now ≡ None) }
    ensures fault { IfErr result (λ e. Fails e (specs.entry_fault «module».now)) }
{
    let exports = module.exports.items.as_slice();
    let mut seen = BTreeSet::new(alloc);
    for (place, export) in exports.iter().enumerate() {
        if is_bad(module, functions, entries, &mut seen, export)? {
            return Err(Invalid::Entry {
                export: place as u32,
            });
        }
    }
    Ok(())
}
