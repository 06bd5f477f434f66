ghost use Rattle.std.specs.Prelude.{◌≡◌, IfOk, OnOk, List, bytes_eq, find};
ghost use Rattle.std.specs.Option.{option_copied, option_flatten};
ghost use Rattle.wm_tree.specs.declared.parts.Export.{Export as AnExport};
ghost use Rattle.wm_valid.specs.Entries as specs;
ghost use Rattle.wm_valid.specs.Methods.{found_in, has_rest, Gains, HasMethods, HasEntries};

use crate::entry::EntryName;
use crate::names::{
    INIT, INSPECT, POST_UPGRADE, PRE_UPGRADE, QUERY, UPDATE, name_bytes, strip_prefix,
};
use ic_base::NoMemory;
use std::alloc::Global;
use std::collections::BTreeMap;
use wm_tree::{Export, ExportKind};

fn exported_function(kind: ExportKind) -> Option<u32>
    ensures { result ≡ specs.exported_function kind }
{
    match kind {
        ExportKind::Function(index) => Some(index),
        _ => None,
    }
}

fn find_export<'a>(exports: &'a [Export], name: &[u8]) -> Option<&'a Export>
    ensures { option_copied result ≡ find (λ e. bytes_eq e.name name.now) exports.now }
{
    exports.iter().find(|export| name_bytes(export) == name)
}

/// The function that is exported under the name.
fn function_named(exports: &[Export], name: &[u8]) -> Option<u32>
    ensures { result ≡ specs.function_named exports.now name.now }
{
    let export = find_export(exports, name)?;
    exported_function(export.kind)
}

/// What is exported after a prefix: for each method its function, if it is one.
type Methods = BTreeMap<Vec<u8>, Option<u32>>;

/// Adds the export where its name begins with the prefix; it takes the place of another of its name.
fn add(alloc: Global, methods: &mut Methods, prefix: &[u8], export: &Export) -> Result<(), NoMemory>
    ensures { OnOk result (Gains methods.old methods.new prefix.now export.now) }
{
    if let Some(method) = strip_prefix(prefix, name_bytes(export)) {
        let method = Vec::from_slice(alloc, method)?;
        methods.insert(method, exported_function(export.kind))?;
    }
    Ok(())
}

/// What is exported after the prefix.
fn methods_with_prefix(
    alloc: Global,
    prefix: &[u8],
    exports: &[Export],
) -> Result<Methods, NoMemory>
    ensures { IfOk result (λ methods. HasMethods methods prefix.now exports.now) }
{
    let mut methods = BTreeMap::new(alloc);
    // From the last on, so that the first of a name stays.
    for place in (0..exports.len()).rev() {
        add(alloc, &mut methods, prefix, &exports[place])?;
    }
    Ok(methods)
}

/// The function that the method is.
fn function_of(methods: &Methods, method: &[u8]) -> Option<u32>
    ensures { result ≡ option_flatten (found_in methods.now method.now) }
{
    *methods.get(method)?
}

/// Whether the name is the prefix and a method.
fn has_method(methods: &Methods, prefix: &[u8], name: &[u8]) -> bool
    ensures { result ≡ has_rest methods.now (specs.strip_prefix prefix.now name.now) }
{
    match strip_prefix(prefix, name) {
        None => false,
        Some(method) => methods.contains_key(method),
    }
}

/// What is exported under the names of entry points.
#[derive(Debug, Drop)]
pub(crate) struct Entries {
    init: Option<u32>,
    pre_upgrade: Option<u32>,
    post_upgrade: Option<u32>,
    inspect: Option<u32>,
    updates: Methods,
    queries: Methods,
}

impl Entries {
    /// The entry points among the exports.
    pub(crate) fn among(alloc: Global, exports: &[Export]) -> Result<Entries, NoMemory>
        ensures { IfOk result (λ entries. HasEntries entries exports.now) }
    {
        Ok(Entries {
            init: function_named(exports, INIT),
            pre_upgrade: function_named(exports, PRE_UPGRADE),
            post_upgrade: function_named(exports, POST_UPGRADE),
            inspect: function_named(exports, INSPECT),
            updates: methods_with_prefix(alloc, UPDATE, exports)?,
            queries: methods_with_prefix(alloc, QUERY, exports)?,
        })
    }

    /// The function that is exported as that entry point.
    pub(crate) fn get(&self, kind: EntryName, method: &[u8]) -> Option<u32>
        ensures { (exports : List AnExport) → HasEntries self.now exports
            → result ≡ specs.entry_in exports kind method.now }
    {
        match kind {
            EntryName::Init => self.init,
            EntryName::PreUpgrade => self.pre_upgrade,
            EntryName::PostUpgrade => self.post_upgrade,
            EntryName::Inspect => self.inspect,
            EntryName::Update => function_of(&self.updates, method),
            EntryName::Query => function_of(&self.queries, method),
        }
    }

    /// Whether the name is that of a method which is an update and a query.
    pub(crate) fn is_both(&self, name: &[u8]) -> bool
        ensures { (exports : List AnExport) → HasEntries self.now exports
            → result ≡ specs.is_both exports name.now }
    {
        has_method(&self.queries, UPDATE, name) || has_method(&self.updates, QUERY, name)
    }
}
