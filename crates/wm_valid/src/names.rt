ghost use Rattle.std.specs.Prelude.{◌≡◌};
ghost use Rattle.std.specs.Option.{option_copied};
ghost use Rattle.wm_valid.specs.Entries as specs;

use wm_tree::Export;

pub(crate) const CANISTER: &[u8] = b"canister_";

pub(crate) const INIT: &[u8] = b"canister_init";

pub(crate) const PRE_UPGRADE: &[u8] = b"canister_pre_upgrade";

pub(crate) const POST_UPGRADE: &[u8] = b"canister_post_upgrade";

pub(crate) const INSPECT: &[u8] = b"canister_inspect_message";

pub(crate) const UPDATE: &[u8] = b"canister_update ";

pub(crate) const QUERY: &[u8] = b"canister_query ";

pub(crate) fn name_bytes(export: &Export) -> &[u8]
    ensures { result.now ≡ export.now.name }
{
    export.name.items.as_bytes()
}

/// What follows the prefix.
pub(crate) fn strip_prefix<'a>(prefix: &[u8], name: &'a [u8]) -> Option<&'a [u8]>
    ensures { option_copied result ≡ specs.strip_prefix prefix.now name.now }
{
    if name.starts_with(prefix) {
        Some(&name[prefix.len()..])
    } else {
        None
    }
}

/// Whether an entry point has the name.
pub(crate) fn is_entry_name(name: &[u8]) -> bool
    ensures { result ≡ specs.is_entry_name name.now }
{
    name == INIT
        || name == PRE_UPGRADE
        || name == POST_UPGRADE
        || name == INSPECT
        || name.starts_with(UPDATE)
        || name.starts_with(QUERY)
}
