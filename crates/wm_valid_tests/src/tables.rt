// Tables. A test that wrote one out would be long to prove, so each has a function of its own.
use wm_valid::EntryName;

// One type, six functions of it, their exports and their empty bodies.
static SIX_FUNCTIONS: &[u8] = b"\x00asm\x01\x00\x00\x00\
\x01\x04\x01\x60\x00\x00\x03\x07\x06\x00\x00\x00\x00\x00\x00\
\x07\x98\x01\x08\
\x0Dcanister_init\x00\x01\
\x14canister_pre_upgrade\x00\x02\
\x15canister_post_upgrade\x00\x03\
\x18canister_inspect_message\x00\x04\
\x10canister_query b\x00\x05\
\x11canister_update a\x00\x00\
\x0Fcanister_query \x00\x03\
\x01b\x00\x02\
\x0A\x13\x06\x02\x00\x0B\x02\x00\x0B\x02\x00\x0B\x02\x00\x0B\x02\x00\x0B\x02\x00\x0B";

pub fn six_functions() -> &'static [u8] {
    SIX_FUNCTIONS
}

/// An entry point, and its function, if there is one.
pub type EntryRow = (EntryName, &'static str, Option<u32>);

// Entry points among these exports.
static ENTRY_POINTS: [EntryRow; 10] = [
    (EntryName::Init, "", Some(1)),
    (EntryName::PreUpgrade, "a", Some(2)),
    (EntryName::PostUpgrade, "", Some(3)),
    (EntryName::Inspect, "", Some(4)),
    (EntryName::Query, "b", Some(5)),
    (EntryName::Query, "", Some(3)),
    (EntryName::Query, "a", None),
    (EntryName::Update, "a", Some(0)),
    (EntryName::Update, "b", None),
    (EntryName::Update, "", None),
];

pub fn entry_points() -> &'static [EntryRow] {
    &ENTRY_POINTS
}

static RELAY_ENTRIES: [EntryRow; 4] = [
    (EntryName::Update, "relay", Some(10)),
    (EntryName::Update, "rela", None),
    (EntryName::Query, "relay", None),
    (EntryName::Init, "relay", None),
];

pub fn relay_entries() -> &'static [EntryRow] {
    &RELAY_ENTRIES
}
