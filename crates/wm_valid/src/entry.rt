/// An entry point that a canister may export (IC Interface Specification, "Entry points"). `Update`
/// and `Query` are those of a method.
#[derive(Clone, Copy, Debug, PartialEq, Eq)]
pub enum EntryName {
    Init,
    PreUpgrade,
    PostUpgrade,
    Inspect,
    Update,
    Query,
}
