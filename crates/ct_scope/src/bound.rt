/// Which interface a canister has.
#[derive(Clone, Copy, Debug, PartialEq, Eq)]
pub enum InterfaceId {
    /// That of the management canister.
    Management,
    /// That of the file at this place of a list of files.
    File(usize),
}

/// What a name stands for.
#[derive(Clone, Copy, Debug, PartialEq, Eq)]
pub enum Kind {
    User,
    /// A canister, with the interface in use.
    Canister(InterfaceId),
    /// A value that an answer brings.
    Value,
}

/// What a name is bound to: its slot, and what it stands for.
#[derive(Clone, Copy, Debug, PartialEq, Eq)]
pub struct Bound {
    pub slot: usize,
    pub kind: Kind,
}
