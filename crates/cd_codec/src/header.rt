use cd_types::{TyRefs, TypeTable};

/// The front of a message: `DIDL`, the type table, and the types of the arguments
/// (Candid specification, "Binary Format").
#[derive(Debug, Drop)]
pub struct Header {
    pub table: TypeTable,
    pub types: TyRefs,
    /// The number of bytes of the header. The values begin there.
    pub length: usize,
}
