use crate::data::Data;

/// How the code of a module is written, so that a word of a body can be told as a place in the
/// module's bytes (Core 1.0, 5.5.13 and 7.4). It is kept beside the module and is no part of it: modules are
/// equal or not whatever is kept of their bytes.
#[derive(Debug, Drop)]
pub struct Listing {
    /// Where the content of the code section begins in the module's bytes.
    pub at: u32,
    /// That content; empty where there is no such section.
    pub code: Data,
    /// The content of the subsection with the names of functions; empty where there is none.
    pub names: Data,
}
