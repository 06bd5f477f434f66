use crate::invalid::Invalid;
use wm_tree::Module;

/// A module that is not valid, with the first check that it fails.
#[derive(Debug, Drop)]
pub struct Refused {
    pub module: Module,
    pub fault: Invalid,
}
