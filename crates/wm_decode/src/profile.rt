/// Which modules are read: without floats, or with the float types and instructions that are not
/// supported, to tell a module that has them from bytes that are no module.
#[derive(Clone, Copy, Debug)]
pub(crate) struct Profile {
    pub(crate) float: bool,
}
