use crate::trap::Trap;

/// What is invoked.
#[derive(Clone, Copy, Debug, PartialEq, Eq)]
pub enum Target {
    /// The function of that index, of type () -> ().
    Function(u32),
    /// The function at that place of the table, of type (i32) -> (), with its argument.
    Element { index: u32, env: u32 },
}

/// How an invocation ended.
#[derive(Debug, Drop)]
pub enum Ended {
    Returned,
    Trapped(Trap),
}
