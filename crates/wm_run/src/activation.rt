use wm_semantics::Ended;
use wm_words::{Exit, Layout};

/// A function that runs, or waits for the one that it called.
#[derive(Clone, Copy, Debug, PartialEq, Eq)]
pub(crate) struct Activation {
    /// Its number among the defined functions.
    pub(crate) function: u32,
    pub(crate) layout: Layout,
    /// The word of its body that is next.
    pub(crate) place: usize,
    /// The place on the stack after its topmost operand.
    pub(crate) top: usize,
}

/// Where a body was left, and why.
#[derive(Clone, Copy)]
pub(crate) struct Halt {
    pub(crate) why: Exit,
    pub(crate) at: Activation,
}

/// What comes after a body was left.
#[derive(Debug, Drop)]
pub(crate) enum Next {
    On(Activation),
    Over(Ended),
}

/// A function, as the machine reaches it.
#[derive(Clone, Copy, Debug, PartialEq, Eq)]
pub(crate) enum Callee {
    /// By its number among the defined functions.
    Own(u32),
    /// By its number in the table of the System API.
    Host(u32),
}

/// How a run of a function of the module ended, and the function that ran then. Those that waited are still among
/// the callers.
#[derive(Debug, Drop)]
pub(crate) struct RunEnd {
    pub(crate) ended: Ended,
    pub(crate) at: Activation,
}

/// What ran when a run ended.
#[derive(Clone, Copy, Debug, PartialEq, Eq)]
pub(crate) enum Innermost {
    /// A function of the module.
    Own(Activation),
    /// A function of the host that was the target itself.
    Host(u32),
    /// Nothing: there was no callback.
    Nowhere,
}

/// How a run ended, and what ran then. Those that waited are still on the stacks.
#[derive(Drop)]
pub(crate) struct Halted {
    pub(crate) ended: Ended,
    pub(crate) innermost: Innermost,
}
