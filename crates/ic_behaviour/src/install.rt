use wm_semantics::Trap;

/// How code is installed (IC Interface Specification, "IC method `install_code`").
#[derive(Clone, Copy, Debug, PartialEq, Eq)]
pub enum Mode {
    /// On a canister without code. That there is none is for the caller to see.
    Install,
    /// Whatever code there was, with nothing that it kept.
    Reinstall,
    /// In place of other code, with the stable memory that it leaves.
    Upgrade { skip_pre_upgrade: bool },
}

/// Why code is not installed.
#[derive(Debug, Drop)]
pub enum InstallFault {
    /// An entry point or the start function trapped.
    Trapped(Trap),
    /// A segment passes the end of the table or of the memory.
    Segment,
}
