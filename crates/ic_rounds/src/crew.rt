ghost use Rattle.std.specs.Prelude.{◌<◌, ◌≤◌};
ghost use Rattle.ic_rounds.specs.declared.crew.TheConstants.{MOST_WORKERS};

/// The most workers of a crew.
pub const MOST_WORKERS: u32 = 64;

/// Workers that handle messages side by side, what they run on, and the gate that each passes before a message.
#[derive(Drop)]
pub struct Crew<'a, R, G> {
    pub rt: &'a R,
    pub workers: u32,
    pub gate: &'a G,
    ghost some: { 0 < workers },
    ghost few: { workers ≤ MOST_WORKERS },
}
