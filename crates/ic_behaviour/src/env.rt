/// What the handling of a message depends on, beside the canister and the message.
#[derive(Clone, Copy, Debug)]
pub struct Env {
    /// Nanoseconds since 1970-01-01.
    pub time: u64,
    /// The most instructions that one execution may use, at most 1,000,000,000,000.
    pub limit: u64,
    /// The cycles that an instruction costs, at most 1,000,000.
    pub price: u64,
}

/// The function that a method of a canister is.
#[derive(Clone, Copy, Debug)]
pub enum Admitted {
    Update(u32),
    Query(u32),
}

/// Why a canister takes no call.
#[derive(Clone, Copy, Debug)]
pub enum Refusal {
    /// It is stopping or stopped.
    NotRunning,
    /// It has no code.
    NoModule,
    /// Its code has no update and no query of that name.
    NoMethod,
}
