/// A case that was met: what is kept of its state, the key of the state, the place of the start that it comes from,
/// and the places of the moves that lead from there to it.
#[derive(Drop)]
pub struct Case<K> {
    pub kept: K,
    pub key: u64,
    pub start: usize,
    pub order: Vec<usize>,
}

/// What a search met: all cases that there are, or as many as were asked for, of more.
#[derive(Drop)]
pub struct Met<K> {
    pub cases: Vec<Case<K>>,
    pub all: bool,
}
