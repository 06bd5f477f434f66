/// Why tokens say no pattern of the types.
#[derive(Clone, Copy, Debug, PartialEq, Eq)]
pub enum PatternFault {
    NoMemory,
    /// The token at this index is the first with which no text of the types goes on; it is the number
    /// of tokens where they end too early.
    Unexpected { index: usize },
}
