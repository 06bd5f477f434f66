/// Why a text says no values.
#[derive(Clone, Copy, Debug, PartialEq, Eq)]
pub enum TextFault {
    /// The text says no values of the expected types, within nesting 128 and 1,000,000 values.
    NotText,
    NoMemory,
}
