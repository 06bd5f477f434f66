/// Why bytes begin with no header.
#[derive(Clone, Copy, Debug, PartialEq, Eq)]
pub enum HeaderFault {
    /// No front of the bytes is a header, floats admitted.
    NotHeader,
    /// A front of the bytes is a header that names `float32` or `float64`, in an entry that is used
    /// or not.
    Float,
    NoMemory,
}

/// Why bytes are no values.
#[derive(Clone, Copy, Debug, PartialEq, Eq)]
pub enum ValueFault {
    /// The bytes are not values of the types, one after the other and nothing after them, within
    /// nesting 128 and 1,000,000 values.
    BadValue,
    NoMemory,
}
