/// Why a message is not read at the expected types. Where several hold, the first of them is given.
#[derive(Clone, Copy, Debug, PartialEq, Eq)]
pub enum DidlFault {
    /// No front of the bytes is a header, floats admitted.
    NotHeader,
    /// A front of the bytes is a header that names `float32` or `float64`, in an entry that is used
    /// or not.
    Float,
    /// The least expected argument that is missing and may not be, or whose type in the message is
    /// no subtype. Arguments are counted from 0.
    NotSubtype { argument: u32 },
    /// The bytes after the header are not values of its types within nesting 128 and 1,000,000
    /// values, or a `nat` of 2^127 or more is where an `int` is expected.
    BadValue,
    NoMemory,
}
