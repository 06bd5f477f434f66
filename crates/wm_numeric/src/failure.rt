/// Why an instruction on numbers or memory has no result (WebAssembly Core 1.0, 4.3.2 and 4.4.4).
#[derive(Clone, Copy, Debug, PartialEq, Eq)]
pub enum Failure {
    DivideByZero,
    /// The quotient of a signed division is 2 ^ (n - 1).
    Overflow,
    /// A load or a store passes the end of the memory.
    MemoryBounds,
}
