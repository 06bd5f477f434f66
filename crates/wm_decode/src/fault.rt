/// Why bytes are no module that is read here.
#[derive(Clone, Copy, Debug, PartialEq, Eq)]
pub enum ModuleFault {
    /// There are more than 2,097,152 bytes.
    TooLarge,
    /// The first two bytes are those of gzip. Compressed modules are not read.
    Compressed,
    /// The bytes are a module that has floats: a float type or a float instruction.
    Float,
    /// The bytes are no module (WebAssembly Core 1.0, chapter 5), floats or not.
    NotModule,
    /// Memory ran out.
    NoMemory,
}
