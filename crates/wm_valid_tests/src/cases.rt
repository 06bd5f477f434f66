// Tables of bytes. A test that wrote one out would be long to prove, so each has a function of its own.

// Instructions in the order of their opcodes (WebAssembly Core 2.0, 5.4): the first opcode, the
// names from there on, what follows each opcode, and how that is shown.
pub type Row = (u8, &'static str, &'static [u8], &'static str);

static WITH_OPERANDS: [Row; 13] = [
    (0x02, "Block Loop If", b"\x7F\x0B", "(Some(I32))"),
    (0x0C, "Br BrIf", b"\x05", "(5)"),
    (
        0x0E,
        "BrTable",
        b"\x02\x01\x02\x03",
        " { labels: Indices { items: [1, 2] }, other: 3 }",
    ),
    (0x10, "Call", b"\x07", "(7)"),
    (0x11, "CallIndirect", b"\x07\x00", "(7)"),
    (
        0x20,
        "LocalGet LocalSet LocalTee GlobalGet GlobalSet",
        b"\x80\x01",
        "(128)",
    ),
    (
        0x28,
        "I32Load I64Load",
        b"\x02\x08",
        "(MemArg { align: 2, offset: 8 })",
    ),
    (
        0x2C,
        "I32Load8S I32Load8U I32Load16S I32Load16U I64Load8S I64Load8U I64Load16S I64Load16U I64Load32S I64Load32U I32Store I64Store",
        b"\x02\x08",
        "(MemArg { align: 2, offset: 8 })",
    ),
    (
        0x3A,
        "I32Store8 I32Store16 I64Store8 I64Store16 I64Store32",
        b"\xFF\xFF\xFF\xFF\x0F\x08",
        "(MemArg { align: 4294967295, offset: 8 })",
    ),
    (0x3F, "MemorySize MemoryGrow", b"\x00", ""),
    (0x41, "I32Const I64Const", b"\x40", "(-64)"),
    (0xFC, "MemoryCopy", b"\x0A\x00\x00", ""),
    (0xFC, "MemoryFill", b"\x0B\x00", ""),
];

pub fn with_operands() -> &'static [Row] {
    &WITH_OPERANDS
}

static WITHOUT_OPERANDS: [(u8, &'static str); 10] = [
    (0x00, "Unreachable Nop"),
    (0x0F, "Return"),
    (0x1A, "Drop Select"),
    (
        0x45,
        "I32Eqz I32Eq I32Ne I32LtS I32LtU I32GtS I32GtU I32LeS I32LeU I32GeS I32GeU",
    ),
    (
        0x50,
        "I64Eqz I64Eq I64Ne I64LtS I64LtU I64GtS I64GtU I64LeS I64LeU I64GeS I64GeU",
    ),
    (
        0x67,
        "I32Clz I32Ctz I32Popcnt I32Add I32Sub I32Mul I32DivS I32DivU I32RemS I32RemU I32And I32Or I32Xor I32Shl I32ShrS I32ShrU I32Rotl I32Rotr",
    ),
    (
        0x79,
        "I64Clz I64Ctz I64Popcnt I64Add I64Sub I64Mul I64DivS I64DivU I64RemS I64RemU I64And I64Or I64Xor I64Shl I64ShrS I64ShrU I64Rotl I64Rotr",
    ),
    (0xA7, "I32WrapI64"),
    (0xAC, "I64ExtendI32S I64ExtendI32U"),
    (
        0xC0,
        "I32Extend8S I32Extend16S I64Extend8S I64Extend16S I64Extend32S",
    ),
];

pub fn without_operands() -> &'static [(u8, &'static str)] {
    &WITHOUT_OPERANDS
}

// A module with every section.
static PARTS: [&'static [u8]; 12] = [
    b"\x01\x07\x01\x60\x02\x7F\x7E\x01\x7F",
    b"\x02\x1E\x04\x01m\x01f\x00\x00\x01m\x01t\x01\x70\x01\x02\x03\x01m\x01m\x02\x00\x05\x01m\x01g\x03\x7E\x01",
    b"\x03\x02\x01\x00",
    b"\x04\x04\x01\x70\x00\x01",
    b"\x05\x03\x01\x00\x01",
    b"\x06\x06\x01\x7F\x00\x41\x2A\x0B",
    b"\x07\x11\x04\x01a\x00\x01\x01b\x01\x01\x01c\x02\x01\x01d\x03\x01",
    b"\x08\x01\x01",
    b"\x09\x08\x01\x00\x41\x00\x0B\x02\x01\x00",
    b"\x0C\x01\x01",
    b"\x0A\x10\x01\x0E\x02\x01\x7F\x03\x7E\x02\x40\x20\x00\x1A\x0B\x41\x7F\x0B",
    b"\x0B\x09\x01\x00\x41\x7F\x0B\x03abc",
];

pub fn parts() -> &'static [&'static [u8]] {
    &PARTS
}

// How it is shown.
pub fn shown() -> &'static str {
    "Module { \
types: FuncTypes { items: [FuncType { params: ValTypes { items: [I32, I64] }, results: ValTypes { items: [I32] } }] }, \
imports: Imports { items: [\
Import { module: Name { items: \"m\" }, name: Name { items: \"f\" }, kind: Function(0) }, \
Import { module: Name { items: \"m\" }, name: Name { items: \"t\" }, kind: Table(Limits { min: 2, max: Some(3) }) }, \
Import { module: Name { items: \"m\" }, name: Name { items: \"m\" }, kind: Memory(Limits { min: 5, max: None }) }, \
Import { module: Name { items: \"m\" }, name: Name { items: \"g\" }, kind: Global(GlobalType { kind: I64, mutable: true }) }] }, \
functions: Indices { items: [0] }, \
tables: LimitsList { items: [Limits { min: 1, max: None }] }, \
memories: LimitsList { items: [Limits { min: 1, max: None }] }, \
globals: GlobalDefs { items: [GlobalDef { kind: GlobalType { kind: I32, mutable: false }, init: Instrs { items: [I32Const(42)] } }] }, \
exports: Exports { items: [\
Export { name: Name { items: \"a\" }, kind: Function(1) }, \
Export { name: Name { items: \"b\" }, kind: Table(1) }, \
Export { name: Name { items: \"c\" }, kind: Memory(1) }, \
Export { name: Name { items: \"d\" }, kind: Global(1) }] }, \
start: Some(1), \
elements: Elements { items: [Element { table: 0, offset: Instrs { items: [I32Const(0)] }, functions: Indices { items: [1, 0] } }] }, \
codes: FuncCodes { items: [FuncCode { locals: Runs { items: [Run { count: 1, kind: I32 }, Run { count: 3, kind: I64 }] }, \
body: Instrs { items: [Block(None), LocalGet(0), Drop, End, I32Const(-1)] } }] }, \
segments: Segments { items: [Segment { memory: 0, offset: Instrs { items: [I32Const(-1)] }, bytes: Data { items: [97, 98, 99] } }] } }"
}

// What is not in shortest form, and its shortest form.
static PADDED: [(&'static [u8], &'static [u8]); 10] = [
    // a custom section, a padded size, an empty section
    (b"\x00\x03\x01a\x00", b""),
    (
        b"\x01\x84\x80\x80\x80\x00\x01\x60\x00\x00",
        b"\x01\x04\x01\x60\x00\x00",
    ),
    (b"\x01\x01\x00", b""),
    // a data count
    (b"\x0C\x01\x00", b""),
    // a padded table, and a padded number after the prefix
    (
        b"\x03\x02\x01\x00\x0A\x0B\x01\x09\x00\x11\x00\x80\x80\x80\x80\x00\x0B",
        b"\x03\x02\x01\x00\x0A\x07\x01\x05\x00\x11\x00\x00\x0B",
    ),
    (
        b"\x03\x02\x01\x00\x0A\x09\x01\x07\x00\xFC\x8A\x00\x00\x00\x0B",
        b"\x03\x02\x01\x00\x0A\x08\x01\x06\x00\xFC\x0A\x00\x00\x0B",
    ),
    // a padded count and limit
    (b"\x05\x06\x81\x00\x00\x81\x80\x00", b"\x05\x03\x01\x00\x01"),
    // a padded length of a name
    (
        b"\x07\x06\x01\x81\x00a\x00\x00",
        b"\x07\x05\x01\x01a\x00\x00",
    ),
    // padded constants, -1 and -64
    (
        b"\x06\x07\x01\x7F\x00\x41\xFF\x7F\x0B",
        b"\x06\x06\x01\x7F\x00\x41\x7F\x0B",
    ),
    (
        b"\x06\x08\x01\x7E\x00\x42\xC0\xFF\x7F\x0B",
        b"\x06\x06\x01\x7E\x00\x42\x40\x0B",
    ),
];

pub fn padded() -> &'static [(&'static [u8], &'static [u8])] {
    &PADDED
}

// Sections in shortest form.
static SECTIONS: [&'static [u8]; 13] = [
    b"",
    b"\x01\x07\x01\x60\x02\x7F\x7E\x01\x7F",
    // an import of each kind
    b"\x02\x1E\x04\x01a\x01b\x00\x05\x01a\x01b\x01\x70\x00\x01\x01a\x01b\x02\x01\x01\x02\x01a\x01b\x03\x7F\x01",
    b"\x04\x05\x01\x70\x01\x02\x02",
    b"\x04\x05\x01\x70\x00\x80\x01",
    b"\x05\x03\x01\x00\x01",
    b"\x06\x06\x01\x7E\x01\x42\x7F\x0B",
    // an export of each kind
    b"\x07\x12\x04\x01a\x00\x00\x01a\x01\x01\x00\x02\x02\x02\xC3\xA9\x03\x80\x01",
    b"\x08\x01\x00",
    b"\x08\x02\x80\x01",
    b"\x09\x08\x01\x00\x41\x00\x0B\x02\x01\x02",
    // a function, with two runs of locals
    b"\x03\x02\x01\x00\x0A\x0A\x01\x08\x02\x01\x7F\x80\x02\x7E\x01\x0B",
    b"\x0B\x0A\x01\x00\x41\x80\x80\x04\x0B\x02ab",
];

pub fn sections() -> &'static [&'static [u8]] {
    &SECTIONS
}

// Instructions with operands.
static INSTRUCTIONS: [&'static [u8]; 44] = [
    b"\x02\x40\x0B",
    b"\x03\x7F\x0B",
    b"\x04\x7E\x0B",
    b"\x04\x40\x05\x0B",
    b"\x0C\x00",
    b"\x0D\x81\x01",
    b"\x0E\x02\x01\x02\x03",
    b"\x10\x05",
    b"\x11\x80\x01\x00",
    b"\x20\x00",
    b"\x21\x01",
    b"\x22\x02",
    b"\x23\x03",
    b"\x24\x04",
    b"\x28\x02\x80\x01",
    b"\x29\x02\x80\x01",
    b"\x2C\x02\x80\x01",
    b"\x2D\x02\x80\x01",
    b"\x2E\x02\x80\x01",
    b"\x2F\x02\x80\x01",
    b"\x30\x02\x80\x01",
    b"\x31\x02\x80\x01",
    b"\x32\x02\x80\x01",
    b"\x33\x02\x80\x01",
    b"\x34\x02\x80\x01",
    b"\x35\x02\x80\x01",
    b"\x36\x02\x80\x01",
    b"\x37\x02\x80\x01",
    b"\x3A\x02\x80\x01",
    b"\x3B\x02\x80\x01",
    b"\x3C\x02\x80\x01",
    b"\x3D\x02\x80\x01",
    b"\x3E\x02\x80\x01",
    b"\x3F\x00",
    b"\x40\x00",
    b"\xFC\x0A\x00\x00",
    b"\xFC\x0B\x00",
    // 63, 64, -64, -65
    b"\x41\x3F",
    b"\x41\xC0\x00",
    b"\x41\x40",
    b"\x41\xBF\x7F",
    // the least and the largest
    b"\x41\x80\x80\x80\x80\x78",
    b"\x42\x80\x80\x80\x80\x80\x80\x80\x80\x80\x7F",
    b"\x42\xFF\xFF\xFF\xFF\xFF\xFF\xFF\xFF\xFF\x00",
];

pub fn instructions() -> &'static [&'static [u8]] {
    &INSTRUCTIONS
}

// The opcodes of instructions without operands, from and to.
static OPCODES: [(u8, u8); 9] = [
    (0x00, 0x01),
    (0x0F, 0x0F),
    (0x1A, 0x1B),
    (0x45, 0x5A),
    (0x67, 0x78),
    (0x79, 0x8A),
    (0xA7, 0xA7),
    (0xAC, 0xAD),
    (0xC0, 0xC4),
];

pub fn opcodes() -> &'static [(u8, u8)] {
    &OPCODES
}

// The relay module, written by hand.
static RELAY: [&'static [u8]; 37] = [
    b"\x01\x2B\x08\x60\x00\x00\x60\x00\x01\x7F\x60\x03\x7F\x7F\x7F\x00\x60\x02\x7F\x7F\x00\x60\x08\x7F\x7F\x7F\x7F\x7F\x7F\x7F\x7F\x00\x60\x01\x7F\x00\x60\x01\x7E\x00\x60\x01\x7E\x01\x7E",
    b"\x02\xD5\x01\x0A",
    b"\x03ic\x30\x11msg_arg_data_size\x00\x01",
    b"\x03ic\x30\x11msg_arg_data_copy\x00\x02",
    b"\x03ic\x30\x15msg_reply_data_append\x00\x03",
    b"\x03ic\x30\x09msg_reply\x00\x00",
    b"\x03ic\x30\x0Amsg_reject\x00\x03",
    b"\x03ic\x30\x08call_new\x00\x04",
    b"\x03ic\x30\x10call_data_append\x00\x03",
    b"\x03ic\x30\x0Fcall_cycles_add\x00\x06",
    b"\x03ic\x30\x0Ccall_perform\x00\x01",
    b"\x03ic\x30\x11msg_cycles_accept\x00\x07",
    b"\x03\x04\x03\x00\x05\x05",
    b"\x04\x05\x01p\x01\x02\x02",
    b"\x05\x03\x01\x00\x01",
    b"\x07\x19\x01\x15canister_update relay\x00\x0A",
    b"\x09\x08\x01\x00A\x00\x0B\x02\x0B\x0C",
    b"\x0Az\x03V\x01\x01\x7F",
    b"B\xAC\x02\x10\x09\x1A",
    b"A\x08A\x08\x29\x03\x00B\x01\x7C\x37\x03\x00",
    b"\x10\x00\x22\x00E",
    b"\x04\x40",
    b"A\x08A\x08\x10\x02\x10\x03",
    b"\x05",
    b"A\x80\x08A\x00 \x00\x10\x01",
    b"A\x80\x08A\x0AA\x00A\x05",
    b"A\x00A\x00A\x01A\x00\x10\x05",
    b"A\x8A\x08 \x00A\x0Ak\x10\x06",
    b"B\xF4\x03\x10\x07",
    b"\x10\x08\x1A",
    b"\x0B\x0B",
    b"\x18\x00",
    b"\x10\x00\x21\x00",
    b"A\x80\x08A\x00 \x00\x10\x01",
    b"A\x80\x08 \x00\x10\x02\x10\x03\x0B",
    b"\x08\x00A\x00A\x05\x10\x04\x0B",
    b"\x0B\x0B\x01\x00A\x00\x0B\x05relay",
];

pub fn relay() -> &'static [&'static [u8]] {
    &RELAY
}
