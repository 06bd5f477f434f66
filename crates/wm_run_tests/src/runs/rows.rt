// Tables of bodies. A test that wrote one out would be long to prove, so a function gives each.
use super::outcome::Beginning;

/// A body, the limit, how it ends, and what it uses.
pub type Row = (&'static [u8], u64, &'static str, u64);

static CHARGES: [Row; 27] = [
    // i32.const 1, drop
    (b"\x41\x01\x1a", 2, "returned", 2),
    (b"\x41\x01\x1a", 1, "instruction limit", 1),
    // loop with br 0
    (b"\x03\x40\x0c\x00\x0b", 100, "instruction limit", 100),
    // a branch to the body's own label
    (b"\x0c\x00\x01", 100, "returned", 1),
    (b"\x0f\x01", 100, "returned", 1),
    // local.get, local.tee, drop
    (b"\x20\x00\x22\x00\x1a", 100, "returned", 3),
    // local.get, i32.const 1, i32.add, drop
    (b"\x20\x00\x41\x01\x6a\x1a", 4, "returned", 4),
    (b"\x20\x00\x41\x01\x6a\x1a", 3, "instruction limit", 3),
    (b"\x20\x00\x41\x01\x6a\x1a", 2, "instruction limit", 2),
    (b"\x20\x00\x41\x01\x6a\x1a", 1, "instruction limit", 1),
    (b"\x20\x00\x41\x01\x6a\x1a", 0, "instruction limit", 0),
    // block with br_if 0 and nop, taken and not
    (b"\x02\x40\x41\x01\x0d\x00\x01\x0b", 100, "returned", 3),
    (b"\x02\x40\x41\x00\x0d\x00\x01\x0b", 100, "returned", 4),
    // if with nop, else with two
    (b"\x41\x01\x04\x40\x01\x05\x01\x01\x0b", 100, "returned", 3),
    (b"\x41\x00\x04\x40\x01\x05\x01\x01\x0b", 100, "returned", 4),
    // if without else
    (b"\x41\x00\x04\x40\x01\x0b", 100, "returned", 2),
    // two blocks, and br_table to the outer one by default, to the inner one by 0
    (
        b"\x02\x40\x02\x40\x41\x05\x0e\x01\x00\x01\x0b\x01\x0b",
        100,
        "returned",
        4,
    ),
    (
        b"\x02\x40\x02\x40\x41\x00\x0e\x01\x00\x01\x0b\x01\x0b",
        100,
        "returned",
        5,
    ),
    // a loop that is run twice
    (
        b"\x41\x02\x21\x00\x03\x40\x20\x00\x41\x01\x6b\x22\x00\x0d\x00\x0b",
        100,
        "returned",
        14,
    ),
    // call of the empty function, with an argument
    (b"\x41\x05\x10\x04", 100, "returned", 2),
    (b"\x41\x05\x10\x04", 1, "instruction limit", 1),
    // call of an import: the second charge is the host's
    (b"\x10\x00", 0, "instruction limit", 0),
    (b"\x10\x00", 1, "instruction limit", 1),
    (b"\x10\x00", 2, "returned", 2),
    // i32.const 5 and the index of an import, call_indirect of type (i32) -> ()
    (b"\x41\x05\x41\x01\x11\x01\x00", 2, "instruction limit", 2),
    (b"\x41\x05\x41\x01\x11\x01\x00", 3, "instruction limit", 3),
    (b"\x41\x05\x41\x01\x11\x01\x00", 4, "returned", 4),
];

pub fn charges() -> &'static [Row] {
    &CHARGES
}

/// A body, the limit, how it ends, what it uses, and how many pages there are then.
pub type Growth = (&'static [u8], u64, &'static str, u64, u32);

static GROWTHS: [Growth; 6] = [
    // i32.const 2, memory.grow, drop, i32.const 1, memory.grow, drop
    (
        b"\x41\x02\x40\x00\x1a\x41\x01\x40\x00\x1a",
        100,
        "returned",
        8,
        3,
    ),
    (b"\x41\x02\x40\x00\x1a", 5, "returned", 5, 3),
    (b"\x41\x02\x40\x00\x1a", 4, "instruction limit", 4, 3),
    (b"\x41\x02\x40\x00\x1a", 3, "instruction limit", 1, 1),
    // one page more than the maximum
    (b"\x41\x03\x40\x00\x1a", 3, "returned", 3, 1),
    (b"\x41\x7f\x40\x00\x1a", 100, "returned", 3, 1),
];

pub fn growths() -> &'static [Growth] {
    &GROWTHS
}

// The charge comes first, then the trap.
static TRAPS: [Row; 20] = [
    (b"\x00", 1, "unreachable", 1),
    (b"\x00", 0, "instruction limit", 0),
    // i32.const 65533, i32.load, drop
    (
        b"\x41\xfd\xff\x03\x28\x02\x00\x1a",
        100,
        "memory out of bounds",
        2,
    ),
    (
        b"\x41\xfd\xff\x03\x28\x02\x00\x1a",
        1,
        "instruction limit",
        1,
    ),
    // i32.const 65533, i32.const 1, i32.store
    (
        b"\x41\xfd\xff\x03\x41\x01\x36\x02\x00",
        100,
        "memory out of bounds",
        3,
    ),
    (
        b"\x41\xfd\xff\x03\x41\x01\x36\x02\x00",
        2,
        "instruction limit",
        2,
    ),
    // i32.const -1, i64.load with the largest offset
    (
        b"\x41\x7f\x29\x03\xff\xff\xff\xff\x0f\x1a",
        100,
        "memory out of bounds",
        2,
    ),
    // the least i32, -1, i32.div_s, drop
    (
        b"\x41\x80\x80\x80\x80\x78\x41\x7f\x6d\x1a",
        100,
        "integer overflow",
        3,
    ),
    (
        b"\x41\x80\x80\x80\x80\x78\x41\x7f\x6d\x1a",
        2,
        "instruction limit",
        2,
    ),
    // the least i32, -1, i32.rem_s, drop
    (
        b"\x41\x80\x80\x80\x80\x78\x41\x7f\x6f\x1a",
        100,
        "returned",
        4,
    ),
    // i32.const 1, i32.const 0, i32.div_u, drop
    (b"\x41\x01\x41\x00\x6e\x1a", 100, "division by zero", 3),
    (b"\x41\x01\x41\x00\x6e\x1a", 2, "instruction limit", 2),
    // i32.const 5 and an index, call_indirect of type (i32) -> ()
    (
        b"\x41\x05\x41\x00\x11\x01\x00",
        100,
        "uninitialised element",
        3,
    ),
    (b"\x41\x05\x41\x00\x11\x01\x00", 2, "instruction limit", 2),
    (b"\x41\x05\x41\x02\x11\x01\x00", 100, "returned", 3),
    (b"\x41\x05\x41\x02\x11\x01\x00", 2, "instruction limit", 2),
    (
        b"\x41\x05\x41\x03\x11\x01\x00",
        100,
        "signature mismatch",
        3,
    ),
    (b"\x41\x05\x41\x03\x11\x01\x00", 2, "instruction limit", 2),
    (
        b"\x41\x05\x41\x04\x11\x01\x00",
        100,
        "table out of bounds",
        3,
    ),
    (b"\x41\x05\x41\x04\x11\x01\x00", 2, "instruction limit", 2),
];

pub fn traps() -> &'static [Row] {
    &TRAPS
}

/// A body, the limit, how it ends, what it uses, and the first 8 bytes of memory then.
pub type Range = (&'static [u8], u64, &'static str, u64, [u8; 8]);

/// What the data segment puts there.
const SEGMENT: [u8; 8] = [0x80, 0xff, 0x7f, 1, 0xfe, 0, 0, 0x80];

// The places and the size of a copy, or the place, the value and the size of a fill, come before it.
static RANGES: [Range; 23] = [
    // i32.const 0, i32.const 128, i32.extend8_s, i32.store
    (
        b"\x41\x00\x41\x80\x01\xc0\x36\x02\x00",
        100,
        "returned",
        4,
        [0x80, 0xff, 0xff, 0xff, 0xfe, 0, 0, 0x80],
    ),
    // 4 bytes filled with 171, and copied by 2 bytes
    (
        b"\x41\x00\x41\xab\x01\x41\x04\xfc\x0b\x00\x41\x02\x41\x00\x41\x04\xfc\x0a\x00\x00",
        100,
        "returned",
        16,
        [0xab, 0xab, 0xab, 0xab, 0xab, 0xab, 0, 0x80],
    ),
    // the lowest byte of the value alone
    (
        b"\x41\x01\x41\xff\x03\x41\x03\xfc\x0b\x00",
        100,
        "returned",
        7,
        [0x80, 0xff, 0xff, 0xff, 0xfe, 0, 0, 0x80],
    ),
    // a copy that overlaps, up and down
    (
        b"\x41\x01\x41\x00\x41\x03\xfc\x0a\x00\x00",
        100,
        "returned",
        7,
        [0x80, 0x80, 0xff, 0x7f, 0xfe, 0, 0, 0x80],
    ),
    (
        b"\x41\x00\x41\x01\x41\x07\xfc\x0a\x00\x00",
        100,
        "returned",
        11,
        [0xff, 0x7f, 1, 0xfe, 0, 0, 0x80, 0x80],
    ),
    // the charge at the limit, and one below
    (
        b"\x41\x01\x41\x00\x41\x03\xfc\x0a\x00\x00",
        7,
        "returned",
        7,
        [0x80, 0x80, 0xff, 0x7f, 0xfe, 0, 0, 0x80],
    ),
    (
        b"\x41\x01\x41\x00\x41\x03\xfc\x0a\x00\x00",
        6,
        "instruction limit",
        3,
        SEGMENT,
    ),
    (
        b"\x41\x01\x41\x00\x41\x03\xfc\x0b\x00",
        7,
        "returned",
        7,
        [0x80, 0, 0, 0, 0xfe, 0, 0, 0x80],
    ),
    (
        b"\x41\x01\x41\x00\x41\x03\xfc\x0b\x00",
        6,
        "instruction limit",
        3,
        SEGMENT,
    ),
    (
        b"\x41\x00\x41\x00\x41\x7f\xfc\x0a\x00\x00",
        4_294_967_299,
        "memory out of bounds",
        4_294_967_299,
        SEGMENT,
    ),
    (
        b"\x41\x00\x41\x00\x41\x7f\xfc\x0a\x00\x00",
        4_294_967_298,
        "instruction limit",
        3,
        SEGMENT,
    ),
    (
        b"\x41\x00\x41\x00\x41\x7f\xfc\x0b\x00",
        4_294_967_299,
        "memory out of bounds",
        4_294_967_299,
        SEGMENT,
    ),
    (
        b"\x41\x00\x41\x00\x41\x7f\xfc\x0b\x00",
        4_294_967_298,
        "instruction limit",
        3,
        SEGMENT,
    ),
    // a fill of no byte past the end and at it, and of two bytes
    (
        b"\x41\x81\x80\x04\x41\x00\x41\x00\xfc\x0b\x00",
        100,
        "memory out of bounds",
        4,
        SEGMENT,
    ),
    (
        b"\x41\x80\x80\x04\x41\x00\x41\x00\xfc\x0b\x00",
        100,
        "returned",
        4,
        SEGMENT,
    ),
    (
        b"\x41\xff\xff\x03\x41\x00\x41\x02\xfc\x0b\x00",
        100,
        "memory out of bounds",
        6,
        SEGMENT,
    ),
    (
        b"\x41\xfe\xff\x03\x41\x00\x41\x02\xfc\x0b\x00",
        100,
        "returned",
        6,
        SEGMENT,
    ),
    // a copy of no byte from and to the end, and past it
    (
        b"\x41\x80\x80\x04\x41\x80\x80\x04\x41\x00\xfc\x0a\x00\x00",
        100,
        "returned",
        4,
        SEGMENT,
    ),
    (
        b"\x41\x81\x80\x04\x41\x00\x41\x00\xfc\x0a\x00\x00",
        100,
        "memory out of bounds",
        4,
        SEGMENT,
    ),
    (
        b"\x41\x00\x41\x81\x80\x04\x41\x00\xfc\x0a\x00\x00",
        100,
        "memory out of bounds",
        4,
        SEGMENT,
    ),
    // of the last 4 bytes, and from one byte further
    (
        b"\x41\x00\x41\xfc\xff\x03\x41\x04\xfc\x0a\x00\x00",
        100,
        "returned",
        8,
        [0, 0, 0, 0, 0xfe, 0, 0, 0x80],
    ),
    (
        b"\x41\x00\x41\xfd\xff\x03\x41\x04\xfc\x0a\x00\x00",
        100,
        "memory out of bounds",
        8,
        SEGMENT,
    ),
    // to one byte past the end
    (
        b"\x41\xfd\xff\x03\x41\x00\x41\x04\xfc\x0a\x00\x00",
        100,
        "memory out of bounds",
        8,
        SEGMENT,
    ),
];

pub fn ranges() -> &'static [Range] {
    &RANGES
}

static DEPTHS: [Row; 4] = [
    // call of itself
    (b"\x10\x03", 1000, "call depth", 512),
    (b"\x10\x03", 512, "call depth", 512),
    (b"\x10\x03", 511, "instruction limit", 511),
    // call of an import, which is allowed at the most frames too, and call of itself
    (b"\x10\x00\x10\x03", 2000, "call depth", 1536),
];

pub fn depths() -> &'static [Row] {
    &DEPTHS
}

/// A place of the table, the limit, how the body ends that calls what is there in the last frame
/// that there may be, and what it uses.
pub type LastFrame = (u8, u64, &'static str, u64);

static LAST_FRAMES: [LastFrame; 6] = [
    (0, 9000, "uninitialised element", 4610),
    // an import, and then call of itself
    (1, 9000, "call depth", 4612),
    (2, 9000, "call depth", 4610),
    (2, 4609, "instruction limit", 4609),
    (3, 9000, "signature mismatch", 4610),
    (4, 9000, "table out of bounds", 4610),
];

pub fn last_frames() -> &'static [LastFrame] {
    &LAST_FRAMES
}

/// The function that begins, how, the limit, how that ends, what it uses, and how many calls the host
/// answers. The body is empty.
pub type Begun = (u8, Beginning, u64, &'static str, u64, u64);

// A call of an import makes two charges; a function of the module is entered without one.
static BEGUN: [Begun; 15] = [
    (0, Beginning::Method, 0, "instruction limit", 0, 0),
    (0, Beginning::Method, 1, "instruction limit", 1, 0),
    (0, Beginning::Method, 9, "returned", 2, 1),
    (0, Beginning::Start, 0, "instruction limit", 0, 0),
    (0, Beginning::Start, 1, "instruction limit", 1, 0),
    (0, Beginning::Start, 9, "returned", 2, 1),
    (0, Beginning::Callback(1), 0, "instruction limit", 0, 0),
    (0, Beginning::Callback(1), 1, "instruction limit", 1, 0),
    (0, Beginning::Callback(1), 9, "returned", 2, 1),
    (3, Beginning::Method, 0, "returned", 0, 0),
    (3, Beginning::Start, 0, "returned", 0, 0),
    (3, Beginning::Callback(2), 0, "returned", 0, 0),
    (3, Beginning::Callback(0), 9, "uninitialised element", 0, 0),
    (3, Beginning::Callback(3), 9, "signature mismatch", 0, 0),
    (3, Beginning::Callback(4), 9, "table out of bounds", 0, 0),
];

pub fn begun() -> &'static [Begun] {
    &BEGUN
}

// A call of an import: the charge comes first, then the host's refusal.
static REFUSED: [Row; 3] = [
    (b"\x10\x00", 0, "instruction limit", 0),
    (b"\x10\x00", 1, "system call", 1),
    (b"\x10\x00\x01", 9, "system call", 1),
];

pub fn refused() -> &'static [Row] {
    &REFUSED
}
