// Parts of modules. A test that wrote them out would be long to prove.

/// Sections of a module, in order.
pub type Parts = &'static [&'static [u8]];

// two functions () -> (), and a table of four entries, and at most eight
const FUNCTIONS: &[u8] =
    b"\x01\x04\x01\x60\x00\x00\x03\x03\x02\x00\x00\x04\x05\x01\x70\x01\x04\x08";

// the functions' bodies
const CODES: &[u8] = b"\x0A\x07\x02\x02\x00\x0B\x02\x00\x0B";

// one page, and at most two
const MEMORY: &[u8] = b"\x05\x04\x01\x01\x01\x02";

// -1, -2 in 64 bits, and 7
const GLOBALS: &[u8] = b"\x06\x10\x03\x7F\x00\x41\x7F\x0B\x7E\x01\x42\x7E\x0B\x7F\x01\x41\x07\x0B";

// function 0 twice from 1 on, and function 1 at 2
const ELEMENTS: &[u8] = b"\x09\x0E\x02\x00\x41\x01\x0B\x02\x00\x00\x00\x41\x02\x0B\x01\x01";

// four bytes from 8 on, and four from 10 on
const SEGMENTS: &[u8] = b"\x0B\x13\x02\x00\x41\x08\x0B\x04abcd\x00\x41\x0A\x0B\x04wxyz";

static WHOLE: [&[u8]; 6] = [FUNCTIONS, MEMORY, GLOBALS, ELEMENTS, CODES, SEGMENTS];

pub fn whole() -> Parts {
    &WHOLE
}
