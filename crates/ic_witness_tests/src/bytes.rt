use ic_base::NoMemory;
use ic_principal::Bytes;
use ic_tree::Tree;
use ic_witness::{TreeFault, nests_at_most, read, write};
use std::alloc::Global;

fn is_tree(alloc: Global, bytes: &[u8]) -> bool {
    matches!(read(alloc, bytes), Ok(_))
}

fn is_none(alloc: Global, bytes: &[u8]) -> bool {
    matches!(read(alloc, bytes), Err(TreeFault::NotTree))
}

// ---- what is no tree

static REFUSED: [&[u8]; 16] = [
    b"",
    b"\xd9\xd9\xf7",
    b"\xd9\xd9\xf6\x81\x00",
    b"\xd9\xd9\xf7\xd9\xd9\xf7\x81\x00",
    b"\x81\x00\x00",
    b"\x81\x01",
    b"\x82\x00",
    b"\x83\x03\x40\x81\x00",
    // a text in place of bytes
    b"\x82\x03\x61a",
    // one byte whose head is longer than it need be
    b"\x82\x03\x58\x01a",
    b"\x82\x03\x59\x00\x01a",
    b"\x82\x03\x5a\x00\x00\x00\x01a",
    b"\x82\x03\x5b\x00\x00\x00\x00\x00\x00\x00\x01a",
    // bytes whose end is marked
    b"\x82\x03\x5f\x41a\xff",
    b"\x82\x04\x41a",
    b"\x82\x03\x5b\x80\x00\x00\x00\x00\x00\x00\x00a",
];

fn refused() -> &'static [&'static [u8]] {
    &REFUSED
}

#[test]
fn these_are_no_trees(rt: HostRuntime) {
    for bytes in refused() {
        assert!(rt; is_none(rt.alloc(), bytes));
    }
}

#[test]
fn tag_may_be_left_out(rt: HostRuntime) {
    let alloc = rt.alloc();
    assert!(rt; is_tree(alloc, b"\x81\x00") && is_tree(alloc, b"\xd9\xd9\xf7\x81\x00"));
}

// ---- depth

// An empty tree under that many labels without bytes.
fn nested(alloc: Global, labels: usize) -> Result<Vec<u8>, NoMemory> {
    let mut bytes = b"\x83\x02\x40".repeat(alloc, labels)?;
    bytes.extend_from_slice(b"\x81\x00".as_slice())?;
    Ok(bytes)
}

fn is_nested(alloc: Global, labels: usize) -> bool {
    match nested(alloc, labels) {
        Ok(bytes) => is_tree(alloc, &bytes),
        Err(_) => false,
    }
}

fn is_too_deep(alloc: Global, labels: usize) -> bool {
    match nested(alloc, labels) {
        Ok(bytes) => is_none(alloc, &bytes),
        Err(_) => false,
    }
}

#[test]
fn trees_nest_128_deep(rt: HostRuntime) {
    assert!(rt; is_nested(rt.alloc(), 127) && is_too_deep(rt.alloc(), 128));
}

// ---- lengths

fn leaf(alloc: Global, length: usize) -> Result<Tree, NoMemory> {
    match b"\x07".repeat(alloc, length) {
        Ok(items) => Ok(Tree::Leaf(Bytes { items })),
        Err(error) => Err(error),
    }
}

// Whether the text of a tree that nests no deeper than 128 begins so, and is a tree's.
fn begins_so(alloc: Global, tree: &Tree, head: &[u8]) -> bool {
    if !nests_at_most(tree, 128) {
        return false;
    }
    match write(alloc, tree) {
        Ok(text) => text.items.starts_with(head) && is_tree(alloc, &text.items),
        Err(_) => false,
    }
}

fn has_head(alloc: Global, length: usize, head: &[u8]) -> bool {
    match leaf(alloc, length) {
        Ok(tree) => begins_so(alloc, &tree, head),
        Err(_) => false,
    }
}

// The heads that RFC 8949 gives to leaves of these lengths.
static HEADS: [(usize, &[u8]); 6] = [
    (23, b"\xd9\xd9\xf7\x82\x03\x57\x07"),
    (24, b"\xd9\xd9\xf7\x82\x03\x58\x18\x07"),
    (255, b"\xd9\xd9\xf7\x82\x03\x58\xff\x07"),
    (256, b"\xd9\xd9\xf7\x82\x03\x59\x01\x00\x07"),
    (65_535, b"\xd9\xd9\xf7\x82\x03\x59\xff\xff\x07"),
    (65_536, b"\xd9\xd9\xf7\x82\x03\x5a\x00\x01\x00\x00\x07"),
];

fn heads() -> &'static [(usize, &'static [u8])] {
    &HEADS
}

#[test]
fn heads_are_shortest(rt: HostRuntime) {
    for (length, head) in heads() {
        assert!(rt; has_head(rt.alloc(), *length, head), "{length}");
    }
}

// ---- hostile bytes, two megabytes of them

// Nodes without end, and lengths that no bytes follow, each so often that it takes two megabytes.
static HOSTILE: [(&[u8], usize); 6] = [
    (b"\x83\x01", 1_048_576),
    (b"\x83\x02\x40", 699_050),
    (b"\x83\x01\x81\x00", 524_288),
    (b"\x83\x02\x5b\x80\x00\x00\x00\x00\x00\x00\x00", 190_650),
    (b"\x82\x03\x5b\x7f\xff\xff\xff\xff\xff\xff\xff", 190_650),
    (b"\x83\x02\x5a\x00\x10\x00\x00", 299_593),
];

fn hostile() -> &'static [(&'static [u8], usize)] {
    &HOSTILE
}

fn is_refused(alloc: Global, piece: &[u8], times: usize) -> bool {
    match piece.repeat(alloc, times) {
        Ok(bytes) => is_none(alloc, &bytes),
        Err(_) => false,
    }
}

#[test]
fn hostile_bytes_are_no_trees(rt: HostRuntime) {
    for (piece, times) in hostile() {
        assert!(rt; is_refused(rt.alloc(), piece, *times));
    }
}
