use ic_base::NoMemory;
use ic_principal::Bytes;
use ic_tree::{Tree, fork, labeled, leaf_at, root};
use ic_witness::{
    Found, Path, TreeFault, look_up, nests_at_most, ordered, read, read_back, whole, witness, write,
};
use std::alloc::{AllocError, Global};

// The example tree of the IC Interface Specification ("Certificate"), its root hash, and its witness
// for a/y, ae and d. The hashes of what is pruned were computed with Python's hashlib.
const ROOT: [u8; 32] =
    *b"\xeb\x5c\x5b\x21\x95\xe6\x2d\x99\x6b\x84\xc9\xbc\xc8\x25\x9d\x19\xa8\x37\x86\xa2\xf5\x9e\x08\x78\xce\xc8\x4c\x81\x1f\x66\x9a\xa0";

const WITNESS: &[u8] =
    b"\xd9\xd9\xf7\x83\x01\x83\x01\x83\x02\x41a\x83\x01\x82\x04\x58\x20\x1b\x4f\xef\xf9\xbe\xf8\x13\x17\x88\xb0\xc9\xdc\x6d\xba\xd6\xe8\x1e\x52\x42\x49\xc8\x79\xe9\xf1\x0f\x71\xce\x37\x49\xf5\xa6\x38\x83\x02\x41y\x82\x03\x45world\x83\x02\x41b\x82\x04\x58\x20\x7b\x32\xac\x0c\x6b\xa8\xce\x35\xac\x82\xc2\x55\xfc\x79\x06\xf7\xfc\x13\x0d\xab\x2a\x09\x0f\x80\xfe\x12\xf9\xc2\xca\xe8\x3b\xa6\x83\x01\x82\x04\x58\x20\xec\x83\x24\xb8\xa1\xf1\xac\x16\xbd\x2e\x80\x6e\xdb\xa7\x80\x06\x47\x9c\x98\x77\xfe\xd4\xeb\x46\x4a\x25\x48\x54\x65\xaf\x60\x1d\x83\x02\x41d\x82\x03\x47morning";

/// A copy of bytes.
pub fn bytes(alloc: Global, bytes: &[u8]) -> Result<Bytes, NoMemory> {
    match Vec::from_slice(alloc, bytes) {
        Ok(items) => Ok(Bytes { items }),
        Err(error) => Err(error),
    }
}

type Made = Result<Tree, NoMemory>;

fn both(alloc: Global, left: Made, right: Made) -> Made {
    match (left, right) {
        (Ok(left), Ok(right)) => fork(alloc, left, right),
        _ => Err(AllocError),
    }
}

fn example(alloc: Global) -> Made {
    let x = leaf_at(alloc, b"x", b"hello");
    let y = leaf_at(alloc, b"y", b"world");
    let a = match both(alloc, both(alloc, x, Ok(Tree::Empty)), y) {
        Ok(tree) => labeled(alloc, b"a", tree),
        Err(error) => Err(error),
    };
    let b = leaf_at(alloc, b"b", b"good");
    let c = labeled(alloc, b"c", Tree::Empty);
    let d = leaf_at(alloc, b"d", b"morning");
    both(alloc, both(alloc, a, b), both(alloc, c, d))
}

fn is_root(tree: &Tree) -> bool {
    root(tree) == ROOT && root(&Tree::Pruned(ROOT)) == ROOT
}

fn has_root(alloc: Global) -> bool {
    match example(alloc) {
        Ok(tree) => is_root(&tree),
        Err(_) => false,
    }
}

#[test]
fn tree_is_hashed(rt: HostRuntime) {
    assert!(rt; has_root(rt.alloc()));
}

fn add_label(alloc: Global, labels: &mut Vec<Bytes>, name: &str) -> Result<(), NoMemory> {
    match bytes(alloc, name.as_bytes()) {
        Ok(label) => {
            labels.push(label)?;
            Ok(())
        }
        Err(error) => Err(error),
    }
}

// The path whose labels are these, with slashes between.
fn path(alloc: Global, text: &str) -> Result<Path, NoMemory> {
    let mut labels = Vec::new(alloc);
    if !text.is_empty() {
        for name in text.split('/') {
            add_label(alloc, &mut labels, name)?;
        }
    }
    Ok(Path { labels })
}

fn add_path(alloc: Global, paths: &mut Vec<Path>, text: &str) -> Result<(), NoMemory> {
    match path(alloc, text) {
        Ok(path) => {
            paths.push(path)?;
            Ok(())
        }
        Err(error) => Err(error),
    }
}

fn paths(alloc: Global, texts: &[&str]) -> Result<Vec<Path>, NoMemory> {
    let mut paths = Vec::new(alloc);
    for text in texts {
        add_path(alloc, &mut paths, text)?;
    }
    Ok(paths)
}

fn is_text(alloc: Global, tree: &Tree, text: &[u8]) -> bool {
    if !nests_at_most(tree, 128) {
        return false;
    }
    match write(alloc, tree) {
        Ok(written) => written.items.as_slice() == text,
        Err(_) => false,
    }
}

// Whether this is the text of the witness of a tree that has one.
fn is_witness(alloc: Global, tree: &Tree, paths: &[Path], text: &[u8]) -> bool {
    if !ordered(tree) || !whole(tree) {
        return false;
    }
    match witness(alloc, tree, paths) {
        Ok(pruned) => is_text(alloc, &pruned, text),
        Err(_) => false,
    }
}

fn is_pruned(alloc: Global, paths: &[Path], text: &[u8]) -> bool {
    match example(alloc) {
        Ok(tree) => is_witness(alloc, &tree, paths, text),
        Err(_) => false,
    }
}

fn is_pruned_for(alloc: Global, texts: &[&str], text: &[u8]) -> bool {
    match paths(alloc, texts) {
        Ok(paths) => is_pruned(alloc, &paths, text),
        Err(_) => false,
    }
}

// No path: the root hash alone. The empty path: the whole tree.
const NOTHING: &[u8] =
    b"\xd9\xd9\xf7\x82\x04\x58\x20\xeb\x5c\x5b\x21\x95\xe6\x2d\x99\x6b\x84\xc9\xbc\xc8\x25\x9d\x19\xa8\x37\x86\xa2\xf5\x9e\x08\x78\xce\xc8\x4c\x81\x1f\x66\x9a\xa0";

const EVERYTHING: &[u8] =
    b"\xd9\xd9\xf7\x83\x01\x83\x01\x83\x02\x41a\x83\x01\x83\x01\x83\x02\x41x\x82\x03\x45hello\x81\x00\x83\x02\x41y\x82\x03\x45world\x83\x02\x41b\x82\x03\x44good\x83\x01\x83\x02\x41c\x81\x00\x83\x02\x41d\x82\x03\x47morning";

#[test]
fn example_is_pruned(rt: HostRuntime) {
    assert!(rt; is_pruned_for(rt.alloc(), &["a/y", "ae", "d"], WITNESS));
    assert!(rt; is_pruned_for(rt.alloc(), &[], NOTHING));
    assert!(rt; is_pruned_for(rt.alloc(), &["a/y", ""], EVERYTHING));
}

// ---- what a tree says

// V for a value, I for a node within, A for nothing and U for what is not known.
fn said(tree: &Tree, path: &Path) -> char {
    if !ordered(tree) {
        return '?';
    }
    match look_up(tree, path) {
        Found::Value(_) => 'V',
        Found::Inner => 'I',
        Found::Absent => 'A',
        Found::Unknown => 'U',
    }
}

fn value_is(tree: &Tree, path: &Path, bytes: &[u8]) -> bool {
    if !ordered(tree) {
        return false;
    }
    match look_up(tree, path) {
        Found::Value(found) => found == bytes,
        Found::Inner => false,
        Found::Absent => false,
        Found::Unknown => false,
    }
}

// Paths, and what the example and its witness say of them.
fn rows() -> [(&'static str, char, char); 12] {
    [
        ("", 'I', 'I'),
        ("a", 'I', 'I'),
        ("a/x", 'V', 'U'),
        ("a/y", 'V', 'V'),
        ("a/z", 'A', 'A'),
        ("a/y/y", 'A', 'A'),
        ("ae", 'A', 'A'),
        ("b", 'V', 'U'),
        ("c", 'A', 'U'),
        ("cc", 'A', 'U'),
        ("d", 'V', 'V'),
        ("e", 'A', 'A'),
    ]
}

fn is_said(alloc: Global, full: &Tree, pruned: &Tree, row: (&str, char, char)) -> bool {
    match path(alloc, row.0) {
        Ok(path) => (said(full, &path), said(pruned, &path)) == (row.1, row.2),
        Err(_) => false,
    }
}

fn rows_hold(alloc: Global, full: &Tree, pruned: &Tree) -> bool {
    rows().iter().all(|row| is_said(alloc, full, pruned, *row))
}

fn says_morning(alloc: Global, pruned: &Tree) -> bool {
    match path(alloc, "d") {
        Ok(path) => value_is(pruned, &path, b"morning"),
        Err(_) => false,
    }
}

fn is_searched(alloc: Global, pruned: &Tree) -> bool {
    match example(alloc) {
        Ok(full) => rows_hold(alloc, &full, pruned),
        Err(_) => false,
    }
}

fn witness_holds(alloc: Global) -> bool {
    match read(alloc, WITNESS) {
        Ok(pruned) => {
            is_root(&pruned) && is_searched(alloc, &pruned) && says_morning(alloc, &pruned)
        }
        Err(_) => false,
    }
}

#[test]
fn example_is_searched(rt: HostRuntime) {
    assert!(rt; witness_holds(rt.alloc()));
}

// Whether what is written and read again has the root hash, of a tree that can be written.
fn has_root_again(alloc: Global, tree: &Tree) -> bool {
    if !nests_at_most(tree, 128) {
        return false;
    }
    match read_back(alloc, tree) {
        Ok(again) => is_root(&again),
        Err(_) => false,
    }
}

fn is_read_back(alloc: Global) -> bool {
    match example(alloc) {
        Ok(tree) => has_root_again(alloc, &tree),
        Err(_) => false,
    }
}

#[test]
fn example_is_read_back(rt: HostRuntime) {
    assert!(rt; is_read_back(rt.alloc()));
}

#[test]
fn prefixes_are_no_trees(rt: HostRuntime) {
    let alloc = rt.alloc();
    for length in 0..WITNESS.len() {
        assert!(rt; matches!(read(alloc, &WITNESS[..length]), Err(TreeFault::NotTree)));
    }
}

// ---- order

fn is_ordered(alloc: Global, left: Made, right: Made) -> Option<bool> {
    match both(alloc, left, right) {
        Ok(tree) => Some(ordered(&tree)),
        Err(_) => None,
    }
}

fn a_leaf(alloc: Global) -> Made {
    Ok(Tree::Leaf(Bytes {
        items: Vec::new(alloc),
    }))
}

#[test]
fn levels_are_ordered(rt: HostRuntime) {
    let alloc = rt.alloc();
    let at = |label: &[u8]| leaf_at(alloc, label, b"a");
    let labels = [
        is_ordered(alloc, at(b"a"), at(b"ab")),
        is_ordered(alloc, at(b"ab"), at(b"a")),
        is_ordered(alloc, at(b"a"), at(b"a")),
    ];
    let others = [
        is_ordered(alloc, at(b"a"), Ok(Tree::Pruned(ROOT))),
        is_ordered(alloc, at(b"a"), a_leaf(alloc)),
        is_ordered(alloc, Ok(Tree::Empty), a_leaf(alloc)),
    ];
    assert!(rt; labels == [Some(true), Some(false), Some(false)]);
    assert!(rt; others == [Some(true), Some(false), Some(true)]);
}
