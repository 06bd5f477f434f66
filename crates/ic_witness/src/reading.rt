ghost use Rattle.std.specs.Prelude.{◌≡◌, IfOk};
ghost use Rattle.std.specs.Int.{w8, w16, w32, w64};
ghost use Rattle.ic_base.specs.Gives.{Gives};
ghost use Rattle.ic_base.specs.Reader.{both_at, filter_at, map_at};
ghost use Rattle.ic_tree.specs.HashTree.{HashTree, fork, labeled, leaf, pruned};
ghost use Rattle.ic_tree.specs.View.{view};
ghost use Rattle.ic_witness.specs.Cbor.{IsText};
ghost use Rattle.ic_witness.specs.ReadCbor.{is_hash, kind_at, kind_of, length_after, length_at, long_at, string_at, text_at, tree_at, untagged};
ghost use Rattle.ic_witness.specs.Reads.{ReadsTree};

use crate::fault::TreeFault;
use ic_base::ReadError;
use ic_principal::Bytes;
use ic_tree::{Tree, fork, labeled};
use std::alloc::Global;

/// How deep a tree may nest: a whole tree has depth 1.
const MAX_DEPTH: u32 = 128;

/// What a node is.
#[derive(Clone, Copy, Debug, PartialEq, Eq)]
pub(crate) enum Kind {
    Empty,
    Fork,
    Labeled,
    Leaf,
    Pruned,
}

/// Reads a tree (RFC 8949; IC Interface Specification, "Certificate"). Memory is taken as bytes are
/// read, whatever lengths they claim.
pub fn read(alloc: Global, bytes: &[u8]) -> Result<Tree, TreeFault>
    // What is read is written so.
    ensures found { IfOk result (λ tree. IsText (view tree) bytes.now) }
    // What is written so is read, unless memory runs out; so a `NotTree` is no tree.
    ensures only { (tree : HashTree) → IsText tree bytes.now → ReadsTree result tree }
{
    match text_of(alloc, bytes) {
        Ok(tree) => Ok(tree),
        Err(ReadError::Refused) => Err(TreeFault::NotTree),
        Err(ReadError::NoMemory) => Err(TreeFault::NoMemory),
    }
}

#[tactic(auto, unfolding(crate::specs::ReadCbor::text_at))]
fn text_of(alloc: Global, bytes: &[u8]) -> Result<Tree, ReadError>
    ensures { Gives view result (text_at bytes.now) }
{
    let (tree, rest) = read_tree(alloc, MAX_DEPTH, untagged(bytes))?;
    match rest {
        [] => Ok(tree),
        [_, ..] => Err(ReadError::Refused),
    }
}

fn untagged(bytes: &[u8]) -> &[u8]
    ensures { result.now ≡ untagged bytes.now }
{
    match bytes {
        [a, b, c, rest @ ..] => {
            if *a == 0xD9 && *b == 0xD9 && *c == 0xF7 {
                rest
            } else {
                bytes
            }
        }
        _ => bytes,
    }
}

#[cycle(reader)]
#[tactic(auto, unfolding(crate::specs::ReadCbor::tree_at, crate::specs::ReadCbor::node_at, ic_tree::specs::View::view))]
fn read_tree<'a>(alloc: Global, depth: u32, bytes: &'a [u8]) -> Result<(Tree, &'a [u8]), ReadError>
    ensures { Gives (λ x. (view x.0, x.1.now)) result (tree_at depth bytes.now) }
{
    if depth == 0 {
        return Err(ReadError::Refused);
    }
    let (kind, rest) = read_kind(bytes)?;
    match kind {
        Kind::Empty => Ok((Tree::Empty, rest)),
        Kind::Fork => read_fork(alloc, depth - 1, rest),
        Kind::Labeled => read_labeled(alloc, depth - 1, rest),
        Kind::Leaf => read_leaf(alloc, rest),
        Kind::Pruned => read_pruned(rest),
    }
}

#[cycle(reader)]
fn read_fork<'a>(alloc: Global, depth: u32, bytes: &'a [u8]) -> Result<(Tree, &'a [u8]), ReadError>
    ensures { Gives (λ x. (view x.0, x.1.now)) result (map_at (λ p. fork p.0 p.1) (both_at (tree_at depth) (λ _. tree_at depth)) bytes.now) }
{
    let (left, rest) = read_tree(alloc, depth, bytes)?;
    let (right, rest) = read_tree(alloc, depth, rest)?;
    let tree = fork(alloc, left, right)?;
    Ok((tree, rest))
}

#[cycle(reader)]
fn read_labeled<'a>(
    alloc: Global,
    depth: u32,
    bytes: &'a [u8],
) -> Result<(Tree, &'a [u8]), ReadError>
    ensures { Gives (λ x. (view x.0, x.1.now)) result (map_at (λ p. labeled p.0 p.1) (both_at string_at (λ _. tree_at depth)) bytes.now) }
{
    let (label, rest) = read_string(bytes)?;
    let (part, rest) = read_tree(alloc, depth, rest)?;
    let tree = labeled(alloc, label, part)?;
    Ok((tree, rest))
}

#[tactic(auto, unfolding(ic_tree::specs::View::view))]
fn read_leaf(alloc: Global, bytes: &[u8]) -> Result<(Tree, &[u8]), ReadError>
    ensures { Gives (λ x. (view x.0, x.1.now)) result (map_at leaf string_at bytes.now) }
{
    let (value, rest) = read_string(bytes)?;
    let items = Vec::from_slice(alloc, value)?;
    Ok((Tree::Leaf(Bytes { items }), rest))
}

#[tactic(auto, unfolding(ic_tree::specs::View::view))]
fn read_pruned(bytes: &[u8]) -> Result<(Tree, &[u8]), ReadError>
    ensures { Gives (λ x. (view x.0, x.1.now)) result (map_at pruned (filter_at is_hash string_at) bytes.now) }
{
    let (value, rest) = read_string(bytes)?;
    if value.len() != 32 {
        return Err(ReadError::Refused);
    }
    let mut hash = [0; 32];
    hash.copy_from_slice(value);
    Ok((Tree::Pruned(hash), rest))
}

#[tactic(auto, unfolding(crate::specs::ReadCbor::kind_at))]
fn read_kind(bytes: &[u8]) -> Result<(Kind, &[u8]), ReadError>
    ensures { Gives (λ x. (x.0, x.1.now)) result (kind_at bytes.now) }
{
    match bytes {
        [] => Err(ReadError::Refused),
        [_] => Err(ReadError::Refused),
        [first, second, rest @ ..] => match kind_of(*first, *second) {
            Some(kind) => Ok((kind, rest)),
            None => Err(ReadError::Refused),
        },
    }
}

fn kind_of(first: u8, second: u8) -> Option<Kind>
    ensures { result ≡ kind_of (first, second) }
{
    match (first, second) {
        (0x81, 0) => Some(Kind::Empty),
        (0x83, 1) => Some(Kind::Fork),
        (0x83, 2) => Some(Kind::Labeled),
        (0x82, 3) => Some(Kind::Leaf),
        (0x82, 4) => Some(Kind::Pruned),
        _ => None,
    }
}

#[tactic(auto, unfolding(crate::specs::ReadCbor::string_at))]
fn read_string(bytes: &[u8]) -> Result<(&[u8], &[u8]), ReadError>
    ensures { Gives (λ x. (x.0.now, x.1.now)) result (string_at bytes.now) }
{
    let (length, rest) = read_length(bytes)?;
    if length > rest.len() as u64 {
        return Err(ReadError::Refused);
    }
    Ok(rest.split_at(length as usize))
}

#[tactic(auto, unfolding(crate::specs::ReadCbor::length_at))]
fn read_length(bytes: &[u8]) -> Result<(u64, &[u8]), ReadError>
    ensures { Gives (λ x. (x.0, x.1.now)) result (length_at bytes.now) }
{
    match bytes {
        [] => Err(ReadError::Refused),
        [first, rest @ ..] => length_after(*first, rest),
    }
}

// The length whose head begins with this byte. A longer head than it needs is refused.
#[tactic(auto, unfolding(crate::specs::ReadCbor::length_after))]
fn length_after(first: u8, bytes: &[u8]) -> Result<(u64, &[u8]), ReadError>
    ensures { Gives (λ x. (x.0, x.1.now)) result (length_after first bytes.now) }
{
    if first < 64 {
        return Err(ReadError::Refused);
    }
    if first < 88 {
        return Ok(((first - 64) as u64, bytes));
    }
    if first == 88 {
        return long8(bytes);
    }
    if first == 89 {
        return long16(bytes);
    }
    if first == 90 {
        return long32(bytes);
    }
    if first == 91 {
        return long64(bytes);
    }
    Err(ReadError::Refused)
}

#[tactic(auto, unfolding(crate::specs::ReadCbor::number_at))]
fn long8(bytes: &[u8]) -> Result<(u64, &[u8]), ReadError>
    ensures { Gives (λ x. (x.0, x.1.now)) result (long_at w8 24 bytes.now) }
{
    if bytes.len() < 1 {
        return Err(ReadError::Refused);
    }
    let (front, rest) = bytes.split_at(1);
    let n = front[0];
    if n < 24 {
        return Err(ReadError::Refused);
    }
    Ok((n as u64, rest))
}

#[tactic(auto, unfolding(crate::specs::ReadCbor::number_at))]
fn long16(bytes: &[u8]) -> Result<(u64, &[u8]), ReadError>
    ensures { Gives (λ x. (x.0, x.1.now)) result (long_at w16 256 bytes.now) }
{
    if bytes.len() < 2 {
        return Err(ReadError::Refused);
    }
    let (front, rest) = bytes.split_at(2);
    let n = u16::from_be_bytes([front[0], front[1]]);
    if n < 256 {
        return Err(ReadError::Refused);
    }
    Ok((n as u64, rest))
}

#[tactic(auto, unfolding(crate::specs::ReadCbor::number_at))]
fn long32(bytes: &[u8]) -> Result<(u64, &[u8]), ReadError>
    ensures { Gives (λ x. (x.0, x.1.now)) result (long_at w32 65536 bytes.now) }
{
    if bytes.len() < 4 {
        return Err(ReadError::Refused);
    }
    let (front, rest) = bytes.split_at(4);
    let n = u32::from_be_bytes([front[0], front[1], front[2], front[3]]);
    if n < 65_536 {
        return Err(ReadError::Refused);
    }
    Ok((n as u64, rest))
}

#[tactic(auto, unfolding(crate::specs::ReadCbor::number_at))]
fn long64(bytes: &[u8]) -> Result<(u64, &[u8]), ReadError>
    ensures { Gives (λ x. (x.0, x.1.now)) result (long_at w64 4294967296 bytes.now) }
{
    if bytes.len() < 8 {
        return Err(ReadError::Refused);
    }
    let (front, rest) = bytes.split_at(8);
    let n = u64::from_be_bytes([
        front[0], front[1], front[2], front[3], front[4], front[5], front[6], front[7],
    ]);
    if n < 4_294_967_296 {
        return Err(ReadError::Refused);
    }
    Ok((n, rest))
}
