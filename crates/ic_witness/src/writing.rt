ghost use Rattle.std.specs.Prelude.{◌≡◌, ◌++◌, ◌<◌, ◌≤◌, ◌^◌, IfOk, OnOk, length};
ghost use Rattle.ic_witness.specs.Cbor.{Fits, IsText, cbor, depth, head, string, tag};
ghost use Rattle.ic_tree.specs.View.{view};

use ic_base::NoMemory;
use ic_principal::Bytes;
use ic_tree::Tree;
use std::alloc::Global;

/// Writes a tree (RFC 8949; IC Interface Specification, "Certificate"), with the tag in front.
pub fn write(alloc: Global, tree: &Tree) -> Result<Bytes, NoMemory>
    requires deep { depth (view tree.now) ≤ 128 }
    ensures bytes { IfOk result (λ bytes. bytes ≡ tag ++ cbor (view tree.now)) }
    ensures grammar { IfOk result (λ bytes. IsText (view tree.now) bytes) }
{
    let mut items = Vec::new(alloc);
    push(b"\xD9\xD9\xF7".as_slice(), &mut items)?;
    push_tree(tree, &mut items)?;
    Ok(Bytes { items })
}

#[tactic(auto, unfolding(crate::specs::Cbor::cbor, crate::specs::Cbor::Fits, ic_tree::specs::View::view))]
fn push_tree(tree: &Tree, out: &mut Vec<u8>) -> Result<(), NoMemory>
    ensures bytes { OnOk result (out.new.items ≡ out.old.items ++ cbor (view tree.now)) }
    ensures fits { OnOk result (Fits (view tree.now)) }
{
    match tree {
        Tree::Empty => push(b"\x81\x00".as_slice(), out),
        Tree::Fork(left, right) => {
            push(b"\x83\x01".as_slice(), out)?;
            push_tree(left, out)?;
            push_tree(right, out)
        }
        Tree::Labeled(label, part) => {
            push(b"\x83\x02".as_slice(), out)?;
            push_string(&label.items, out)?;
            push_tree(part, out)
        }
        Tree::Leaf(bytes) => {
            push(b"\x82\x03".as_slice(), out)?;
            push_string(&bytes.items, out)
        }
        Tree::Pruned(hash) => {
            push(b"\x82\x04".as_slice(), out)?;
            push_hash(*hash, out)
        }
    }
}

fn push_hash(hash: [u8; 32], out: &mut Vec<u8>) -> Result<(), NoMemory>
    ensures counted { length hash ≡ 32 }
    ensures bytes { OnOk result (out.new.items ≡ out.old.items ++ string hash) }
{
    push_string(hash.as_slice(), out)
}

fn push_string(bytes: &[u8], out: &mut Vec<u8>) -> Result<(), NoMemory>
    ensures counted { length bytes.now < 2 ^ 64 }
    ensures bytes { OnOk result (out.new.items ≡ out.old.items ++ string bytes.now) }
{
    push_head(bytes.len() as u64, out)?;
    push(bytes, out)
}

fn push_head(n: u64, out: &mut Vec<u8>) -> Result<(), NoMemory>
    ensures { OnOk result (out.new.items ≡ out.old.items ++ head n) }
{
    if n < 24 {
        out.push(64 + n as u8)?;
        return Ok(());
    }
    if n < 256 {
        out.push(88)?;
        return push((n as u8).to_be_bytes().as_slice(), out);
    }
    if n < 65_536 {
        out.push(89)?;
        return push((n as u16).to_be_bytes().as_slice(), out);
    }
    if n < 4_294_967_296 {
        out.push(90)?;
        return push((n as u32).to_be_bytes().as_slice(), out);
    }
    out.push(91)?;
    push(n.to_be_bytes().as_slice(), out)
}

fn push(bytes: &[u8], out: &mut Vec<u8>) -> Result<(), NoMemory>
    ensures { OnOk result (out.new.items ≡ out.old.items ++ bytes.now) }
{
    out.extend_from_slice(bytes)?;
    Ok(())
}
