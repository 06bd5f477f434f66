ghost use Rattle.std.specs.Prelude.{◌≡◌, ◌<◌, ◌^◌, ◌++◌, List, ℕ, length, All, OnOk, IsUtf8};
ghost use Rattle.std.specs.List.{flat_map};
ghost use Rattle.wm_encode.specs.Values.{vec, sized};

use ic_base::NoMemory;
use ic_leb::{size_u, write_u};
use wm_tree::Name;

/// A part of a module that can be written. `C` tells apart two ways to write one type: `InTable`
/// and `()`.
pub(crate) trait Encode<C> {
    /// How it is written.
    ghost bytes: { Self → List ℕ };

    /// What the types of its numbers and names say.
    ghost Ranged: { Self → Type 0 };

    /// How many bytes `write` appends.
    fn size(&self) -> usize
        requires { length (bytes self.now) < 2 ^ 63 }
        ensures { result ≡ length (bytes self.now) };

    /// Appends the bytes. After an error some of them may be appended.
    fn write(&self, out: &mut Vec<u8>) -> Result<(), NoMemory>
        requires { length (bytes self.now) < 2 ^ 63 }
        ensures written { OnOk result (out.new.items ≡ out.old.items ++ bytes self.now) }
        ensures ranged { OnOk result (Ranged self.now) };
}

/// How limits are written in the table section.
pub(crate) struct InTable;

pub(crate) fn each_size<C, T: Encode<C>>(items: &[T]) -> usize
    requires { length (flat_map T.bytes items.now) < 2 ^ 63 }
    ensures { result ≡ length (flat_map T.bytes items.now) }
{
    let mut size = 0;
    for item in items {
        size += item.size();
    }
    size
}

pub(crate) fn write_each<C, T: Encode<C>>(items: &[T], out: &mut Vec<u8>) -> Result<(), NoMemory>
    requires { length (flat_map T.bytes items.now) < 2 ^ 63 }
    ensures written { OnOk result (out.new.items ≡ out.old.items ++ flat_map T.bytes items.now) }
    ensures ranged { OnOk result (All T.Ranged items.now) }
{
    for item in items {
        item.write(out)?;
    }
    Ok(())
}

pub(crate) fn list_size<C, T: Encode<C>>(items: &[T]) -> usize
    requires { length (vec T.bytes items.now) < 2 ^ 63 }
    ensures { result ≡ length (vec T.bytes items.now) }
{
    size_u(items.len() as u128) + each_size(items)
}

/// A vector: the number of its items, and each of them.
pub(crate) fn write_list<C, T: Encode<C>>(items: &[T], out: &mut Vec<u8>) -> Result<(), NoMemory>
    requires { length (vec T.bytes items.now) < 2 ^ 63 }
    ensures written { OnOk result (out.new.items ≡ out.old.items ++ vec T.bytes items.now) }
    ensures ranged { OnOk result (All T.Ranged items.now) }
{
    write_u(items.len() as u128, out)?;
    write_each(items, out)?;
    Ok(())
}

pub(crate) fn bytes_size(bytes: &[u8]) -> usize
    requires { length (sized bytes.now) < 2 ^ 63 }
    ensures { result ≡ length (sized bytes.now) }
{
    size_u(bytes.len() as u128) + bytes.len()
}

/// A vector of bytes.
pub(crate) fn write_bytes(bytes: &[u8], out: &mut Vec<u8>) -> Result<(), NoMemory>
    ensures { OnOk result (out.new.items ≡ out.old.items ++ sized bytes.now) }
{
    write_u(bytes.len() as u128, out)?;
    out.extend_from_slice(bytes)?;
    Ok(())
}

impl Encode<()> for Name {
    ghost bytes = { sized };

    ghost Ranged = { IsUtf8 };

    fn size(&self) -> usize {
        bytes_size(self.items.as_bytes())
    }

    fn write(&self, out: &mut Vec<u8>) -> Result<(), NoMemory> {
        let text = self.items.as_str();
        write_bytes(text.as_bytes(), out)?;
        Ok(())
    }
}
