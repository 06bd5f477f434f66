ghost use Rattle.std.specs.Prelude.{◌≡◌, ◌++◌, List, ℕ, length, OnOk, IsTrue};
ghost use Rattle.std.specs.List.{flat_map};
ghost use Rattle.cd_types.specs.IsTable.{is_table};
ghost use Rattle.cd_codec.specs.Spelling.{counted};
ghost use Rattle.cd_codec.specs.HeaderSpelling.{list_spelling, reference_spelling, field_spelling, method_spelling, body_spelling, entry_spelling, header_spelling};

use crate::codes::{kind_of, number_of_kind, number_of_reference};
use cd_types::{Entry, TyRef, TypeTable};
use ic_base::NoMemory;
use ic_leb::{write_s, write_u};
use ic_principal::Text;

/// What is in the lists of a header.
trait Encode {
    /// How it is written.
    ghost bytes: { Self → List ℕ };

    /// Appends the bytes. After an error some of them may be appended.
    fn write(&self, out: &mut Vec<u8>) -> Result<(), NoMemory>
        ensures { OnOk result (out.new.items ≡ out.old.items ++ bytes self.now) };
}

fn write_each<T: Encode>(items: &[T], out: &mut Vec<u8>) -> Result<(), NoMemory>
    ensures { OnOk result (out.new.items ≡ out.old.items ++ flat_map T.bytes items.now) }
{
    for item in items {
        item.write(out)?;
    }
    Ok(())
}

// The number of the items, and each of them.
fn write_list<T: Encode>(items: &[T], out: &mut Vec<u8>) -> Result<(), NoMemory>
    ensures { OnOk result (out.new.items ≡ out.old.items ++ list_spelling T.bytes items.now) }
{
    write_u(items.len() as u128, out)?;
    write_each(items, out)?;
    Ok(())
}

/// Appends bytes after their number. After an error some of them may be appended.
pub(crate) fn write_counted(bytes: &[u8], out: &mut Vec<u8>) -> Result<(), NoMemory>
    ensures { OnOk result (out.new.items ≡ out.old.items ++ counted bytes.now) }
{
    write_u(bytes.len() as u128, out)?;
    out.extend_from_slice(bytes)?;
    Ok(())
}

impl Encode for TyRef {
    ghost bytes = { reference_spelling };

    fn write(&self, out: &mut Vec<u8>) -> Result<(), NoMemory> {
        write_s(number_of_reference(*self), out)?;
        Ok(())
    }
}

impl Encode for (u32, TyRef) {
    ghost bytes = { field_spelling };

    fn write(&self, out: &mut Vec<u8>) -> Result<(), NoMemory> {
        write_u(u128::from(self.0), out)?;
        self.1.write(out)?;
        Ok(())
    }
}

impl Encode for (Text, TyRef) {
    ghost bytes = { method_spelling };

    fn write(&self, out: &mut Vec<u8>) -> Result<(), NoMemory> {
        write_counted(self.0.items.as_bytes(), out)?;
        self.1.write(out)?;
        Ok(())
    }
}

// What follows the number of the entry's kind.
fn write_body(entry: &Entry, out: &mut Vec<u8>) -> Result<(), NoMemory>
    ensures { OnOk result (out.new.items ≡ out.old.items ++ body_spelling entry.now) }
{
    match entry {
        Entry::Opt(ty) | Entry::Seq(ty) => ty.write(out)?,
        Entry::Rec(fields) | Entry::Var(fields) => write_list(&fields.items, out)?,
        Entry::Func {
            args,
            results,
            notes,
        } => {
            write_list(&args.items, out)?;
            write_list(&results.items, out)?;
            write_counted(&notes.items, out)?;
        }
        Entry::Service(methods) => write_list(&methods.items, out)?,
    }
    Ok(())
}

fn write_entry(entry: &Entry, out: &mut Vec<u8>) -> Result<(), NoMemory>
    ensures { OnOk result (out.new.items ≡ out.old.items ++ entry_spelling entry.now) }
{
    write_s(number_of_kind(kind_of(entry)), out)?;
    write_body(entry, out)?;
    Ok(())
}

fn write_table(table: &TypeTable, out: &mut Vec<u8>) -> Result<(), NoMemory>
    ensures { OnOk result (out.new.items ≡ out.old.items ++ flat_map entry_spelling table.now) }
{
    for index in 0..table.len() {
        if let Some(entry) = table.entry(index) {
            write_entry(entry, out)?;
        }
    }
    Ok(())
}

/// Appends `DIDL`, the type table and the types of the arguments. After an error some of the bytes
/// may be appended.
pub(crate) fn write_header(
    table: &TypeTable,
    types: &[TyRef],
    out: &mut Vec<u8>,
) -> Result<(), NoMemory>
    ensures written { OnOk result (out.new.items ≡ out.old.items ++ header_spelling table.now types.now) }
    ensures well_formed { OnOk result (IsTrue (is_table table.now)) }
{
    out.extend_from_slice(b"DIDL")?;
    write_u(u128::from(table.len()), out)?;
    write_table(table, out)?;
    write_list(types, out)?;
    Ok(())
}
