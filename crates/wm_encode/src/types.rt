ghost use Rattle.std.specs.Prelude.{◌≡◌, ◌++◌, [], ◌∷◌, OnOk};
ghost use Rattle.wm_encode.specs.Types as written;
ghost use Rattle.wm_encode.specs.Ranges.{RangedLimits};

use crate::item::{Encode, InTable, list_size, write_list};
use ic_base::NoMemory;
use wm_tree::{FuncType, GlobalType, Limits, ValType};

fn code_of(t: ValType) -> u8
    ensures { result ∷ [] ≡ written.val_type t }
{
    match t {
        ValType::I32 => 0x7F,
        ValType::I64 => 0x7E,
    }
}

impl Encode<()> for ValType {
    ghost bytes = { written.val_type };

    ghost Ranged = { λ _. Unit {0} };

    fn size(&self) -> usize {
        1
    }

    fn write(&self, out: &mut Vec<u8>) -> Result<(), NoMemory> {
        out.push(code_of(*self))?;
        Ok(())
    }
}

pub(crate) fn write_block_type(t: Option<ValType>, out: &mut Vec<u8>) -> Result<(), NoMemory>
    ensures { OnOk result (out.new.items ≡ out.old.items ++ written.block_type t) }
{
    match t {
        None => out.push(0x40)?,
        Some(t) => out.push(code_of(t))?,
    }
    Ok(())
}

impl Encode<()> for FuncType {
    ghost bytes = { written.func_type };

    ghost Ranged = { λ _. Unit {0} };

    fn size(&self) -> usize {
        1 + list_size(&self.params.items) + list_size(&self.results.items)
    }

    fn write(&self, out: &mut Vec<u8>) -> Result<(), NoMemory> {
        out.push(0x60)?;
        write_list(&self.params.items, out)?;
        write_list(&self.results.items, out)?;
        Ok(())
    }
}

impl Encode<()> for Limits {
    ghost bytes = { written.limits };

    ghost Ranged = { RangedLimits };

    fn size(&self) -> usize {
        match &self.max {
            None => 1 + self.min.size(),
            Some(max) => 1 + self.min.size() + max.size(),
        }
    }

    fn write(&self, out: &mut Vec<u8>) -> Result<(), NoMemory> {
        match &self.max {
            None => {
                out.push(0x00)?;
                self.min.write(out)?;
            }
            Some(max) => {
                out.push(0x01)?;
                self.min.write(out)?;
                max.write(out)?;
            }
        }
        Ok(())
    }
}

impl Encode<InTable> for Limits {
    ghost bytes = { written.table_type };

    ghost Ranged = { RangedLimits };

    fn size(&self) -> usize {
        1 + Encode::<()>::size(self)
    }

    fn write(&self, out: &mut Vec<u8>) -> Result<(), NoMemory> {
        out.push(0x70)?;
        Encode::<()>::write(self, out)?;
        Ok(())
    }
}

pub(crate) fn write_global_type(g: &GlobalType, out: &mut Vec<u8>) -> Result<(), NoMemory>
    ensures { OnOk result (out.new.items ≡ out.old.items ++ written.global_type g.now) }
{
    out.push(code_of(g.kind))?;
    out.push(if g.mutable { 0x01 } else { 0x00 })?;
    Ok(())
}
