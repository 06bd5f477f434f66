ghost use Rattle.std.specs.Prelude.{◌≡◌, ◌<◌, ◌^◌, length};
ghost use Rattle.wm_encode.specs.Parts as written;
ghost use Rattle.wm_encode.specs.Ranges.{RangedImportKind, RangedImport, RangedGlobal, RangedExportKind, RangedExport, RangedElement, RangedRun, RangedCode, RangedSegment};

use crate::instr::{expr_size, write_expr};
use crate::item::{Encode, InTable, bytes_size, list_size, write_bytes, write_list};
use crate::types::write_global_type;
use ic_base::NoMemory;
use ic_leb::{size_u, write_u};
use wm_tree::{Element, Export, ExportKind, FuncCode, GlobalDef, Import, ImportKind, Run, Segment};

impl Encode<()> for ImportKind {
    ghost bytes = { written.import_kind };

    ghost Ranged = { RangedImportKind };

    fn size(&self) -> usize {
        match self {
            ImportKind::Function(x) => 1 + x.size(),
            ImportKind::Table(l) => 1 + Encode::<InTable>::size(l),
            ImportKind::Memory(l) => 1 + Encode::<()>::size(l),
            ImportKind::Global(_) => 3,
        }
    }

    fn write(&self, out: &mut Vec<u8>) -> Result<(), NoMemory> {
        match self {
            ImportKind::Function(x) => {
                out.push(0x00)?;
                x.write(out)?;
            }
            ImportKind::Table(l) => {
                out.push(0x01)?;
                Encode::<InTable>::write(l, out)?;
            }
            ImportKind::Memory(l) => {
                out.push(0x02)?;
                Encode::<()>::write(l, out)?;
            }
            ImportKind::Global(g) => {
                out.push(0x03)?;
                write_global_type(g, out)?;
            }
        }
        Ok(())
    }
}

impl Encode<()> for Import {
    ghost bytes = { written.import };

    ghost Ranged = { RangedImport };

    fn size(&self) -> usize {
        self.module.size() + self.name.size() + self.kind.size()
    }

    fn write(&self, out: &mut Vec<u8>) -> Result<(), NoMemory> {
        self.module.write(out)?;
        self.name.write(out)?;
        self.kind.write(out)?;
        Ok(())
    }
}

impl Encode<()> for GlobalDef {
    ghost bytes = { written.global };

    ghost Ranged = { RangedGlobal };

    fn size(&self) -> usize {
        2 + expr_size(&self.init.items)
    }

    fn write(&self, out: &mut Vec<u8>) -> Result<(), NoMemory> {
        write_global_type(&self.kind, out)?;
        write_expr(&self.init.items, out)?;
        Ok(())
    }
}

impl Encode<()> for ExportKind {
    ghost bytes = { written.export_kind };

    ghost Ranged = { RangedExportKind };

    fn size(&self) -> usize {
        match self {
            ExportKind::Function(x)
            | ExportKind::Table(x)
            | ExportKind::Memory(x)
            | ExportKind::Global(x) => 1 + x.size(),
        }
    }

    fn write(&self, out: &mut Vec<u8>) -> Result<(), NoMemory> {
        let (byte, index) = match self {
            ExportKind::Function(x) => (0x00, x),
            ExportKind::Table(x) => (0x01, x),
            ExportKind::Memory(x) => (0x02, x),
            ExportKind::Global(x) => (0x03, x),
        };
        out.push(byte)?;
        index.write(out)?;
        Ok(())
    }
}

impl Encode<()> for Export {
    ghost bytes = { written.export };

    ghost Ranged = { RangedExport };

    fn size(&self) -> usize {
        self.name.size() + self.kind.size()
    }

    fn write(&self, out: &mut Vec<u8>) -> Result<(), NoMemory> {
        self.name.write(out)?;
        self.kind.write(out)?;
        Ok(())
    }
}

impl Encode<()> for Element {
    ghost bytes = { written.element };

    ghost Ranged = { RangedElement };

    fn size(&self) -> usize {
        self.table.size() + expr_size(&self.offset.items) + list_size(&self.functions.items)
    }

    fn write(&self, out: &mut Vec<u8>) -> Result<(), NoMemory> {
        self.table.write(out)?;
        write_expr(&self.offset.items, out)?;
        write_list(&self.functions.items, out)?;
        Ok(())
    }
}

impl Encode<()> for Run {
    ghost bytes = { written.run };

    ghost Ranged = { RangedRun };

    fn size(&self) -> usize {
        self.count.size() + self.kind.size()
    }

    fn write(&self, out: &mut Vec<u8>) -> Result<(), NoMemory> {
        self.count.write(out)?;
        self.kind.write(out)?;
        Ok(())
    }
}

// The size of a function's locals and body.
fn func_size(code: &FuncCode) -> usize
    requires { length (written.func code.now) < 2 ^ 63 }
    ensures { result ≡ length (written.func code.now) }
{
    list_size(&code.locals.items) + expr_size(&code.body.items)
}

impl Encode<()> for FuncCode {
    ghost bytes = { written.code };

    ghost Ranged = { RangedCode };

    fn size(&self) -> usize {
        let size = func_size(self);
        size_u(size as u128) + size
    }

    fn write(&self, out: &mut Vec<u8>) -> Result<(), NoMemory> {
        write_u(func_size(self) as u128, out)?;
        write_list(&self.locals.items, out)?;
        write_expr(&self.body.items, out)?;
        Ok(())
    }
}

impl Encode<()> for Segment {
    ghost bytes = { written.segment };

    ghost Ranged = { RangedSegment };

    fn size(&self) -> usize {
        self.memory.size() + expr_size(&self.offset.items) + bytes_size(&self.bytes.items)
    }

    fn write(&self, out: &mut Vec<u8>) -> Result<(), NoMemory> {
        self.memory.write(out)?;
        write_expr(&self.offset.items, out)?;
        write_bytes(&self.bytes.items, out)?;
        Ok(())
    }
}
