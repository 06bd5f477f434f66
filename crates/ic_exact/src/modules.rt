// Modules are compared part by part.
ghost use Rattle.std.specs.Prelude.{◌≡◌, ◌↔◌, IsTrue};

use crate::exact::Same;
use crate::items::same_items;
use wm_tree::{
    Data, Element, Elements, Export, ExportKind, Exports, FuncCode, FuncCodes, FuncType, FuncTypes,
    GlobalDef, GlobalDefs, GlobalType, Import, ImportKind, Imports, Indices, Limits, LimitsList,
    MemArg, Module, Name, Run, Runs, Segment, Segments, ValType, ValTypes,
};

impl Same for Name {
    #[tactic(auto, using(crate::proofs::Deciding::same_bytes))]
    fn same(&self, other: &Name) -> bool {
        self.items.as_bytes() == other.items.as_bytes()
    }
}

impl Same for Data {
    #[tactic(auto, using(crate::proofs::Deciding::same_bytes))]
    fn same(&self, other: &Data) -> bool {
        self.items.as_slice() == other.items.as_slice()
    }
}

impl Same for Indices {
    #[tactic(auto, using(crate::proofs::Deciding::same_bytes))]
    fn same(&self, other: &Indices) -> bool {
        self.items.as_slice() == other.items.as_slice()
    }
}

impl Same for ValType {
    fn same(&self, other: &ValType) -> bool {
        self == other
    }
}

impl Same for Limits {
    fn same(&self, other: &Limits) -> bool {
        self == other
    }
}

impl Same for GlobalType {
    fn same(&self, other: &GlobalType) -> bool {
        self == other
    }
}

impl Same for MemArg {
    fn same(&self, other: &MemArg) -> bool {
        self == other
    }
}

impl Same for ImportKind {
    fn same(&self, other: &ImportKind) -> bool {
        self == other
    }
}

impl Same for ExportKind {
    fn same(&self, other: &ExportKind) -> bool {
        self == other
    }
}

impl Same for Run {
    fn same(&self, other: &Run) -> bool {
        self == other
    }
}

impl Same for ValTypes {
    fn same(&self, other: &ValTypes) -> bool {
        same_items(self.items.as_slice(), other.items.as_slice())
    }
}

impl Same for FuncTypes {
    fn same(&self, other: &FuncTypes) -> bool {
        same_items(self.items.as_slice(), other.items.as_slice())
    }
}

impl Same for LimitsList {
    fn same(&self, other: &LimitsList) -> bool {
        same_items(self.items.as_slice(), other.items.as_slice())
    }
}

impl Same for Imports {
    fn same(&self, other: &Imports) -> bool {
        same_items(self.items.as_slice(), other.items.as_slice())
    }
}

impl Same for GlobalDefs {
    fn same(&self, other: &GlobalDefs) -> bool {
        same_items(self.items.as_slice(), other.items.as_slice())
    }
}

impl Same for Exports {
    fn same(&self, other: &Exports) -> bool {
        same_items(self.items.as_slice(), other.items.as_slice())
    }
}

impl Same for Elements {
    fn same(&self, other: &Elements) -> bool {
        same_items(self.items.as_slice(), other.items.as_slice())
    }
}

impl Same for Runs {
    fn same(&self, other: &Runs) -> bool {
        same_items(self.items.as_slice(), other.items.as_slice())
    }
}

impl Same for FuncCodes {
    fn same(&self, other: &FuncCodes) -> bool {
        same_items(self.items.as_slice(), other.items.as_slice())
    }
}

impl Same for Segments {
    fn same(&self, other: &Segments) -> bool {
        same_items(self.items.as_slice(), other.items.as_slice())
    }
}

impl Same for FuncType {
    fn same(&self, other: &FuncType) -> bool {
        self.params.same(&other.params) && self.results.same(&other.results)
    }
}

impl Same for Import {
    fn same(&self, other: &Import) -> bool {
        self.module.same(&other.module)
            && self.name.same(&other.name)
            && self.kind.same(&other.kind)
    }
}

impl Same for GlobalDef {
    fn same(&self, other: &GlobalDef) -> bool {
        self.kind.same(&other.kind) && self.init.same(&other.init)
    }
}

impl Same for Export {
    fn same(&self, other: &Export) -> bool {
        self.name.same(&other.name) && self.kind.same(&other.kind)
    }
}

impl Same for Element {
    fn same(&self, other: &Element) -> bool {
        self.table == other.table
            && self.offset.same(&other.offset)
            && self.functions.same(&other.functions)
    }
}

impl Same for FuncCode {
    fn same(&self, other: &FuncCode) -> bool {
        self.locals.same(&other.locals) && self.body.same(&other.body)
    }
}

impl Same for Segment {
    fn same(&self, other: &Segment) -> bool {
        self.memory == other.memory
            && self.offset.same(&other.offset)
            && self.bytes.same(&other.bytes)
    }
}

// Whether both begin with the same function, or neither with one.
fn same_start(a: Option<u32>, b: Option<u32>) -> bool
    ensures { IsTrue result ↔ (a ≡ b) }
{
    match (a, b) {
        (Some(a), Some(b)) => a == b,
        (None, None) => true,
        _ => false,
    }
}

impl Same for Module {
    fn same(&self, other: &Module) -> bool {
        same_start(self.start, other.start)
            && self.functions.same(&other.functions)
            && self.tables.same(&other.tables)
            && self.memories.same(&other.memories)
            && self.globals.same(&other.globals)
            && self.types.same(&other.types)
            && self.imports.same(&other.imports)
            && self.exports.same(&other.exports)
            && self.elements.same(&other.elements)
            && self.codes.same(&other.codes)
            && self.segments.same(&other.segments)
    }
}
