use crate::data::{Data, Indices, Name};
use crate::instr::Instrs;
use crate::types::{FuncTypes, GlobalType, Limits, LimitsList, ValType};
use std::marker::Model;

/// What is imported (WebAssembly Core 1.0, 2.5.11): a function by the index of its type.
#[derive(Clone, Copy, Debug, PartialEq, Eq)]
pub enum ImportKind {
    Function(u32),
    Table(Limits),
    Memory(Limits),
    Global(GlobalType),
}

/// An import.
#[derive(Debug, Drop)]
pub struct Import {
    pub module: Name,
    pub name: Name,
    pub kind: ImportKind,
}

/// The imports of a module.
#[derive(Debug, Drop)]
pub struct Imports {
    pub items: Vec<Import>,
}

impl Model for Imports {
    ghost use Rattle.std.specs.Prelude.{List};
    ghost use Rattle.wm_tree.specs.declared.parts.Import.{Import};

    ghost Value = { List Import };

    ghost view = { λ l. l.items.items };
}

/// A defined global and the constant expression of its first value (2.5.6).
#[derive(Debug, Drop)]
pub struct GlobalDef {
    pub kind: GlobalType,
    pub init: Instrs,
}

/// The globals that a module defines.
#[derive(Debug, Drop)]
pub struct GlobalDefs {
    pub items: Vec<GlobalDef>,
}

impl Model for GlobalDefs {
    ghost use Rattle.std.specs.Prelude.{List};
    ghost use Rattle.wm_tree.specs.declared.parts.GlobalDef.{GlobalDef};

    ghost Value = { List GlobalDef };

    ghost view = { λ l. l.items.items };
}

/// What is exported, by its index (2.5.10).
#[derive(Clone, Copy, Debug, PartialEq, Eq)]
pub enum ExportKind {
    Function(u32),
    Table(u32),
    Memory(u32),
    Global(u32),
}

/// An export.
#[derive(Debug, Drop)]
pub struct Export {
    pub name: Name,
    pub kind: ExportKind,
}

/// The exports of a module.
#[derive(Debug, Drop)]
pub struct Exports {
    pub items: Vec<Export>,
}

impl Model for Exports {
    ghost use Rattle.std.specs.Prelude.{List};
    ghost use Rattle.wm_tree.specs.declared.parts.Export.{Export};

    ghost Value = { List Export };

    ghost view = { λ l. l.items.items };
}

/// An element segment: functions that are in a table from the offset on (2.5.7).
#[derive(Debug, Drop)]
pub struct Element {
    pub table: u32,
    pub offset: Instrs,
    pub functions: Indices,
}

/// The element segments of a module.
#[derive(Debug, Drop)]
pub struct Elements {
    pub items: Vec<Element>,
}

impl Model for Elements {
    ghost use Rattle.std.specs.Prelude.{List};
    ghost use Rattle.wm_tree.specs.declared.parts.Element.{Element};

    ghost Value = { List Element };

    ghost view = { λ l. l.items.items };
}

/// A data segment: bytes that are in a memory from the offset on (2.5.8).
#[derive(Debug, Drop)]
pub struct Segment {
    pub memory: u32,
    pub offset: Instrs,
    pub bytes: Data,
}

/// The data segments of a module.
#[derive(Debug, Drop)]
pub struct Segments {
    pub items: Vec<Segment>,
}

impl Model for Segments {
    ghost use Rattle.std.specs.Prelude.{List};
    ghost use Rattle.wm_tree.specs.declared.parts.Segment.{Segment};

    ghost Value = { List Segment };

    ghost view = { λ l. l.items.items };
}

/// That many locals of one type (5.5.13).
#[derive(Clone, Copy, Debug, PartialEq, Eq)]
pub struct Run {
    pub count: u32,
    pub kind: ValType,
}

/// The locals of a function, without its parameters.
#[derive(Debug, Drop)]
pub struct Runs {
    pub items: Vec<Run>,
}

impl Model for Runs {
    ghost use Rattle.std.specs.Prelude.{List};
    ghost use Rattle.wm_tree.specs.declared.parts.Run.{Run};

    ghost Value = { List Run };

    ghost view = { λ l. l.items.items };
}

/// The locals and the body of a function.
#[derive(Debug, Drop)]
pub struct FuncCode {
    pub locals: Runs,
    pub body: Instrs,
}

/// The codes of the functions that a module defines.
#[derive(Debug, Drop)]
pub struct FuncCodes {
    pub items: Vec<FuncCode>,
}

impl Model for FuncCodes {
    ghost use Rattle.std.specs.Prelude.{List};
    ghost use Rattle.wm_tree.specs.declared.parts.FuncCode.{FuncCode};

    ghost Value = { List FuncCode };

    ghost view = { λ l. l.items.items };
}

/// A module (2.5). `functions` has the type of each function that it defines, and `codes` its code.
#[derive(Debug)]
pub struct Module {
    pub types: FuncTypes,
    pub imports: Imports,
    pub functions: Indices,
    pub tables: LimitsList,
    pub memories: LimitsList,
    pub globals: GlobalDefs,
    pub exports: Exports,
    pub start: Option<u32>,
    pub elements: Elements,
    pub codes: FuncCodes,
    pub segments: Segments,
}

// Not derived, so that it is proved here and not in each crate that drops one.
impl Drop for Module {
    fn drop(self) {
        let Module {
            types: _types,
            imports: _imports,
            functions: _functions,
            tables: _tables,
            memories: _memories,
            globals: _globals,
            exports: _exports,
            start: _,
            elements: _elements,
            codes: _codes,
            segments: _segments,
        } = self;
    }
}
