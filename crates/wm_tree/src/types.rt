use std::marker::Model;

/// A value type (WebAssembly Core 1.0, 2.3.1). There are no floats.
#[derive(Clone, Copy, Debug, PartialEq, Eq)]
pub enum ValType {
    I32,
    I64,
}

/// The types of parameters or results, in order.
#[derive(Debug, Drop)]
pub struct ValTypes {
    pub items: Vec<ValType>,
}

impl Model for ValTypes {
    ghost use Rattle.std.specs.Prelude.{List};
    ghost use Rattle.wm_tree.specs.declared.types.ValType.{ValType};

    ghost Value = { List ValType };

    ghost view = { λ l. l.items.items };
}

/// A function type (2.3.3). Validation admits at most one result.
#[derive(Debug, Drop)]
pub struct FuncType {
    pub params: ValTypes,
    pub results: ValTypes,
}

/// The function types of a module.
#[derive(Debug, Drop)]
pub struct FuncTypes {
    pub items: Vec<FuncType>,
}

impl Model for FuncTypes {
    ghost use Rattle.std.specs.Prelude.{List};
    ghost use Rattle.wm_tree.specs.declared.types.FuncType.{FuncType};

    ghost Value = { List FuncType };

    ghost view = { λ l. l.items.items };
}

/// Limits of a memory in pages of 65,536 bytes, or of a table in elements (2.3.4).
#[derive(Clone, Copy, Debug, PartialEq, Eq)]
pub struct Limits {
    pub min: u32,
    pub max: Option<u32>,
}

/// The limits of tables or memories.
#[derive(Debug, Drop)]
pub struct LimitsList {
    pub items: Vec<Limits>,
}

impl Model for LimitsList {
    ghost use Rattle.std.specs.Prelude.{List};
    ghost use Rattle.wm_tree.specs.declared.types.Limits.{Limits};

    ghost Value = { List Limits };

    ghost view = { λ l. l.items.items };
}

/// A global's type (2.3.6).
#[derive(Clone, Copy, Debug, PartialEq, Eq)]
pub struct GlobalType {
    pub kind: ValType,
    pub mutable: bool,
}

/// What a load or a store adds to its address, and the alignment that it hints at, as a power of 2.
#[derive(Clone, Copy, Debug, PartialEq, Eq)]
pub struct MemArg {
    pub align: u32,
    pub offset: u32,
}
