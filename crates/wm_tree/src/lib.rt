//! WebAssembly modules as data (Core 1.0, section 2): types, instructions and the parts of a module.
//!
//! Bodies are flat lists of instructions. The definitions beside them say of which nested blocks a
//! body is the words (`Seq`, `flatten`, `tree_of`), and give each instruction its one row: opcode,
//! operands, typing (`row_of`). The format's reader and writer, validation and execution go by this
//! table.
#![tactic(auto)]

mod class;
mod data;
mod instr;
mod laws;
mod listing;
mod opcode;
mod parts;
pub mod samples;
mod types;

pub use class::{Class, Shape, Signature, class_of};
pub use data::{Data, Indices, Name};
pub use instr::{Instr, Instrs};
pub use laws::{place_behind, tree_of_words, words_of_tree};
pub use listing::Listing;
pub use opcode::opcode_of;
pub use parts::{
    Element, Elements, Export, ExportKind, Exports, FuncCode, FuncCodes, GlobalDef, GlobalDefs,
    Import, ImportKind, Imports, Module, Run, Runs, Segment, Segments,
};
pub use types::{FuncType, FuncTypes, GlobalType, Limits, LimitsList, MemArg, ValType, ValTypes};
