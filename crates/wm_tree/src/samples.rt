//! Sample modules.

ghost use Rattle.std.specs.Prelude.{◌≡◌, ◌++◌, ◌∷◌, [], pos, IfOk};
ghost use Rattle.wm_tree.specs.declared.instr.Instr.TheVariants as op;
ghost use Rattle.wm_tree.specs.Relay.{func_type, types, system_call, imports, counts, replies, passes_on, returns_reply, returns_reject, method, func_code, codes, exports, elements, segments, relay};

use crate::data::{Data, Indices, Name};
use crate::instr::{Instr, Instrs};
use crate::parts::{
    Element, Elements, Export, ExportKind, Exports, FuncCode, FuncCodes, GlobalDefs, Import,
    ImportKind, Imports, Module, Run, Runs, Segment, Segments,
};
use crate::types::{FuncType, FuncTypes, Limits, LimitsList, MemArg, ValType, ValTypes};
use ic_base::NoMemory;
use std::alloc::Global;

// An `i64` at an address.
const WHOLE: MemArg = MemArg {
    align: 3,
    offset: 0,
};

fn func_type(alloc: Global, params: &[ValType], results: &[ValType]) -> Result<FuncType, NoMemory>
    ensures { IfOk result (λ t. t ≡ func_type params.now results.now) }
{
    Ok(FuncType {
        params: ValTypes {
            items: Vec::from_slice(alloc, params)?,
        },
        results: ValTypes {
            items: Vec::from_slice(alloc, results)?,
        },
    })
}

fn types(alloc: Global) -> Result<FuncTypes, NoMemory>
    ensures { IfOk result (λ t. t ≡ types) }
{
    let mut items = Vec::new(alloc);
    items.push(func_type(alloc, &[], &[])?)?;
    items.push(func_type(alloc, &[], &[ValType::I32])?)?;
    items.push(func_type(alloc, &[ValType::I32; 3], &[])?)?;
    items.push(func_type(alloc, &[ValType::I32; 2], &[])?)?;
    items.push(func_type(alloc, &[ValType::I32; 8], &[])?)?;
    items.push(func_type(alloc, &[ValType::I32], &[])?)?;
    items.push(func_type(alloc, &[ValType::I64], &[])?)?;
    items.push(func_type(alloc, &[ValType::I64], &[ValType::I64])?)?;
    Ok(FuncTypes { items })
}

fn name(alloc: Global, text: &str) -> Result<Name, NoMemory>
    ensures { IfOk result (λ n. n ≡ text.now) }
{
    Ok(Name {
        items: String::from_str(alloc, text)?,
    })
}

// A function of the module `ic0`, of the type at that index.
fn system_call(alloc: Global, method: &str, kind: u32) -> Result<Import, NoMemory>
    ensures { IfOk result (λ i. i ≡ system_call method.now kind) }
{
    Ok(Import {
        module: name(alloc, "ic0")?,
        name: name(alloc, method)?,
        kind: ImportKind::Function(kind),
    })
}

fn imports(alloc: Global) -> Result<Imports, NoMemory>
    ensures { IfOk result (λ i. i ≡ imports) }
{
    let mut items = Vec::new(alloc);
    items.push(system_call(alloc, "msg_arg_data_size", 1)?)?;
    items.push(system_call(alloc, "msg_arg_data_copy", 2)?)?;
    items.push(system_call(alloc, "msg_reply_data_append", 3)?)?;
    items.push(system_call(alloc, "msg_reply", 0)?)?;
    items.push(system_call(alloc, "msg_reject", 3)?)?;
    items.push(system_call(alloc, "call_new", 4)?)?;
    items.push(system_call(alloc, "call_data_append", 3)?)?;
    items.push(system_call(alloc, "call_cycles_add", 6)?)?;
    items.push(system_call(alloc, "call_perform", 1)?)?;
    items.push(system_call(alloc, "msg_cycles_accept", 7)?)?;
    Ok(Imports { items })
}

// Accepts up to 300 cycles, counts the call, and tests whether the argument is empty.
fn counts(alloc: Global) -> Result<Vec<Instr>, NoMemory>
    ensures { IfOk result (λ words. words.items ≡ counts) }
{
    let words = vec![in alloc;
        Instr::I64Const(300),
        Instr::Call(9),
        Instr::Drop,
        Instr::I32Const(8),
        Instr::I32Const(8),
        Instr::I64Load(WHOLE),
        Instr::I64Const(1),
        Instr::I64Add,
        Instr::I64Store(WHOLE),
        Instr::Call(0),
        Instr::LocalTee(0),
        Instr::I32Eqz,
        Instr::If(None),
    ]?;
    Ok(words)
}

// Replies with the count.
fn replies(alloc: Global) -> Result<Vec<Instr>, NoMemory>
    ensures { IfOk result (λ words. words.items ≡ replies) }
{
    let words = vec![in alloc;
        Instr::I32Const(8),
        Instr::I32Const(8),
        Instr::Call(2),
        Instr::Call(3),
        Instr::Else,
    ]?;
    Ok(words)
}

// Calls the canister that the argument names, with 500 cycles.
fn passes_on(alloc: Global) -> Result<Vec<Instr>, NoMemory>
    ensures { IfOk result (λ words. words.items ≡ passes_on) }
{
    let words = vec![in alloc;
        Instr::I32Const(1024),
        Instr::I32Const(0),
        Instr::LocalGet(0),
        Instr::Call(1),
        Instr::I32Const(1024),
        Instr::I32Const(10),
        Instr::I32Const(0),
        Instr::I32Const(5),
        Instr::I32Const(0),
        Instr::I32Const(0),
        Instr::I32Const(1),
        Instr::I32Const(0),
        Instr::Call(5),
        Instr::I32Const(1034),
        Instr::LocalGet(0),
        Instr::I32Const(10),
        Instr::I32Sub,
        Instr::Call(6),
        Instr::I64Const(500),
        Instr::Call(7),
        Instr::Call(8),
        Instr::Drop,
        Instr::End,
    ]?;
    Ok(words)
}

// Function 11, called with the reply: passes it on.
fn returns_reply(alloc: Global) -> Result<Vec<Instr>, NoMemory>
    ensures { IfOk result (λ words. words.items ≡ returns_reply) }
{
    let words = vec![in alloc;
        Instr::Call(0),
        Instr::LocalSet(0),
        Instr::I32Const(1024),
        Instr::I32Const(0),
        Instr::LocalGet(0),
        Instr::Call(1),
        Instr::I32Const(1024),
        Instr::LocalGet(0),
        Instr::Call(2),
        Instr::Call(3),
    ]?;
    Ok(words)
}

// Function 12, called with a reject: rejects with the text `relay`.
fn returns_reject(alloc: Global) -> Result<Vec<Instr>, NoMemory>
    ensures { IfOk result (λ words. words.items ≡ returns_reject) }
{
    let words = vec![in alloc; Instr::I32Const(0), Instr::I32Const(5), Instr::Call(4)]?;
    Ok(words)
}

// Function 10, with one local, the size of the argument.
fn method(alloc: Global) -> Result<FuncCode, NoMemory>
    ensures { IfOk result (λ c. c ≡ method) }
{
    let mut items = counts(alloc)?;
    items.append(&mut replies(alloc)?)?;
    items.append(&mut passes_on(alloc)?)?;
    let local = Run {
        count: 1,
        kind: ValType::I32,
    };
    Ok(FuncCode {
        locals: Runs {
            items: vec![in alloc; local]?,
        },
        body: Instrs { items },
    })
}

// A function without locals beside its parameter.
fn callback(alloc: Global, items: Vec<Instr>) -> Result<FuncCode, NoMemory>
    ensures { IfOk result (λ c. c ≡ func_code [] items.items) }
{
    Ok(FuncCode {
        locals: Runs {
            items: Vec::new(alloc),
        },
        body: Instrs { items },
    })
}

fn codes(alloc: Global) -> Result<FuncCodes, NoMemory>
    ensures { IfOk result (λ c. c ≡ codes) }
{
    let mut items = Vec::new(alloc);
    items.push(method(alloc)?)?;
    items.push(callback(alloc, returns_reply(alloc)?)?)?;
    items.push(callback(alloc, returns_reject(alloc)?)?)?;
    Ok(FuncCodes { items })
}

// An offset in a table or a memory: its beginning.
fn at_zero(alloc: Global) -> Result<Instrs, NoMemory>
    ensures { IfOk result (λ words. words ≡ op.I32Const (pos 0) ∷ []) }
{
    Ok(Instrs {
        items: vec![in alloc; Instr::I32Const(0)]?,
    })
}

fn exports(alloc: Global) -> Result<Exports, NoMemory>
    ensures { IfOk result (λ e. e ≡ exports) }
{
    let update = Export {
        name: name(alloc, "canister_update relay")?,
        kind: ExportKind::Function(10),
    };
    Ok(Exports {
        items: vec![in alloc; update]?,
    })
}

fn elements(alloc: Global) -> Result<Elements, NoMemory>
    ensures { IfOk result (λ e. e ≡ elements) }
{
    let callbacks = Element {
        table: 0,
        offset: at_zero(alloc)?,
        functions: Indices {
            items: vec![in alloc; 11, 12]?,
        },
    };
    Ok(Elements {
        items: vec![in alloc; callbacks]?,
    })
}

fn segments(alloc: Global) -> Result<Segments, NoMemory>
    ensures { IfOk result (λ s. s ≡ segments) }
{
    let text = Segment {
        memory: 0,
        offset: at_zero(alloc)?,
        bytes: Data {
            items: Vec::from_slice(alloc, b"relay")?,
        },
    };
    Ok(Segments {
        items: vec![in alloc; text]?,
    })
}

fn limits(alloc: Global, min: u32, max: Option<u32>) -> Result<LimitsList, NoMemory>
    ensures { IfOk result (λ l. l ≡ record { min = min; max = max } ∷ []) }
{
    Ok(LimitsList {
        items: vec![in alloc; Limits { min, max }]?,
    })
}

/// A module that counts its calls and passes a message on along a route of canisters: its update
/// method `relay` takes the ids of ten bytes, one after the other, that are in its argument.
pub fn relay(alloc: Global) -> Result<Module, NoMemory>
    ensures { IfOk result (λ m. m ≡ relay) }
{
    Ok(Module {
        types: types(alloc)?,
        imports: imports(alloc)?,
        functions: Indices {
            items: vec![in alloc; 0, 5, 5]?,
        },
        tables: limits(alloc, 2, Some(2))?,
        memories: limits(alloc, 1, None)?,
        globals: GlobalDefs {
            items: Vec::new(alloc),
        },
        exports: exports(alloc)?,
        start: None,
        elements: elements(alloc)?,
        codes: codes(alloc)?,
        segments: segments(alloc)?,
    })
}
