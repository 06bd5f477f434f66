ghost use Rattle.std.specs.Prelude.{◌≡◌, [], ◌∷◌, IfOk};
ghost use Rattle.wm_tree.specs.Seq.{IsFlat};

use ic_base::NoMemory;
use std::alloc::Global;
use std::test::*;
use wm_tree::{FuncType, GlobalType, Indices, Instr, Run, ValType, ValTypes};
use wm_typing::*;

const GLOBALS: [GlobalType; 2] = [
    GlobalType {
        kind: ValType::I32,
        mutable: false,
    },
    GlobalType {
        kind: ValType::I64,
        mutable: true,
    },
];

/// A function with a local of type i64, in a module with a memory and a table. Its functions, of
/// which the first is imported, have the type (i32) -> i64.
fn validated(
    alloc: Global,
    result_type: Option<ValType>,
    body: &[Instr],
) -> Result<FlatCode, BodyFault>
    requires { IsFlat body.now }
{
    let mut types = Vec::new(alloc);
    types.push(FuncType {
        params: ValTypes {
            items: Vec::from_slice(alloc, &[ValType::I32])?,
        },
        results: ValTypes {
            items: Vec::from_slice(alloc, &[ValType::I64])?,
        },
    })?;
    let runs = [Run {
        count: 1,
        kind: ValType::I64,
    }];
    let locals = Locals::of(alloc, &runs)?;
    let context = Context {
        types: &types,
        functions: &[0, 0],
        hosts: &[7],
        globals: &GLOBALS,
        has_table: true,
        has_memory: true,
        params: &[],
        locals: &locals,
        result: result_type,
    };
    validate_body(alloc, &context, body)
}

fn labels(alloc: Global, label: u32) -> Result<Indices, NoMemory>
    ensures { IfOk result (λ ls. ls ≡ label ∷ []) }
{
    Ok(Indices {
        items: Vec::from_slice(alloc, &[label])?,
    })
}

#[test]
fn side_table_of_if_and_loop(rt: HostRuntime) -> Result<(), Fail> {
    let code = validated(
        rt.alloc(),
        None,
        &[
            Instr::I32Const(1),
            Instr::If(None),
            Instr::Br(0),
            Instr::Else,
            Instr::Loop(None),
            Instr::I32Const(0),
            Instr::BrIf(0),
            Instr::End,
            Instr::End,
        ],
    )?;
    let jump = |target| Branch {
        target,
        height: 0,
        result: None,
    };
    let entries = [0, 4, 9, 9, 0, 0, 4, 0, 0].map(jump);
    assert_eq!(rt; code.entries.as_slice(), entries.as_slice());
    assert_eq!(rt; code.frame.room, 1);
    assert_eq!(rt; code.ops.len(), 10);
    Ok(())
}

#[test]
fn arms_of_a_table(rt: HostRuntime) -> Result<(), Fail> {
    let alloc = rt.alloc();
    let code = validated(
        alloc,
        Some(ValType::I32),
        &[
            Instr::I32Const(9),
            Instr::Block(Some(ValType::I32)),
            Instr::I32Const(5),
            Instr::I32Const(1),
            Instr::BrTable {
                labels: labels(alloc, 0)?,
                other: 1,
            },
            Instr::End,
            Instr::Drop,
        ],
    )?;
    let branch = |target, height| Branch {
        target,
        height,
        result: Some(ValType::I32),
    };
    assert_eq!(rt;
        code.arms.as_slice(),
        [branch(6, 1), branch(7, 0)].as_slice()
    );
    assert!(rt; code.ops.get(4) == Some(&Op::BrTable(1)));
    assert_eq!(rt; code.frame.room, 3);
    Ok(())
}

#[test]
fn calls_and_room(rt: HostRuntime) -> Result<(), Fail> {
    let code = validated(
        rt.alloc(),
        Some(ValType::I64),
        &[
            Instr::I32Const(1),
            Instr::Call(0),
            Instr::Drop,
            Instr::I32Const(1),
            Instr::Call(1),
            Instr::Return,
        ],
    )?;
    assert!(rt; code.ops.get(1) == Some(&Op::CallHost(7)));
    assert!(rt; code.ops.get(4) == Some(&Op::Call(0)));
    let out = Branch {
        target: 6,
        height: 0,
        result: Some(ValType::I64),
    };
    assert_eq!(rt; code.entries.get(5), Some(&out));
    let never_ends = validated(rt.alloc(), Some(ValType::I64), &[Instr::Unreachable])?;
    assert_eq!(rt; never_ends.frame.room, 1);
    Ok(())
}

/// The frame of a function with two parameters of type i32 and the locals of these runs, which gives
/// the local of that number.
fn frame_with(alloc: Global, runs: &[Run], index: u32, kind: ValType) -> Result<Frame, BodyFault> {
    let locals = Locals::of(alloc, runs)?;
    let context = Context {
        types: &[],
        functions: &[],
        hosts: &[],
        globals: &[],
        has_table: false,
        has_memory: false,
        params: &[ValType::I32, ValType::I32],
        locals: &locals,
        result: Some(kind),
    };
    let code = validate_body(alloc, &context, &[Instr::LocalGet(index)])?;
    Ok(code.frame)
}

fn run(count: u32, kind: ValType) -> Run {
    Run { count, kind }
}

#[test]
fn locals_in_runs(rt: HostRuntime) -> Result<(), Fail> {
    let alloc = rt.alloc();
    let runs = [
        run(0, ValType::I64),
        run(2, ValType::I64),
        run(0, ValType::I64),
        run(3, ValType::I32),
    ];
    let frame = frame_with(alloc, &runs, 6, ValType::I32)?;
    assert_eq!(rt; (frame.params, frame.locals), (2, 7));
    Ok(())
}

// All locals together are counted in 32 bits.
#[test]
fn many_locals(rt: HostRuntime) -> Result<(), Fail> {
    let alloc = rt.alloc();
    let kind = ValType::I64;
    let most = [run(u32::MAX - 3, kind), run(1, kind)];
    assert_eq!(rt;
        frame_with(alloc, &most, u32::MAX - 1, kind)?.locals,
        u32::MAX
    );
    for runs in [
        [run(u32::MAX - 2, kind), run(1, kind)],
        [run(u32::MAX, kind), run(1, kind)],
    ] {
        let fault = frame_with(alloc, &runs, 2, kind).err();
        assert_eq!(rt; fault, Some(BodyFault::NoMemory));
    }
    Ok(())
}
