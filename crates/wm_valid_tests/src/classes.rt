use std::test::*;
use wm_tree::*;

fn signature(takes: [Option<ValType>; 2], gives: Option<ValType>) -> Signature {
    let [first, second] = takes;
    Signature {
        first,
        second,
        third: None,
        gives,
    }
}

fn fixed(takes: [Option<ValType>; 2], gives: Option<ValType>) -> Class {
    Class::Fixed(signature(takes, gives))
}

const ARG: MemArg = MemArg {
    align: 0,
    offset: 8,
};

fn access(takes: [Option<ValType>; 2], gives: Option<ValType>, natural: u32) -> Class {
    Class::Access {
        signature: signature(takes, gives),
        arg: ARG,
        natural,
    }
}

const I32: Option<ValType> = Some(ValType::I32);

const I64: Option<ValType> = Some(ValType::I64);

/// Where from, where to, and how many bytes; or where to, a value, and how many.
fn range_write() -> Class {
    Class::Memory(Signature {
        first: I32,
        second: I32,
        third: I32,
        gives: None,
    })
}

fn rows() -> [(Instr, Class); 18] {
    [
        (Instr::Nop, fixed([None, None], None)),
        (Instr::I32Const(-1), fixed([None, None], I32)),
        (Instr::I64Eqz, fixed([I64, None], I32)),
        (Instr::I64LtU, fixed([I64, I64], I32)),
        (Instr::I64Popcnt, fixed([I64, None], I64)),
        (Instr::I32Rotr, fixed([I32, I32], I32)),
        (Instr::I32WrapI64, fixed([I64, None], I32)),
        (Instr::I64ExtendI32U, fixed([I32, None], I64)),
        (Instr::I32Extend16S, fixed([I32, None], I32)),
        (Instr::I64Extend8S, fixed([I64, None], I64)),
        (
            Instr::MemoryGrow,
            Class::Memory(signature([I32, None], I32)),
        ),
        (Instr::MemoryCopy, range_write()),
        (Instr::MemoryFill, range_write()),
        (Instr::I64Load32U(ARG), access([I32, None], I64, 2)),
        (Instr::I64Store16(ARG), access([I64, I32], None, 1)),
        (Instr::I32Load8S(ARG), access([I32, None], I32, 0)),
        (Instr::Select, Class::Special),
        (Instr::End, Class::Closes),
    ]
}

// How instructions are typed (WebAssembly Core 2.0, 3.3).
#[test]
fn classes(rt: HostRuntime) {
    for (instr, class) in &rows() {
        assert_eq!(rt; &class_of(instr), class, "{instr:?}");
    }
}
