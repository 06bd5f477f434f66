use crate::answers::*;
use crate::bytes::{module_of, with_body};
use crate::cases;
use std::test::*;

#[test]
fn sections_in_shortest_form(rt: HostRuntime) -> Result<(), Fail> {
    for (padded, shortest) in cases::padded() {
        let given = module_of(rt.alloc(), &[*padded])?;
        let expected = module_of(rt.alloc(), &[*shortest])?;
        compare(&rt, &given, &expected)?;
    }
    Ok(())
}

#[test]
fn each_section(rt: HostRuntime) -> Result<(), Fail> {
    for section in cases::sections() {
        let bytes = module_of(rt.alloc(), &[*section])?;
        compare(&rt, &bytes, &bytes)?;
    }
    Ok(())
}

#[test]
fn each_instruction_with_operands(rt: HostRuntime) -> Result<(), Fail> {
    for words in cases::instructions() {
        let bytes = with_body(rt.alloc(), words)?;
        compare(&rt, &bytes, &bytes)?;
    }
    Ok(())
}

#[test]
fn each_instruction_without_operands(rt: HostRuntime) -> Result<(), Fail> {
    for (first, last) in cases::opcodes() {
        for opcode in *first..=*last {
            compare_opcode(&rt, opcode)?;
        }
    }
    Ok(())
}

#[test]
fn relay_both_ways(rt: HostRuntime) -> Result<(), Fail> {
    let written = relay_written(rt.alloc())?;
    let expected = module_of(rt.alloc(), cases::relay())?;
    assert_eq!(rt; written.items.as_slice(), expected.as_slice());
    assert_eq!(rt; relay_codes(rt.alloc()), Ok(3));
    Ok(())
}
