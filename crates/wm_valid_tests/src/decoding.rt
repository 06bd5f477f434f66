use crate::answers::*;
use crate::bytes::*;
use crate::cases;
use std::test::*;
use wm_decode::ModuleFault;

#[test]
fn lengths(rt: HostRuntime) -> Result<(), Fail> {
    let alloc = rt.alloc();
    let mut zeros = zeros(alloc, 2_097_152)?;
    assert_eq!(rt; fault_of(alloc, &zeros), Some(ModuleFault::NotModule));
    zeros.push(0)?;
    assert_eq!(rt; fault_of(alloc, &zeros), Some(ModuleFault::TooLarge));
    Ok(())
}

#[test]
fn instructions_with_operands(rt: HostRuntime) -> Result<(), Fail> {
    let mut count: usize = 0;
    for (first, names, operands, shown) in cases::with_operands() {
        assert_eq!(rt; name_not(rt.alloc(), *first, names, operands, shown)?, None);
        count = count.wrapping_add(names.split(' ').count());
    }
    // Without `else` and `end`.
    assert_eq!(rt; count, 38);
    Ok(())
}

#[test]
fn instructions_without_operands(rt: HostRuntime) -> Result<(), Fail> {
    let mut count: usize = 0;
    for (first, names) in cases::without_operands() {
        assert_eq!(rt; name_not(rt.alloc(), *first, names, b"", "")?, None);
        count = count.wrapping_add(names.split(' ').count());
    }
    assert_eq!(rt; count, 71);
    Ok(())
}

#[test]
fn each_section(rt: HostRuntime) -> Result<(), Fail> {
    let bytes = module_of(rt.alloc(), cases::parts())?;
    let read = shown_in(rt.alloc(), &bytes)?;
    assert_eq!(rt; read.as_str(), cases::shown());
    Ok(())
}
