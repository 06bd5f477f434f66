use ic_principal::Text;
use std::test::*;
use wm_semantics::*;

#[test]
fn meter(rt: HostRuntime) -> Result<(), Fail> {
    let mut meter = Meter::new(10);
    assert!(rt; meter.charge(7));
    assert!(rt; !meter.charge(4));
    assert_eq!(rt; meter.used(), 7);
    assert!(rt; meter.charge(3));
    assert_eq!(rt; meter.used(), 10);
    assert!(rt; !meter.charge(u128::MAX));
    Ok(())
}

/// Each trap that has no message, and its text.
fn traps() -> [(Trap, &'static str); 10] {
    [
        (Trap::Unreachable, "unreachable"),
        (Trap::DivideByZero, "division by zero"),
        (Trap::Overflow, "integer overflow"),
        (Trap::MemoryBounds, "memory out of bounds"),
        (Trap::TableBounds, "table out of bounds"),
        (Trap::Uninitialised, "uninitialised element"),
        (Trap::Signature, "signature mismatch"),
        (Trap::Depth, "call depth"),
        (Trap::Limit, "instruction limit"),
        (Trap::Api, "system call"),
    ]
}

#[test]
fn texts(rt: HostRuntime) {
    for (trap, text) in &traps() {
        assert_eq!(rt; trap.text(), *text);
    }
}

#[test]
fn message(rt: HostRuntime) -> Result<(), Fail> {
    let message = String::from_str(rt.alloc(), "no cycles")?;
    let explicit = Trap::Explicit(Text { items: message });
    assert_eq!(rt; explicit.text(), "no cycles");
    Ok(())
}
