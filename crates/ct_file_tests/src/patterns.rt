use cd_codec::Value;
use cd_tokens::Piece;
use cd_types::{Prim, TyRef};
use ct_patterns::{Step, meet};
use std::alloc::Global;

// How many names are bound where `true` and 5 meet `let a` and a number, or that they do not.
fn met(alloc: Global, number: u128) -> &'static str {
    let values = [Value::Bool(true), Value::Nat(5)];
    let name = Piece { bytes: b"a" };
    let ty = TyRef::Prim(Prim::Bool);
    let pattern = [Step::Bound { name, ty }, Step::Is(Value::Nat(number))];
    match meet(alloc, &pattern, &values) {
        Ok(Some(bindings)) if bindings.items.len() == 1 => "one name",
        Ok(Some(_)) => "other names",
        Ok(None) => "not met",
        Err(_) => "out of memory",
    }
}

#[test]
fn values_meet_a_pattern(rt: HostRuntime) {
    assert_eq!(rt; met(rt.alloc(), 5), "one name");
    assert_eq!(rt; met(rt.alloc(), 6), "not met");
}
