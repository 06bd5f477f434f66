// Comparisons. They borrow the module: a test that owns one and asserts is long to prove.
use crate::tables;
use crate::tables::EntryRow;
use std::alloc::Global;
use std::process::Abort;
use std::test::*;
use wm_decode::decode;
use wm_valid::system_api::SystemCall;
use wm_valid::{Valid, validate};

/// The module of these bytes. With one exit for each result there is less to prove than with `?`,
/// where whatever is owned is dropped at each.
fn valid_of(alloc: Global, bytes: &[u8]) -> Result<Valid, Fail> {
    match decode(alloc, bytes) {
        Ok(module) => Ok(validate(alloc, module).map_err(|refused| refused.fault)?),
        Err(fault) => Err(Fail::from(fault)),
    }
}

fn compare_entries(rt: &impl Abort, valid: &Valid, rows: &[EntryRow]) {
    for (kind, name, function) in rows {
        assert_eq!(rt; valid.entry(*kind, name), *function, "{kind:?} {name}");
    }
}

/// How many parameters the function has, if there is one.
fn params(valid: &Valid, function: u32) -> Option<u32> {
    Some(valid.code(function)?.frame.params)
}

fn compare_relay(rt: &impl Abort, valid: &Valid) {
    compare_entries(rt, valid, tables::relay_entries());
    assert_eq!(rt;
        (valid.system_call(3), valid.system_call(10)),
        (Some(SystemCall::MsgReply), None)
    );
    // of the reply's callback, and of no function
    assert_eq!(rt; (params(valid, 1), params(valid, 3)), (Some(1), None));
    assert_eq!(rt; valid.module().imports.items.len(), 10);
}

/// Looks at the relay module, or else at the one with six functions. The module is owned here alone.
pub fn compare_module<R: Abort + AllocGlobal>(
    rt: &R,
    bytes: &[u8],
    is_relay: bool,
) -> Result<(), Fail> {
    match valid_of(rt.alloc(), bytes) {
        Ok(valid) => {
            if is_relay {
                compare_relay(rt, &valid);
            } else {
                compare_entries(rt, &valid, tables::entry_points());
            }
            Ok(())
        }
        Err(fault) => Err(fault),
    }
}
