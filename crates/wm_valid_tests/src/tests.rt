use crate::answers::relay_written;
use crate::comparing::*;
use crate::tables;
use std::test::*;

// Of each kind of entry point its function, and of methods those of the name.
#[test]
fn valid_modules(rt: HostRuntime) -> Result<(), Fail> {
    compare_module(&rt, tables::six_functions(), false)?;
    let relay = relay_written(rt.alloc())?;
    compare_module(&rt, &relay.items, true)
}
