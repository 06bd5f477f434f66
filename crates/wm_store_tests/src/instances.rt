ghost use Rattle.wm_tree.specs.IsModule.{IsModule};

mod rows;

use crate::calls::{check_growths, check_lists, check_sizes};
use ic_base::NoMemory;
use std::alloc::Global;
use std::process::Abort;
use std::test::*;
use wm_decode::decode;
use wm_encode::relay_fits;
use wm_instance::{InstanceFault, instantiate};
use wm_store::Store;
use wm_tree::Module;
use wm_tree::samples::relay;
use wm_valid::validate;

/// The bytes of a module with these sections.
fn bytes_of(alloc: Global, sections: &[&[u8]]) -> Result<Vec<u8>, NoMemory> {
    let mut bytes = Vec::from_slice(alloc, b"\x00asm\x01\x00\x00\x00")?;
    for section in sections {
        bytes.extend_from_slice(section)?;
    }
    Ok(bytes)
}

fn instance_of(alloc: Global, module: Module) -> Result<Result<Store, InstanceFault>, Fail>
    requires { IsModule «module» }
{
    let valid = validate(alloc, module).map_err(|refused| refused.fault)?;
    Ok(instantiate(alloc, &valid))
}

fn instance_with(alloc: Global, sections: &[&[u8]]) -> Result<Result<Store, InstanceFault>, Fail> {
    let bytes = bytes_of(alloc, sections)?;
    let module = decode(alloc, &bytes)?;
    instance_of(alloc, module)
}

// ---- whole stores

/// The eight bytes of memory from a place on.
fn bytes_from(store: &Store, at: u64) -> Option<[u8; 8]> {
    let mut bytes = [0; 8];
    store.copy_out(at, &mut bytes)?;
    Some(bytes)
}

fn check_bytes(rt: &impl Abort, store: &Store, at: u64, expected: &[u8; 8]) {
    assert_eq!(rt; bytes_from(store, at), Some(*expected));
}

fn check_whole(rt: &impl Abort, store: &mut Store) -> Result<(), Fail> {
    let globals = [0xFFFF_FFFF, 0xFFFF_FFFF_FFFF_FFFE, 7];
    check_lists(rt, store, &globals, &[None, Some(0), Some(1), None]);
    check_sizes(rt, store, [1, 0, 0]);
    check_bytes(rt, store, 7, b"\x00abwxyz\x00");
    check_growths(rt, store, [2, 1, 1], [None, Some(1), None])?;
    Ok(())
}

// The later segment wins, constants have no sign, and the declared maximum is kept.
#[test]
fn whole_store(rt: HostRuntime) -> Result<(), Fail> {
    let mut store = instance_with(rt.alloc(), rows::whole())??;
    check_whole(&rt, &mut store)
}

fn check_relay(rt: &impl Abort, store: &mut Store) -> Result<(), Fail> {
    check_lists(rt, store, &[], &[Some(11), Some(12)]);
    check_sizes(rt, store, [1, 0, 0]);
    check_bytes(rt, store, 0, b"relay\x00\x00\x00");
    check_growths(rt, store, [256, 255, 1], [None, Some(1), None])?;
    Ok(())
}

// It declares no maximum.
#[test]
fn relay_sample(rt: HostRuntime) -> Result<(), Fail> {
    let module = relay(rt.alloc())?;
    relay_fits();
    let mut store = instance_of(rt.alloc(), module)??;
    check_relay(&rt, &mut store)
}
