//! The types that a method takes and gives, by an interface file.

ghost use Rattle.std.specs.Prelude.{◌≡◌, length, true};
ghost use Rattle.std.specs.List.{list_all};
ghost use Rattle.cd_types.specs.IsInside.{is_inside};

use anyhow::{Context, anyhow, bail, ensure};
use cd_codec::Expected;
use cd_did::{Interface, read_interface};
use cd_part::part_of;
use cd_types::{TyRef, TypeTable};
use std::alloc::Global;

/// The interface that a file says.
pub fn interface_of(alloc: Global, file: &str) -> anyhow::Result<Interface> {
    ensure!(file.len() < 4_294_967_296, "the file is too long");
    match read_interface(alloc, file.as_bytes()) {
        Ok(interface) => Ok(interface),
        Err(fault) => Err(anyhow!("{fault:?}")),
    }
}

/// What a method takes, or what it gives.
#[derive(Clone, Copy)]
pub enum Side {
    Arguments,
    Results,
}

/// The types, with the part of the table that they need.
fn expected_at(alloc: Global, table: &TypeTable, types: &[TyRef]) -> anyhow::Result<Expected>
    requires { list_all (is_inside (length table.now)) types.now ≡ true }
{
    ensure!(types.len() <= 10_000, "more than 10,000 types");
    part_of(alloc, table, types).context("out of memory")
}

/// The types of one side of a method, as what values are read at.
pub fn expected_of(
    alloc: Global,
    interface: &Interface,
    method: &str,
    side: Side,
) -> anyhow::Result<Expected> {
    let Some(function) = interface.method(method) else {
        bail!("there is no method {method}");
    };
    match side {
        Side::Arguments => expected_at(alloc, &interface.table, function.args),
        Side::Results => expected_at(alloc, &interface.table, function.results),
    }
}
