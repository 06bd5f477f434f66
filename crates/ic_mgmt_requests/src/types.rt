ghost use Rattle.std.specs.Prelude.{◌≡◌, ◌∷◌, [], ◌<◌, length, true, IfOk};
ghost use Rattle.cd_types.specs.IsTable.{is_table};
ghost use Rattle.cd_types.specs.declared.entry.TyRef.TheVariants.{Index};
ghost use Rattle.cd_types.specs.declared.entry.Entry.TheVariants.{Rec, Var};
ghost use Rattle.ic_mgmt_requests.specs.Requests.{creation_type, installation_type};

use crate::ids::{
    AMOUNT, ARG, CANISTER_ID, CONTROLLERS, INSTALL, MODE, REINSTALL, SETTINGS, SKIP_PRE_UPGRADE,
    UPGRADE, WASM_MODULE,
};
use cd_codec::Expected;
use cd_types::{Entry, Fields, Prim, TyRef, TypeTable};
use ic_base::NoMemory;
use std::alloc::Global;

const NULL: TyRef = TyRef::Prim(Prim::Null);

// One argument, whose type is the first entry.
fn expected(alloc: Global, entries: Vec<Entry>) -> Result<Expected, NoMemory>
    requires table { is_table entries.items ≡ true }
    requires inside { 0 < length entries.items }
    ensures { IfOk result (λ e. e ≡ (entries.items, Index 0 ∷ [])) }
{
    let types = Vec::from_slice(alloc, &[TyRef::Index(0)])?;
    match TypeTable::new(entries) {
        Ok(table) => Ok(Expected::of(table, types)),
        Err(_) => unreachable!(),
    }
}

fn record(alloc: Global, fields: &[(u32, TyRef)]) -> Result<Entry, NoMemory>
    ensures { IfOk result (λ entry. entry ≡ Rec fields.now) }
{
    Ok(Entry::Rec(Fields {
        items: Vec::from_slice(alloc, fields)?,
    }))
}

fn variant(alloc: Global, cases: &[(u32, TyRef)]) -> Result<Entry, NoMemory>
    ensures { IfOk result (λ entry. entry ≡ Var cases.now) }
{
    Ok(Entry::Var(Fields {
        items: Vec::from_slice(alloc, cases)?,
    }))
}

/// The type of the argument of `provisional_create_canister_with_cycles`.
#[tactic(auto, unfolding(crate::specs::Requests::creation_type))]
pub(crate) fn creation_type(alloc: Global) -> Result<Expected, NoMemory>
    ensures { IfOk result (λ e. e ≡ creation_type) }
{
    let mut entries = Vec::new(alloc);
    entries.push(record(
        alloc,
        &[(SETTINGS, TyRef::Index(1)), (AMOUNT, TyRef::Index(5))],
    )?)?;
    entries.push(Entry::Opt(TyRef::Index(2)))?;
    entries.push(record(alloc, &[(CONTROLLERS, TyRef::Index(3))])?)?;
    entries.push(Entry::Opt(TyRef::Index(4)))?;
    entries.push(Entry::Seq(TyRef::Prim(Prim::Principal)))?;
    entries.push(Entry::Opt(TyRef::Prim(Prim::Nat)))?;
    expected(alloc, entries)
}

/// The type of the argument of `install_code`.
#[tactic(auto, unfolding(crate::specs::Requests::installation_type))]
pub(crate) fn installation_type(alloc: Global) -> Result<Expected, NoMemory>
    ensures { IfOk result (λ e. e ≡ installation_type) }
{
    let mut entries = Vec::new(alloc);
    entries.push(record(
        alloc,
        &[
            (ARG, TyRef::Index(1)),
            (WASM_MODULE, TyRef::Index(2)),
            (MODE, TyRef::Index(3)),
            (CANISTER_ID, TyRef::Prim(Prim::Principal)),
        ],
    )?)?;
    entries.push(Entry::Seq(TyRef::Prim(Prim::Nat8)))?;
    entries.push(Entry::Seq(TyRef::Prim(Prim::Nat8)))?;
    entries.push(variant(
        alloc,
        &[
            (REINSTALL, NULL),
            (UPGRADE, TyRef::Index(4)),
            (INSTALL, NULL),
        ],
    )?)?;
    entries.push(Entry::Opt(TyRef::Index(5)))?;
    entries.push(record(alloc, &[(SKIP_PRE_UPGRADE, TyRef::Index(6))])?)?;
    entries.push(Entry::Opt(TyRef::Prim(Prim::Bool)))?;
    expected(alloc, entries)
}
