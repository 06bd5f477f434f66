ghost use Rattle.std.specs.Prelude.{◌≡◌, ◌∷◌, [], ◌<◌, length, true, IfOk};
ghost use Rattle.cd_types.specs.IsTable.{is_table};
ghost use Rattle.cd_types.specs.declared.entry.TyRef.TheVariants.{Index};
ghost use Rattle.cd_types.specs.declared.entry.Entry.TheVariants.{Rec, Var};
ghost use Rattle.ic_mgmt_candid.specs.Types.{settings_entries, canister_type, create_type, provisional_create_type, top_up_type, update_type, install_type, status_type};
ghost use Rattle.ic_mgmt_candid.specs.Demands.{type_of};

use crate::ids::{
    AMOUNT, ARG, CANISTER_ID, CONTROLLERS, CYCLES, INSTALL, MEMORY_SIZE, MODE, MODULE_HASH,
    REINSTALL, RUNNING, SETTINGS, SKIP_PRE_UPGRADE, STATUS, STOPPED, STOPPING, UPGRADE,
    WASM_MODULE,
};
use crate::method::Method;
use cd_codec::Expected;
use cd_types::{Entry, Fields, Prim, TyRef, TypeTable};
use ic_base::NoMemory;
use std::alloc::Global;

const NULL: TyRef = TyRef::Prim(Prim::Null);

const NAT: TyRef = TyRef::Prim(Prim::Nat);

const PRINCIPAL: TyRef = TyRef::Prim(Prim::Principal);

/// One argument, whose type is the entry of this number.
fn expected(alloc: Global, entries: Vec<Entry>, index: u32) -> Result<Expected, NoMemory>
    requires table { is_table entries.items ≡ true }
    requires inside { index < length entries.items }
    ensures { IfOk result (λ e. e ≡ (entries.items, Index index ∷ [])) }
{
    let types = Vec::from_slice(alloc, &[TyRef::Index(index)])?;
    match TypeTable::new(entries) {
        Ok(table) => Ok(Expected::of(table, types)),
        Err(_) => unreachable!(),
    }
}

fn record(alloc: Global, fields: &[(u32, TyRef)]) -> Result<Entry, NoMemory>
    ensures { IfOk result (λ entry. entry ≡ Rec fields.now) }
{
    Ok(Entry::Rec(Fields {
        items: Vec::from_slice(alloc, fields)?,
    }))
}

fn variant(alloc: Global, cases: &[(u32, TyRef)]) -> Result<Entry, NoMemory>
    ensures { IfOk result (λ entry. entry ≡ Var cases.now) }
{
    Ok(Entry::Var(Fields {
        items: Vec::from_slice(alloc, cases)?,
    }))
}

#[tactic(auto, unfolding(crate::specs::Types::canister_type))]
pub(crate) fn canister_type(alloc: Global) -> Result<Expected, NoMemory>
    ensures { IfOk result (λ e. e ≡ canister_type) }
{
    let mut entries = Vec::new(alloc);
    entries.push(record(alloc, &[(CANISTER_ID, PRINCIPAL)])?)?;
    expected(alloc, entries, 0)
}

/// The entries of the type of settings, which is the last one.
fn settings_entries(alloc: Global) -> Result<Vec<Entry>, NoMemory>
    ensures { IfOk result (λ entries. entries.items ≡ settings_entries) }
{
    let mut entries = Vec::new(alloc);
    entries.push(Entry::Seq(PRINCIPAL))?;
    entries.push(Entry::Opt(TyRef::Index(0)))?;
    entries.push(record(alloc, &[(CONTROLLERS, TyRef::Index(1))])?)?;
    Ok(entries)
}

#[tactic(auto, unfolding(crate::specs::Types::create_type))]
fn create_type(alloc: Global) -> Result<Expected, NoMemory>
    ensures { IfOk result (λ e. e ≡ create_type) }
{
    let mut entries = settings_entries(alloc)?;
    entries.push(Entry::Opt(TyRef::Index(2)))?;
    entries.push(record(alloc, &[(SETTINGS, TyRef::Index(3))])?)?;
    expected(alloc, entries, 4)
}

#[tactic(auto, unfolding(crate::specs::Types::provisional_create_type))]
fn provisional_create_type(alloc: Global) -> Result<Expected, NoMemory>
    ensures { IfOk result (λ e. e ≡ provisional_create_type) }
{
    let mut entries = settings_entries(alloc)?;
    entries.push(Entry::Opt(TyRef::Index(2)))?;
    entries.push(Entry::Opt(NAT))?;
    entries.push(record(
        alloc,
        &[(SETTINGS, TyRef::Index(3)), (AMOUNT, TyRef::Index(4))],
    )?)?;
    expected(alloc, entries, 5)
}

#[tactic(auto, unfolding(crate::specs::Types::top_up_type))]
fn top_up_type(alloc: Global) -> Result<Expected, NoMemory>
    ensures { IfOk result (λ e. e ≡ top_up_type) }
{
    let mut entries = Vec::new(alloc);
    entries.push(record(alloc, &[(CANISTER_ID, PRINCIPAL), (AMOUNT, NAT)])?)?;
    expected(alloc, entries, 0)
}

#[tactic(auto, unfolding(crate::specs::Types::update_type))]
fn update_type(alloc: Global) -> Result<Expected, NoMemory>
    ensures { IfOk result (λ e. e ≡ update_type) }
{
    let mut entries = settings_entries(alloc)?;
    entries.push(record(
        alloc,
        &[(CANISTER_ID, PRINCIPAL), (SETTINGS, TyRef::Index(2))],
    )?)?;
    expected(alloc, entries, 3)
}

#[tactic(auto, unfolding(crate::specs::Types::install_type))]
fn install_type(alloc: Global) -> Result<Expected, NoMemory>
    ensures { IfOk result (λ e. e ≡ install_type) }
{
    let mut entries = Vec::new(alloc);
    entries.push(Entry::Opt(TyRef::Prim(Prim::Bool)))?;
    entries.push(record(alloc, &[(SKIP_PRE_UPGRADE, TyRef::Index(0))])?)?;
    entries.push(Entry::Opt(TyRef::Index(1)))?;
    entries.push(variant(
        alloc,
        &[
            (REINSTALL, NULL),
            (UPGRADE, TyRef::Index(2)),
            (INSTALL, NULL),
        ],
    )?)?;
    entries.push(Entry::Seq(TyRef::Prim(Prim::Nat8)))?;
    entries.push(record(
        alloc,
        &[
            (ARG, TyRef::Index(4)),
            (WASM_MODULE, TyRef::Index(4)),
            (MODE, TyRef::Index(3)),
            (CANISTER_ID, PRINCIPAL),
        ],
    )?)?;
    expected(alloc, entries, 5)
}

/// The type of what `canister_status` replies.
#[tactic(auto, unfolding(crate::specs::Types::status_type))]
pub(crate) fn status_type(alloc: Global) -> Result<Expected, NoMemory>
    ensures { IfOk result (λ e. e ≡ status_type) }
{
    let mut entries = Vec::new(alloc);
    entries.push(Entry::Seq(PRINCIPAL))?;
    entries.push(record(alloc, &[(CONTROLLERS, TyRef::Index(0))])?)?;
    entries.push(Entry::Seq(TyRef::Prim(Prim::Nat8)))?;
    entries.push(Entry::Opt(TyRef::Index(2)))?;
    entries.push(variant(alloc, &[(STOPPED, NULL), (STOPPING, NULL), (RUNNING, NULL)])?)?;
    entries.push(record(
        alloc,
        &[
            (STATUS, TyRef::Index(4)),
            (MEMORY_SIZE, NAT),
            (CYCLES, NAT),
            (SETTINGS, TyRef::Index(1)),
            (MODULE_HASH, TyRef::Index(3)),
        ],
    )?)?;
    expected(alloc, entries, 5)
}

/// The type of a method's argument.
pub(crate) fn type_of(alloc: Global, method: Method) -> Result<Expected, NoMemory>
    ensures { IfOk result (λ e. e ≡ type_of method) }
{
    match method {
        Method::CreateCanister => create_type(alloc),
        Method::ProvisionalCreateCanisterWithCycles => provisional_create_type(alloc),
        Method::ProvisionalTopUpCanister => top_up_type(alloc),
        Method::UpdateSettings => update_type(alloc),
        Method::InstallCode => install_type(alloc),
        Method::DepositCycles
        | Method::UninstallCode
        | Method::StartCanister
        | Method::StopCanister
        | Method::DeleteCanister
        | Method::CanisterStatus => canister_type(alloc),
    }
}
