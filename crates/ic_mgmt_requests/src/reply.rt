ghost use Rattle.std.specs.Prelude.{◌≡◌, IfOk};
ghost use Rattle.ic_mgmt_requests.specs.Requests.{canister_named};

use ic_base::NoMemory;
use ic_mgmt_candid::{Method, demand_of};
use ic_principal::{Bytes, Principal};
use std::alloc::Global;

/// The canister that a reply names, if it is a record with one. It has the type of an argument that names a canister.
#[tactic(auto, using(crate::proofs::Named::none_named, crate::proofs::Named::one_named))]
pub fn canister_named(alloc: Global, reply: &Bytes) -> Result<Option<Principal>, NoMemory>
    ensures { IfOk result (λ found. found ≡ canister_named reply.now) }
{
    match demand_of(alloc, Method::StartCanister, &reply.items)? {
        None => Ok(None),
        Some(demand) => Ok(demand.target()),
    }
}
