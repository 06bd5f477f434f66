ghost use Rattle.std.specs.Prelude.{◌≡◌};
ghost use Rattle.std.specs.List.{list_any};
ghost use Rattle.std.specs.Str.{bytes_eq};
ghost use Rattle.std.specs.Option.{option_copied};
ghost use Rattle.ic_mgmt_candid.specs.declared.denial.Denial.TheVariants.{NotController};
ghost use Rattle.ic_mgmt_candid.specs.Checks.{Meets, unless, is_canisters, is_controller, may, who, target, demanded};

use crate::demand::{Demand, Who};
use crate::denial::{Denial, Unmet};
use crate::method::Method;
use crate::reading::demand_of;
use ic_behaviour::{Controllers, Origin};
use ic_principal::Principal;
use std::alloc::Global;

/// Nothing, where the test holds; else the call is refused.
pub fn unless(holds: bool, denial: Denial) -> Result<(), Denial>
    ensures { result ≡ unless holds denial }
{
    if holds { Ok(()) } else { Err(denial) }
}

fn is_canisters(origin: &Origin) -> bool
    ensures { result ≡ is_canisters origin.now }
{
    match origin {
        Origin::Ingress(_) => false,
        Origin::Canister { .. } => true,
    }
}

fn is_among(controllers: &Controllers, sender: &Principal) -> bool
    ensures { result ≡ list_any (bytes_eq sender.now) controllers.now }
{
    controllers.items.iter().any(|other| sender == other)
}

fn is_controller(sender: &Principal, controllers: Option<&Controllers>) -> bool
    ensures { result ≡ is_controller sender.now (option_copied controllers.entry) }
{
    match controllers {
        Some(controllers) => is_among(controllers, sender),
        None => false,
    }
}

/// Whether the sender may make a demand for a canister, where it is for one, that has these
/// controllers.
fn may(
    who: Who,
    sender: &Principal,
    target: Option<Principal>,
    controllers: Option<&Controllers>,
) -> bool
    ensures { result ≡ may who sender.now target (option_copied controllers.entry) }
{
    match who {
        Who::All => true,
        Who::Controllers => is_controller(sender, controllers),
        Who::ControllersAndItself => {
            is_controller(sender, controllers) || target == Some(*sender)
        }
    }
}

/// What a call to the management canister demands, by its origin, its method and its argument.
pub fn demanded(alloc: Global, origin: &Origin, method: &str, arg: &[u8]) -> Result<Demand, Unmet>
    ensures { Meets result (demanded origin.now method.now arg.now) }
{
    let Some(method) = Method::of_name(method) else {
        return Err(Unmet::Denied(Denial::NoMethod));
    };
    unless(
        is_canisters(origin) || !method.is_only_for_canisters(),
        Denial::OnlyForCanisters,
    )?;
    match demand_of(alloc, method, arg)? {
        Some(demand) => Ok(demand),
        None => Err(Unmet::Denied(Denial::NotDecoded)),
    }
}

/// Whether the sender may make the demand. `controllers` are those of the canister that it is for,
/// where it is for one.
pub fn permitted(
    demand: &Demand,
    sender: &Principal,
    controllers: Option<&Controllers>,
) -> Result<(), Denial>
    ensures { result ≡ unless (may (who demand.now) sender.now (target demand.now) (option_copied controllers.entry)) NotController }
{
    unless(
        may(demand.who(), sender, demand.target(), controllers),
        Denial::NotController,
    )
}
