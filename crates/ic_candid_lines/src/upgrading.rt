ghost use Rattle.std.specs.Prelude.{◌≡◌, ◌<◌, ◌^◌, length, Ok, IfOk, IsTrue};
ghost use Rattle.cd_did.specs.Interfaces.{has_service};
ghost use Rattle.cd_did.specs.InterfaceOf.{interface_in};
ghost use Rattle.ic_candid_lines.specs.Upgrading.{lack_name, served, upgrades, verdict_text, bad_text, upgrade_to_text, upgrade_text};

use cd_did::{DidFault, Interface, read_interface, upgradable};
use cd_sub::laws::decided;
use ic_base::NoMemory;
use ic_principal::Bytes;
use std::alloc::{AllocError, Global};

/// What an interface file lacks, so that no upgrade from it or to it is judged: it has one of
/// `DidFault`'s faults, or no service.
#[derive(Clone, Copy, Debug, PartialEq, Eq)]
pub enum Lack {
    NotInterface,
    Float,
    Repeated,
    Unbound,
    Vacuous,
    Shape,
    TooMany,
    NoService,
}

/// What is printed for an upgrade from one interface file to another.
#[tactic(auto, unfolding(crate::specs::Upgrading::upgrade_text))]
pub fn upgrade_text(alloc: Global, from: &[u8], to: &[u8]) -> Result<Bytes, NoMemory>
    requires from { length from.now < 2 ^ 32 }
    requires to { length to.now < 2 ^ 32 }
    ensures { IfOk result (λ text. text ≡ upgrade_text from.now to.now) }
{
    match served(alloc, from)? {
        Ok(old) => upgrade_to_text(alloc, &old, to),
        Err(lack) => bad_text(alloc, "old", lack),
    }
}

// For an old interface and the new file.
fn upgrade_to_text(alloc: Global, old: &Interface, to: &[u8]) -> Result<Bytes, NoMemory>
    requires service { IsTrue (has_service old.now) }
    requires to { length to.now < 2 ^ 32 }
    ensures { IfOk result (λ text. text ≡ upgrade_to_text old.now (served (interface_in to.now))) }
{
    match served(alloc, to)? {
        Ok(new) => compared_text(alloc, old, &new),
        Err(lack) => bad_text(alloc, "new", lack),
    }
}

// The interface that a text says, if it has a service.
fn served(alloc: Global, text: &[u8]) -> Result<Result<Interface, Lack>, NoMemory>
    requires { length text.now < 2 ^ 32 }
    ensures said { IfOk result (λ said. said ≡ served (interface_in text.now)) }
    ensures service { IfOk result (λ said. IfOk said (λ interface. IsTrue (has_service interface))) }
{
    match read_interface(alloc, text) {
        Ok(interface) => Ok(with_service(interface)),
        Err(DidFault::NotInterface) => Ok(Err(Lack::NotInterface)),
        Err(DidFault::Float) => Ok(Err(Lack::Float)),
        Err(DidFault::Repeated { .. }) => Ok(Err(Lack::Repeated)),
        Err(DidFault::Unbound) => Ok(Err(Lack::Unbound)),
        Err(DidFault::Vacuous { .. }) => Ok(Err(Lack::Vacuous)),
        Err(DidFault::Shape) => Ok(Err(Lack::Shape)),
        Err(DidFault::TooMany) => Ok(Err(Lack::TooMany)),
        Err(DidFault::NoMemory) => Err(AllocError),
    }
}

fn with_service(interface: Interface) -> Result<Interface, Lack>
    ensures said { result ≡ served (Ok interface) }
    ensures service { IfOk result (λ interface. IsTrue (has_service interface)) }
{
    if interface.has_service() {
        Ok(interface)
    } else {
        Err(Lack::NoService)
    }
}

fn compared_text(alloc: Global, old: &Interface, new: &Interface) -> Result<Bytes, NoMemory>
    requires old { IsTrue (has_service old.now) }
    requires new { IsTrue (has_service new.now) }
    ensures { IfOk result (λ text. text ≡ verdict_text (upgrades old.now new.now)) }
{
    let yes = upgrades(alloc, old, new)?;
    verdict_text(alloc, yes)
}

fn upgrades(alloc: Global, old: &Interface, new: &Interface) -> Result<bool, NoMemory>
    requires old { IsTrue (has_service old.now) }
    requires new { IsTrue (has_service new.now) }
    ensures { IfOk result (λ yes. yes ≡ upgrades old.now new.now) }
{
    decided();
    upgradable(alloc, old, new)
}

#[tactic(auto, unfolding(crate::specs::Upgrading::verdict_text))]
fn verdict_text(alloc: Global, yes: bool) -> Result<Bytes, NoMemory>
    ensures { IfOk result (λ text. text ≡ verdict_text yes) }
{
    let text = if yes {
        String::from_str(alloc, "upgradable yes\n")?
    } else {
        String::from_str(alloc, "upgradable no\n")?
    };
    Ok(Bytes {
        items: text.into_bytes(),
    })
}

#[tactic(auto, unfolding(crate::specs::Upgrading::bad_text))]
fn bad_text(alloc: Global, which: &str, lack: Lack) -> Result<Bytes, NoMemory>
    ensures { IfOk result (λ text. text ≡ bad_text which.now lack) }
{
    let name = lack_name(lack);
    Ok(Bytes {
        items: format!(in alloc; "bad interface {which} {name}\n")?.into_bytes(),
    })
}

#[tactic(auto, unfolding(crate::specs::Upgrading::lack_name))]
fn lack_name(lack: Lack) -> &'static str
    ensures { result.now ≡ lack_name lack }
{
    match lack {
        Lack::NotInterface => "NotInterface",
        Lack::Float => "Float",
        Lack::Repeated => "Repeated",
        Lack::Unbound => "Unbound",
        Lack::Vacuous => "Vacuous",
        Lack::Shape => "Shape",
        Lack::TooMany => "TooMany",
        Lack::NoService => "NoService",
    }
}
