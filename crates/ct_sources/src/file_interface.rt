ghost use Rattle.std.specs.Prelude.{◌≡◌, ◌<◌, ◌^◌, length, IfOk, Ok};
ghost use Rattle.std.specs.Result.{result_ok};
ghost use Rattle.cd_did.specs.InterfaceOf.{interface_in};
ghost use Rattle.ct_sources.specs.IsSourceOf.{served};

use crate::fault::reason;
use cd_did::{DidFault, Interface, read_interface};
use ic_base::NoMemory;
use ic_principal::Text;
use std::alloc::{AllocError, Global};

// An interface that has a service.
fn with_service(alloc: Global, interface: Interface) -> Result<Result<Interface, Text>, NoMemory>
    ensures { IfOk result (λ said. result_ok said ≡ served (Ok interface)) }
{
    if interface.has_service() {
        Ok(Ok(interface))
    } else {
        Ok(Err(reason(alloc, "bad interface: NoService")?))
    }
}

fn read(alloc: Global, text: &[u8]) -> Result<Result<Interface, Text>, NoMemory>
    requires { length text.now < 2 ^ 32 }
    ensures { IfOk result (λ said. result_ok said ≡ served (interface_in text.now)) }
{
    match read_interface(alloc, text) {
        Ok(interface) => with_service(alloc, interface),
        Err(DidFault::NotInterface) => Ok(Err(reason(alloc, "bad interface: NotInterface")?)),
        Err(DidFault::Float) => Ok(Err(reason(alloc, "bad interface: Float")?)),
        Err(DidFault::Repeated { .. }) => Ok(Err(reason(alloc, "bad interface: Repeated")?)),
        Err(DidFault::Unbound) => Ok(Err(reason(alloc, "bad interface: Unbound")?)),
        Err(DidFault::Vacuous { .. }) => Ok(Err(reason(alloc, "bad interface: Vacuous")?)),
        Err(DidFault::Shape) => Ok(Err(reason(alloc, "bad interface: Shape")?)),
        Err(DidFault::TooMany) => Ok(Err(reason(alloc, "bad interface: TooMany")?)),
        Err(DidFault::NoMemory) => Err(AllocError),
    }
}

/// The interface that a text says, which has a service, or why it says none. Memory ends before a
/// text has 2^32 bytes.
pub(crate) fn interface_of(alloc: Global, text: &[u8]) -> Result<Result<Interface, Text>, NoMemory>
    ensures { IfOk result (λ said. result_ok said ≡ served (interface_in text.now)) }
{
    if text.len() < 1 << 32 {
        read(alloc, text)
    } else {
        Err(AllocError)
    }
}
