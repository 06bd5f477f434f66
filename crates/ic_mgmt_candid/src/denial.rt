ghost use Rattle.std.specs.Prelude.{◌≡◌, IfOk};
ghost use Rattle.ic_mgmt_candid.specs.Denials.{code_of, text_of, denies};
ghost use Rattle.ic_mgmt_candid.specs.declared.denial.Unmet.TheVariants.{Denied as IsDenied, NoMemory as OutOfMemory};

use crate::cause::Cause;
use ic_base::NoMemory;
use ic_behaviour::{InstallFault, Response};
use ic_principal::{Principal, Text};
use std::alloc::{AllocError, AllocFailed, Global};

const DESTINATION_INVALID: u32 = 3;

const CANISTER_ERROR: u32 = 5;

/// Why a call to the management canister is refused. The first five are tried in this order for
/// every method.
#[derive(Debug, Drop)]
pub enum Denial {
    /// The management canister has no method of that name.
    NoMethod,
    /// A user called a method that only canisters may call.
    OnlyForCanisters,
    /// The argument does not decode at the method's type.
    NotDecoded,
    /// No canister has the id that the argument names.
    NoCanister(Principal),
    /// The sender is no controller of the canister.
    NotController,
    /// More than ten controllers are listed, counted with repeats.
    TooManyControllers,
    /// There are 64 canisters, or no canister id is left.
    TooManyCanisters,
    /// More than 2^127-1 cycles would have been created.
    TooManyCycles,
    /// The bytes are no module that is installed here.
    ModuleRefused(Cause),
    /// The canister has code, and the mode is `install`.
    HasModule,
    /// The canister has no code, and the mode is `upgrade`.
    NoModule,
    /// The code is not installed.
    NotInstalled(InstallFault),
    /// The canister to be deleted is running or stopping.
    NotStopped,
}

impl Denial {
    /// The reject code (IC Interface Specification, "Reject codes"): destination invalid, or
    /// canister error.
    pub fn code(&self) -> u32
        ensures { result ≡ code_of self.now }
    {
        match self {
            Denial::NoCanister(_) => DESTINATION_INVALID,
            _ => CANISTER_ERROR,
        }
    }

    /// The text that the caller is told.
    #[tactic(auto, unfolding(crate::specs::Denials::text_of))]
    pub fn text(&self, alloc: Global) -> Result<Text, NoMemory>
        ensures { IfOk result (λ text. text ≡ text_of self.now) }
    {
        let text = match self {
            Denial::NoMethod => "no such management method",
            Denial::OnlyForCanisters => "only for canisters",
            Denial::NotDecoded => "argument not decoded",
            Denial::NoCanister(id) => {
                return Ok(Text {
                    items: format!(in alloc; "no canister {id}")?,
                });
            }
            Denial::NotController => "not a controller",
            Denial::TooManyControllers => "too many controllers",
            Denial::TooManyCanisters => "too many canisters",
            Denial::TooManyCycles => "too many cycles",
            Denial::ModuleRefused(cause) => return cause.text(alloc),
            Denial::HasModule => "canister has a module",
            Denial::NoModule => "canister has no module",
            Denial::NotInstalled(InstallFault::Segment) => "segment out of bounds",
            Denial::NotInstalled(InstallFault::Trapped(trap)) => {
                let trap = trap.text();
                return Ok(Text {
                    items: format!(in alloc; "install trapped: {trap}")?,
                });
            }
            Denial::NotStopped => "canister is not stopped",
        };
        Ok(Text {
            items: String::from_str(alloc, text)?,
        })
    }

    /// The answer to the call that is refused.
    pub fn response(&self, alloc: Global) -> Result<Response, NoMemory>
        ensures { IfOk result (λ response. response ≡ denies self.now) }
    {
        Ok(Response::Reject {
            code: self.code(),
            message: self.text(alloc)?,
        })
    }
}

/// Why a demand is not met: it is denied, or memory ran out.
#[derive(Debug, Drop)]
pub enum Unmet {
    Denied(Denial),
    NoMemory,
}

impl From<Denial> for Unmet {
    ghost from_gives = { λ denial e. e ≡ IsDenied denial };

    fn from(denial: Denial) -> Unmet {
        Unmet::Denied(denial)
    }
}

impl From<AllocError> for Unmet {
    ghost from_gives = { λ _ e. e ≡ OutOfMemory };

    fn from(_e: AllocError) -> Unmet {
        Unmet::NoMemory
    }
}

impl<T: Drop> From<AllocFailed<T>> for Unmet {
    ghost from_gives = { λ _ e. e ≡ OutOfMemory };

    fn from(_e: AllocFailed<T>) -> Unmet {
        Unmet::NoMemory
    }
}
