ghost use Rattle.std.specs.Prelude.{◌≡◌, IfOk};
ghost use Rattle.ic_mgmt_candid.specs.Denials.{cause_text};

use ic_base::NoMemory;
use ic_principal::Text;
use std::alloc::{AllocError, Global};
use wm_decode::ModuleFault;
use wm_valid::Invalid;

/// Why bytes are no module that is installed. That memory ran out is never a cause.
#[derive(Clone, Copy, Debug)]
pub enum Cause {
    /// The bytes are not read as a module.
    Undecoded(ModuleFault),
    /// The module is not valid.
    Unchecked(Invalid),
}

impl Cause {
    /// The text that the caller is told.
    #[tactic(auto, unfolding(crate::specs::Denials::cause_text))]
    pub fn text(&self, alloc: Global) -> Result<Text, NoMemory>
        ensures { IfOk result (λ text. text ≡ cause_text self.now) }
    {
        let items = match self {
            Cause::Undecoded(ModuleFault::TooLarge) => String::from_str(
                alloc,
                "module refused: TooLarge",
            )?,
            Cause::Undecoded(ModuleFault::Compressed) => String::from_str(
                alloc,
                "module refused: Compressed",
            )?,
            Cause::Undecoded(ModuleFault::Float) => String::from_str(
                alloc,
                "module refused: Float",
            )?,
            Cause::Undecoded(ModuleFault::NotModule) => String::from_str(
                alloc,
                "module refused: NotModule",
            )?,
            Cause::Unchecked(Invalid::Import { number }) => format!(in alloc;
                "module refused: Import {number}"
            )?,
            Cause::Unchecked(Invalid::Index { section }) => format!(in alloc;
                "module refused: Index {section}"
            )?,
            Cause::Unchecked(Invalid::Size { section }) => format!(in alloc;
                "module refused: Size {section}"
            )?,
            Cause::Unchecked(Invalid::Entry { export }) => format!(in alloc;
                "module refused: Entry {export}"
            )?,
            Cause::Unchecked(Invalid::Nesting { function }) => format!(in alloc;
                "module refused: Nesting {function}"
            )?,
            Cause::Unchecked(Invalid::Untyped { function }) => format!(in alloc;
                "module refused: Untyped {function}"
            )?,
            Cause::Undecoded(ModuleFault::NoMemory) => return Err(AllocError),
            Cause::Unchecked(Invalid::NoMemory) => return Err(AllocError),
        };
        Ok(Text { items })
    }
}
