ghost use Rattle.std.specs.Prelude.{◌≡◌, ◌++◌, ◌∷◌, [], IfOk, OnOk};
ghost use Rattle.ct_run.specs.Statements.{first_names, principal_named};

use ct_outcomes::{Named, Standing};
use ic_base::NoMemory;
use ic_principal::{Bytes, Principal};
use std::alloc::Global;
use std::marker::Model;

/// What names stand for, in the order of their slots. Contracts see the list.
pub struct Names {
    pub items: Vec<Named>,
}

impl Drop for Names {
    fn drop(self) {
        let Names { items: _items } = self;
    }
}

impl Model for Names {
    ghost use Rattle.std.specs.Prelude.{List};
    ghost use Rattle.ct_outcomes.specs.declared.named.Named.{Named};

    ghost Value = { List Named };

    ghost view = { λ n. n.items.items };
}

// Who sends where a statement names nobody.
fn anonymous() -> Principal
    ensures { result ≡ 4 ∷ [] }
{
    match Principal::from_bytes(&[4]) {
        Ok(principal) => principal,
        Err(_) => unreachable!(),
    }
}

// The management canister.
fn management() -> Principal
    ensures { result ≡ [] }
{
    match Principal::from_bytes(&[]) {
        Ok(principal) => principal,
        Err(_) => unreachable!(),
    }
}

impl Names {
    /// The names that are there from the start.
    pub fn start(alloc: Global) -> Result<Names, NoMemory>
        ensures { IfOk result (λ names. names ≡ first_names) }
    {
        let mut names = Names {
            items: Vec::new(alloc),
        };
        names.bind(alloc, b"anonymous", anonymous())?;
        names.bind(alloc, b"ic", management())?;
        Ok(names)
    }

    /// Binds a name to a principal, in the next slot.
    pub fn bind(&mut self, alloc: Global, name: &[u8], id: Principal) -> Result<(), NoMemory>
        ensures { OnOk result (self.new ≡ self.old ++ principal_named name.now id ∷ []) }
    {
        let name = Bytes {
            items: Vec::from_slice(alloc, name)?,
        };
        let standing = Standing::Principal(id);
        self.items.push(Named { name, standing })?;
        Ok(())
    }
}
