ghost use Rattle.std.specs.Prelude.{◌≡◌, ◌++◌, map, OnOk};
ghost use Rattle.cd_types.specs.References.{references};
ghost use Rattle.cd_types.specs.declared.entry.TyRef.{TyRef};

use cd_types::{Entry, TyRef};
use ic_base::{NoMemory, Stack};
use ic_principal::Text;

/// What the lists of an entry have: a type, or a label with its type.
trait Part {
    /// Its type.
    ghost type_of: { Self → TyRef };

    fn ty(&self) -> TyRef
        ensures { result ≡ type_of self.now };
}

impl Part for TyRef {
    ghost type_of = { λ type. type };

    fn ty(&self) -> TyRef {
        *self
    }
}

impl Part for (u32, TyRef) {
    ghost type_of = { λ field. field.1 };

    fn ty(&self) -> TyRef {
        self.1
    }
}

impl Part for (Text, TyRef) {
    ghost type_of = { λ method. method.1 };

    fn ty(&self) -> TyRef {
        self.1
    }
}

fn push_each<T: Part>(parts: &[T], todo: &mut Stack<TyRef>) -> Result<(), NoMemory>
    ensures { OnOk result (todo.new ≡ map T.type_of parts.now ++ todo.old) }
{
    for place in (0..parts.len()).rev() {
        todo.push(parts[place].ty())?;
    }
    Ok(())
}

/// Puts types on the stack, the first on top.
pub(crate) fn push_types(types: &[TyRef], todo: &mut Stack<TyRef>) -> Result<(), NoMemory>
    ensures { OnOk result (todo.new ≡ types.now ++ todo.old) }
{
    push_each(types, todo)
}

/// Puts the parts of an entry on the stack, the leftmost on top.
pub(crate) fn push_parts(entry: &Entry, todo: &mut Stack<TyRef>) -> Result<(), NoMemory>
    ensures { OnOk result (todo.new ≡ references entry.now ++ todo.old) }
{
    match entry {
        Entry::Opt(ty) | Entry::Seq(ty) => todo.push(*ty),
        Entry::Rec(fields) | Entry::Var(fields) => push_each(&fields.items, todo),
        Entry::Func { args, results, .. } => {
            push_each(&results.items, todo)?;
            push_each(&args.items, todo)
        }
        Entry::Service(methods) => push_each(&methods.items, todo),
    }
}
