ghost use Rattle.std.specs.Prelude.{◌≡◌};
ghost use Rattle.cd_types.specs.IsInside.{is_inside};

use crate::primitive::Prim;
use ic_principal::{Bytes, Text};
use std::marker::Model;

/// A reference to a type: a primitive type, or a place in the type table.
#[derive(Clone, Copy, Debug, PartialEq, Eq)]
pub enum TyRef {
    Prim(Prim),
    Index(u32),
}

impl TyRef {
    /// Whether the reference is inside a table of that many entries: a primitive type is inside each.
    pub fn is_inside(self, count: usize) -> bool
        ensures { result ≡ is_inside count self }
    {
        match self {
            TyRef::Prim(_) => true,
            TyRef::Index(index) => (index as usize) < count,
        }
    }
}

/// A list of references. Contracts see the list.
#[derive(Debug, Drop)]
pub struct TyRefs {
    pub items: Vec<TyRef>,
}

impl Model for TyRefs {
    ghost use Rattle.std.specs.Prelude.{List};
    ghost use Rattle.cd_types.specs.declared.entry.TyRef.{TyRef};

    ghost Value = { List TyRef };

    ghost view = { λ t. t.items.items };
}

/// The fields of a record, or the cases of a variant: ids and types. Contracts see the list.
#[derive(Debug, Drop)]
pub struct Fields {
    pub items: Vec<(u32, TyRef)>,
}

impl Model for Fields {
    ghost use Rattle.std.specs.Prelude.{List, ℕ};
    ghost use Rattle.cd_types.specs.declared.entry.TyRef.{TyRef};

    ghost Value = { List (ℕ × TyRef) };

    ghost view = { λ f. f.items.items };
}

/// The methods of a service: names and types. Contracts see the list.
#[derive(Debug, Drop)]
pub struct Methods {
    pub items: Vec<(Text, TyRef)>,
}

impl Model for Methods {
    ghost use Rattle.std.specs.Prelude.{List, ℕ};
    ghost use Rattle.cd_types.specs.declared.entry.TyRef.{TyRef};

    ghost Value = { List (List ℕ × TyRef) };

    ghost view = { λ m. m.items.items };
}

/// An entry of a type table: a type that has parts (Candid specification, "Type Table").
#[derive(Debug, Drop)]
pub enum Entry {
    Opt(TyRef),
    /// `vec`
    Seq(TyRef),
    /// `record`
    Rec(Fields),
    /// `variant`
    Var(Fields),
    /// The notes are the annotations: 1 query, 2 oneway, 3 composite_query.
    Func {
        args: TyRefs,
        results: TyRefs,
        notes: Bytes,
    },
    Service(Methods),
}
