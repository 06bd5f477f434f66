use cd_types::{TyRef, TyRefs, TypeTable};

/// Why a text stands for no interface. Of several reasons the first in this order is answered;
/// `definition` is a place among the definitions of the file, counted from 0.
#[derive(Clone, Copy, Debug, PartialEq, Eq)]
pub enum DidFault {
    /// The text is no interface file, or its types nest more than 128 deep.
    NotInterface,
    /// `float32` or `float64` stands as a type.
    Float,
    /// The first definition whose name an earlier one has.
    Repeated { definition: u32 },
    /// A name is used that no definition has.
    Unbound,
    /// The first definition that is a name which leads back to it through names alone.
    Vacuous { definition: u32 },
    /// Two ids of a record or a variant, or two names of methods are equal; or an id is 2^32 or more;
    /// or the type of a method is no function; or the service is no service.
    Shape,
    /// More than 10,000 types with parts are written in the file.
    TooMany,
    NoMemory,
}

/// What an interface file says: its types, each where it is written; its service, if it has one; and
/// the types that the service is installed with, those before its `->`.
#[derive(Drop)]
pub struct Interface {
    pub table: TypeTable,
    pub service: Option<TyRef>,
    pub init: TyRefs,
}
