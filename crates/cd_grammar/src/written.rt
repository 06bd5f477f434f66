use cd_types::Primitive;
use ic_principal::{Bytes, Text};
use std::marker::Model;

/// A type where a part may be.
#[derive(Drop)]
pub enum Part {
    Prim(Primitive),
    /// `float32` or `float64`
    Float,
    /// A name that a definition gives.
    Name(Bytes),
    /// The place of a type among those that are written in the file.
    Place(usize),
}

/// A list of parts. Contracts see the list.
#[derive(Drop)]
pub struct Parts {
    pub items: Vec<Part>,
}

impl Model for Parts {
    ghost use Rattle.std.specs.Prelude.{List};
    ghost use Rattle.cd_grammar.specs.declared.written.Part.{Part};

    ghost Value = { List Part };

    ghost view = { λ p. p.items.items };
}

/// The fields of a record, or the cases of a variant, in the order in which they are written: ids
/// and types. Contracts see the list.
#[derive(Drop)]
pub struct WrittenFields {
    pub items: Vec<(u64, Part)>,
}

impl Model for WrittenFields {
    ghost use Rattle.std.specs.Prelude.{List, ℕ};
    ghost use Rattle.cd_grammar.specs.declared.written.Part.{Part};

    ghost Value = { List (ℕ × Part) };

    ghost view = { λ f. f.items.items };
}

/// The methods of a service, in the order in which they are written: names and types. Contracts
/// see the list.
#[derive(Drop)]
pub struct WrittenMethods {
    pub items: Vec<(Text, Part)>,
}

impl Model for WrittenMethods {
    ghost use Rattle.std.specs.Prelude.{List, ℕ};
    ghost use Rattle.cd_grammar.specs.declared.written.Part.{Part};

    ghost Value = { List (List ℕ × Part) };

    ghost view = { λ m. m.items.items };
}

/// A type with parts, as it is written.
#[derive(Drop)]
pub enum Written {
    Opt(Part),
    /// `vec`
    Seq(Part),
    /// `record`
    Rec(WrittenFields),
    /// `variant`
    Var(WrittenFields),
    /// The notes are the annotations in their order: 1 query, 2 oneway, 3 composite_query.
    Func {
        args: Parts,
        results: Parts,
        notes: Bytes,
    },
    Service(WrittenMethods),
}

/// The service of a file: the types that it is installed with, and its own.
#[derive(Drop)]
pub struct Main {
    pub tuple: Parts,
    pub service: Part,
}

/// An interface file: the types with parts that are written in it, each after its own parts; the
/// definitions, names and types; and its service, if it has one. Contracts see these.
#[derive(Drop)]
pub struct File {
    pub types: Vec<Written>,
    pub definitions: Vec<(Bytes, Part)>,
    pub main: Option<Main>,
}

impl Model for File {
    ghost use Rattle.cd_grammar.specs.File as files;

    ghost Value = { files.File };

    ghost view = { λ f. record { types = f.types.items; definitions = f.definitions.items; main = f.main } };
}
