use std::marker::Model;

/// A name. Contracts see the list of its bytes, which are UTF-8.
#[derive(Debug, Drop)]
pub struct Name {
    pub items: String,
}

impl Model for Name {
    ghost use Rattle.std.specs.Prelude.{List, ℕ, string_bytes};

    ghost Value = { List ℕ };

    ghost view = { λ n. string_bytes n.items };
}

/// The bytes of a data segment.
#[derive(Debug, Drop)]
pub struct Data {
    pub items: Vec<u8>,
}

impl Model for Data {
    ghost use Rattle.std.specs.Prelude.{List, ℕ};

    ghost Value = { List ℕ };

    ghost view = { λ l. l.items.items };
}

/// Indices of types, functions or labels.
#[derive(Debug, Drop)]
pub struct Indices {
    pub items: Vec<u32>,
}

impl Model for Indices {
    ghost use Rattle.std.specs.Prelude.{List, ℕ};

    ghost Value = { List ℕ };

    ghost view = { λ l. l.items.items };
}
