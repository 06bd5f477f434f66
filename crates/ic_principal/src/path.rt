use crate::Bytes;
use std::marker::Model;

/// A path into a hash tree (IC Interface Specification, "Lookup"): a list of labels, from the root down. Contracts see the list.
#[derive(Debug, Drop)]
pub struct Path {
    pub labels: Vec<Bytes>,
}

impl Model for Path {
    ghost use Rattle.std.specs.Prelude.{List, ℕ};

    ghost Value = { List (List ℕ) };

    ghost view = { λ path. path.labels.items };
}
