//! Candid types (Candid specification, "Types" and "Type Table"): the primitive types, the entries
//! of a type table, and tables that are well formed by their type. Every reference of a
//! `TypeTable` has an entry, ids and method names strictly rise, and each method is a function.
#![tactic(auto)]

mod entry;
mod faults;
mod label;
mod primitive;
mod table;

pub use entry::{Entry, Fields, Methods, TyRef, TyRefs};
pub use label::{field_id, field_id_of_bytes};
pub use primitive::{Prim, Primitive};
pub use table::{TableFault, TypeTable};
