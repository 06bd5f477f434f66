//! Candid values as text (Candid specification, "Core Grammar").
#![tactic(auto)]

mod back;
mod fault;
mod fields;
pub mod laws;
mod place;
mod reading;
mod walk;
mod whole;

pub use back::{read_back, read_named_back};
pub use cd_plain::{print, print_named};
pub use fault::TextFault;
pub use fields::find as find_field;
pub use place::fault_place;
pub use reading::{name_of as type_name, without_null};
pub use whole::{read, read_tokens};
