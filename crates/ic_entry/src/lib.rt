//! Entry points: a canister's code is entered, for a message, a query, an inspection or an installation.
//!
//! Code is entered at one place (`entering`): the store begins, the code runs with the System API of
//! `ic_api`, and what it did is kept or undone. Queries and inspections are what users ask without a
//! call. `install` runs several entry points on one meter.
#![tactic(auto)]

mod asking;
mod entering;
mod installing;
mod placing;
mod staging;
mod upgrading;
mod views;

pub use asking::{inspect, inspects, query};
pub use entering::{Entered, Entry, attempt};
pub use ic_behaviour::{InstallFault, Mode};
pub use installing::{Installed, Order, install, install_in};
pub use placing::place_code;
pub use views::{Copies, copy_for_view, view_in, with_answer, with_call};
