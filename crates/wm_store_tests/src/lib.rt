//! Tests of stores and of instantiation, beside their crates: a crate with tests of its own is
//! proved twice.
#![tactic(auto)]

#[cfg(test)]
mod calls;
#[cfg(test)]
mod instances;
#[cfg(test)]
mod messages;
#[cfg(test)]
mod stores;
