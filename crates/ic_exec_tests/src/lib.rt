//! Tests of the execution of messages, beside its crate: a crate with tests of its own is proved
//! twice.
#![tactic(auto)]

#[cfg(test)]
mod canisters;
#[cfg(test)]
mod installs;
#[cfg(test)]
mod keeper;
#[cfg(test)]
mod rows;
#[cfg(test)]
mod tests;
