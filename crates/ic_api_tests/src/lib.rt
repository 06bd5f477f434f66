//! Tests of the System API, beside its crate: a crate with tests of its own is proved twice.
#![tactic(auto)]

#[cfg(test)]
mod machine;
#[cfg(test)]
mod rows;
#[cfg(test)]
mod scripts;
#[cfg(test)]
mod table;
