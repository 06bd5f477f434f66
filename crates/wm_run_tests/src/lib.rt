//! Tests of what runs WebAssembly, beside its crates: a crate with tests of its own is proved twice.
#![tactic(auto)]

#[cfg(test)]
mod meters;
#[cfg(test)]
mod pages;
#[cfg(test)]
mod runs;
