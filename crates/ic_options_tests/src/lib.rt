//! Tests of the shared tools, of the words of the command line and of generated scripts, beside their crates: a crate with
//! tests of its own is proved twice.
#![tactic(auto)]

#[cfg(test)]
mod generated;
#[cfg(test)]
mod tests;
#[cfg(test)]
mod tools;
