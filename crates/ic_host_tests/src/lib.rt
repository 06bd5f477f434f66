//! Tests of the crates of the host, beside them: a crate with tests of its own is proved twice.
//!
//! Functions without a contract give the tables, and a function that borrows asks about a value that is
//! dropped: written out in a test, both would be long to prove.
#![tactic(auto)]

#[cfg(test)]
mod failing_streams;
#[cfg(test)]
mod installing;
#[cfg(test)]
mod principals;
#[cfg(test)]
mod running;
#[cfg(test)]
mod standard_streams;
#[cfg(test)]
mod streams;
#[cfg(test)]
mod top_call;
