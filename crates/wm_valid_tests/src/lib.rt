//! Tests that cross the crates for WebAssembly modules: modules are given as bytes, read, written and
//! validated; and of the validation of bodies alone.
#![tactic(auto)]

#[cfg(test)]
mod answers;
#[cfg(test)]
mod bodies;
#[cfg(test)]
mod bytes;
#[cfg(test)]
mod cases;
#[cfg(test)]
mod classes;
#[cfg(test)]
mod comparing;
#[cfg(test)]
mod decoding;
#[cfg(test)]
mod encoding;
#[cfg(test)]
mod tables;
#[cfg(test)]
mod tests;
