//! Tests of workers, beside their crates: what no clause says of the phase that workers share, and another
//! body under the same contract, which shows that no clause says it.
#![tactic(auto)]

#[cfg(test)]
mod canisters;
#[cfg(test)]
mod chunks;
#[cfg(test)]
mod gates;
#[cfg(test)]
mod tests;
#[cfg(test)]
mod worlds;
