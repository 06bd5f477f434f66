//! Tests of rounds, of picks and of the world's calls, beside their crates: a crate with tests of its own is proved twice.
//! They are in one crate, since each crate that drops a world proves once more how that is done.
#![tactic(auto)]

#[cfg(test)]
mod asking;
#[cfg(test)]
mod canisters;
#[cfg(test)]
mod digest;
#[cfg(test)]
mod picks;
#[cfg(test)]
mod queues;
#[cfg(test)]
mod relays;
#[cfg(test)]
mod rows;
