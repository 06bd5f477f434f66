//! Tests of the crates of Candid, beside them: a crate with tests of its own is proved twice.
#![tactic(auto)]

#[cfg(test)]
mod coercions;
#[cfg(test)]
mod faults;
#[cfg(test)]
mod file_limits;
#[cfg(test)]
mod files;
#[cfg(test)]
mod leb128;
#[cfg(test)]
mod limits;
#[cfg(test)]
mod messages;
#[cfg(test)]
mod methods;
#[cfg(test)]
mod named;
#[cfg(test)]
mod names;
#[cfg(test)]
mod numbers;
#[cfg(test)]
mod parts;
#[cfg(test)]
mod pieces;
#[cfg(test)]
mod places;
#[cfg(test)]
mod rows;
#[cfg(test)]
mod sketch;
#[cfg(test)]
mod strings;
#[cfg(test)]
mod subtypes;
#[cfg(test)]
mod table_parts;
#[cfg(test)]
mod tables;
#[cfg(test)]
mod upgrades;
#[cfg(test)]
mod wholes;
