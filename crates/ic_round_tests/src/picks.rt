//! Picks, and the world's calls.

mod keeping;
mod managing;
mod orders;
mod searching;
mod tests;
mod worlds;
