//! Rounds over queues against rounds over the list: the same calls, in the same order, leave the same. And what is heard
//! in rounds.

mod asks;
mod dice;
mod heard;
mod module;
mod talker;
mod tests;
mod worlds;
