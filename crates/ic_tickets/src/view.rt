// What the rule speaks of besides the words and slots. No value of `View` is made.
use std::collections::LinkedList;
use std::snapshot::Snapshot;

// What the table is told when it is made.
#[derive(Drop)]
pub struct Lot<T> {
    pub items: Snapshot<Vec<T>>,
    pub workers: u32,
}

// What a pass knows: the items, the numbers that it drew, how many passes it stands for, and how many
// of these have ended.
pub struct View<T> {
    pub items: LinkedList<T>,
    pub numbers: LinkedList<u64>,
    pub share: u64,
    pub ends: u64,
}
