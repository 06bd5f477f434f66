use ct_run::Runner;
use ic_outside::Gate;
use std::alloc::Global;
use std::marker::Model;
use std::thread::Threads;

/// What the tests of a file are run with, and the most cases that an interleave may meet.
#[derive(Drop)]
pub struct Tester<'i, R, G> {
    pub runner: Runner<'i, R, G>,
    pub most: usize,
}

impl<'i, R, G> Model for Tester<'i, R, G> {
    ghost use Rattle.ct_cases.specs.Holding.{Testing};

    ghost Value = { Testing };

    ghost view = { λ t. record { setting = t.runner; most = t.most } };
}

impl<'i, R: Threads + Sync, G: Gate + Sync> Tester<'i, R, G> {
    /// The allocator.
    pub fn alloc(&self) -> Global {
        self.runner.alloc
    }
}
