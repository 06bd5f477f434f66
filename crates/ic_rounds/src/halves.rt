// Workers that work side by side.
ghost use Rattle.std.specs.Prelude.{◌<◌, length, All};
ghost use Rattle.std.specs.List.{AllZip};
ghost use Rattle.std.specs.Thread.{IsSync};
ghost use denote.Param.Send.{IsSend};

use std::thread::{Threads, join_mut};

/// What a worker does, with what all of them share.
pub trait Work<S> {
    ghost ready: { S → Self → Type 0 };
    // Of the worker before and after.
    ghost did: { S → Self → Self → Type 0 };

    fn work(&mut self, shared: &S)
        requires { ready shared.now self.old }
        ensures { did shared.now self.old self.new };
}

/// All work, by halves of the list side by side.
#[cycle(halves)]
pub fn all_work<R: Threads + Sync, S: Sync, W: Work<S> + Send>(
    rt: &R,
    shared: &S,
    workers: &mut [W],
)
    requires { All (W.ready shared.now) workers.old }
    ensures { AllZip (W.did shared.now) workers.old workers.new }
{
    if workers.len() == 0 {
        return;
    }
    if workers.len() == 1 {
        workers[0].work(shared);
        return;
    }
    let (front, back) = workers.split_at_mut(workers.len() / 2);
    both_halves(rt, shared, front, back);
}

// A function of its own, so that what the closures require is what it is given.
#[cycle(halves)]
fn both_halves<R: Threads + Sync, S: Sync, W: Work<S> + Send>(
    rt: &R,
    shared: &S,
    front: &mut [W],
    back: &mut [W],
)
    requires some { (0 < length front.old) × (0 < length back.old) }
    requires front { All (W.ready shared.now) front.old }
    requires back { All (W.ready shared.now) back.old }
    ensures front { AllZip (W.did shared.now) front.old front.new }
    ensures back { AllZip (W.did shared.now) back.old back.new }
{
    let mut first = ||
        requires { IsSync R.row × IsSync S.row × IsSend W.row × All (W.ready shared.now) front.now }
        ensures { AllZip (W.did shared.entry.now) front.entry.now front.exit.now }
    { all_work(rt, shared, front) };
    let mut second = ||
        requires { IsSync R.row × IsSync S.row × IsSend W.row × All (W.ready shared.now) back.now }
        ensures { AllZip (W.did shared.entry.now) back.entry.now back.exit.now }
    { all_work(rt, shared, back) };
    join_mut(rt, &mut first, &mut second);
}
