ghost use Rattle.std.specs.Prelude.{◌≡◌, IfOk};
ghost use Rattle.std.specs.Arc.{arc_value};

use crate::exact::{Exact, Same};
use ic_base::NoMemory;
use std::alloc::Global;
use std::marker::Model;
use std::sync::Arc;

/// A value in a place that others share. Contracts see the value.
#[derive(Debug, Drop)]
pub struct Shared<T> {
    inner: Arc<T>,
}

impl<T> Model for Shared<T> {
    ghost use Rattle.std.specs.Arc.{arc_value};

    ghost Value = { T };

    ghost view = { λ s. arc_value s.inner };
}

impl<T> Shared<T> {
    /// Moves the value to a place.
    pub fn new(alloc: Global, value: T) -> Result<Shared<T>, NoMemory>
    where
        T: Drop,
        ensures { IfOk result (λ place. place ≡ value) }
    {
        let inner = Arc::new(alloc, value)?;
        Ok(Shared { inner })
    }

    /// The value.
    pub fn get(&self) -> &T
        ensures { result.now ≡ self.now }
    {
        &self.inner
    }

    /// A second handle of the place. It takes no memory; `NoMemory` comes where 2^63 handles share it.
    pub fn share(&self) -> Result<Shared<T>, NoMemory>
        ensures { IfOk result (λ place. place ≡ self.now) }
    {
        let inner = Arc::try_clone(&self.inner)?;
        Ok(Shared { inner })
    }
}

impl<T: Same> Same for Shared<T> {
    fn same(&self, other: &Shared<T>) -> bool {
        self.get().same(other.get())
    }
}

impl<T: Same + Drop> Exact for Shared<T> {
    fn copy(&self, _alloc: Global) -> Result<Shared<T>, NoMemory> {
        self.share()
    }
}

/// A place with an equal value. It is the first or the second of the places near, where one of these has
/// it, and else a new one. What follows that place is near the next value.
fn placed<'a, T: Exact>(
    alloc: Global,
    value: &T,
    near: &'a [Shared<T>],
) -> Result<(Shared<T>, &'a [Shared<T>]), NoMemory>
    ensures { IfOk result (λ r. r.0 ≡ value.now) }
{
    if let Some((first, others)) = near.split_first() {
        if first.get().same(value) {
            return Ok((first.share()?, others));
        }
        if let Some((second, others)) = others.split_first() {
            if second.get().same(value) {
                return Ok((second.share()?, others));
            }
        }
    }
    Ok((Shared::new(alloc, value.copy(alloc)?)?, near))
}

/// Places with equal values. Values that are in `near`, in the same order (some may be left out), keep
/// these places.
pub fn shared_items<T: Exact>(
    alloc: Global,
    values: &[T],
    near: &[Shared<T>],
) -> Result<Vec<Shared<T>>, NoMemory>
    ensures { IfOk result (λ places. places.items ≡ values.now) }
{
    let mut places = Vec::with_capacity(alloc, values.len())?;
    let mut near = near;
    for value in values {
        let (place, others) = placed(alloc, value, near)?;
        places.push(place)?;
        near = others;
    }
    Ok(places)
}

/// Equal values, in memory of their own.
pub fn unshared<T: Exact>(alloc: Global, places: &[Shared<T>]) -> Result<Vec<T>, NoMemory>
    ensures { IfOk result (λ values. values.items ≡ places.now) }
{
    let mut values = Vec::with_capacity(alloc, places.len())?;
    for place in places {
        values.push(place.get().copy(alloc)?)?;
    }
    Ok(values)
}
