ghost use Rattle.std.specs.Prelude.{◌≡◌, IfOk, length, slice_get};
ghost use Rattle.wm_typing.specs.Locals.{locals_of};

use ic_base::NoMemory;
use std::alloc::{AllocError, Global};
use std::marker::Model;
use wm_tree::{Run, ValType};

/// The locals of a function, without its parameters. They stay in the runs that they are written
/// in, with where each ends; contracts see their types.
#[derive(Debug, Drop)]
pub struct Locals<'a> {
    runs: &'a [Run],
    // How many locals there are up to the end of each run.
    ends: Vec<u32>,
    len: u32,
}

impl<'a> Model for Locals<'a> {
    ghost use Rattle.std.specs.Prelude.{◌≡◌, List, length};
    ghost use Rattle.wm_tree.specs.declared.types.ValType.{ValType};
    ghost use Rattle.wm_typing.specs.Locals.{locals_of, ends_of};

    ghost Value = { List ValType };

    ghost view = { λ l. locals_of l.runs.now };

    ghost invariant = { λ l. (l.ends.items ≡ ends_of 0 l.runs.now)
        × (l.len ≡ length (locals_of l.runs.now)) };
}

impl<'a> Locals<'a> {
    /// The locals of these runs. More than 2^32 - 1 count as out of memory.
    pub fn of(alloc: Global, runs: &'a [Run]) -> Result<Locals<'a>, NoMemory>
        ensures { IfOk result (λ locals. locals ≡ locals_of runs.now) }
    {
        let mut ends = Vec::with_capacity(alloc, runs.len())?;
        let mut len: u32 = 0;
        for run in runs {
            len = len.checked_add(run.count).ok_or(AllocError)?;
            ends.push(len)?;
        }
        Ok(Locals { runs, ends, len })
    }

    /// How many locals there are.
    pub(crate) fn len(&self) -> u32
        ensures { result ≡ length self.now }
    {
        self.len
    }

    /// The type of a local, counted from 0 after the parameters.
    pub(crate) fn get(&self, number: usize) -> Option<ValType>
        ensures { result ≡ slice_get self.now number }
    {
        let run = self.ends.partition_point(|end| *end as usize <= number);
        match self.runs.get(run) {
            Some(run) => Some(run.kind),
            None => None,
        }
    }
}
