ghost use Rattle.std.specs.Prelude.{◌≡◌, ◌++◌, map, All, IfOk, OnOk};
ghost use Rattle.std.specs.Bool.{OnTrue, OnFalse};
ghost use Rattle.std.specs.List.{AllByRecursion};
ghost use Rattle.ct_search.specs.Visits.{IsVisit, IsComplete, IsMore};
ghost use Rattle.ct_search.specs.Search.{all_seen, AreHeld};
ghost use Rattle.ct_worlds.specs.Worlds.{worlds, IsKeptNamed, named_at};
ghost use Rattle.ct_cases.specs.Cases.{Grows, order_at};

use crate::case::{Case, Tables};
use crate::tester::Tester;
use ct_search::{Case as Met, dive, explore};
use ct_worlds::{NamedWorld, Worlds};
use ic_base::NoMemory;
use ic_outside::Gate;
use std::alloc::Global;
use std::thread::Threads;

/// The cases that are met in an interleave, and whether these are all.
#[derive(Drop)]
pub(crate) struct Search {
    pub(crate) cases: Vec<Met<NamedWorld>>,
    pub(crate) all: bool,
}

fn copied_start(alloc: Global, start: &NamedWorld) -> Result<NamedWorld, NoMemory>
    ensures { IfOk result (λ copy. copy ≡ start.now) }
{
    Ok(NamedWorld {
        names: start.names,
        kept: start.kept.copy(alloc)?,
    })
}

fn copied(alloc: Global, starts: &[NamedWorld]) -> Result<Vec<NamedWorld>, NoMemory>
    ensures { IfOk result (λ copy. copy.items ≡ starts.now) }
{
    let mut items = Vec::with_capacity(alloc, starts.len())?;
    for start in starts {
        items.push(copied_start(alloc, start)?)?;
    }
    Ok(items)
}

/// The order with the places of another after it.
pub fn longer(alloc: Global, order: &[usize], more: &[usize]) -> Result<Vec<usize>, NoMemory>
    ensures { IfOk result (λ whole. whole.items ≡ order.now ++ more.now) }
{
    let mut whole = Vec::new(alloc);
    whole.extend_from_slice(order)?;
    whole.extend_from_slice(more)?;
    Ok(whole)
}

/// The order that leads to a case, which is met after one of these.
pub(crate) fn order_of(
    alloc: Global,
    cases: &[Case],
    met: &Met<NamedWorld>,
) -> Result<Vec<usize>, NoMemory>
    ensures { IfOk result (λ order. order.items ≡ order_at cases.now met.now.start ++ met.now.order.items) }
{
    let before = match cases.get(met.start) {
        None => &[],
        Some(case) => case.order.as_slice(),
    };
    longer(alloc, before, &met.order)
}

impl<'i, R: Threads + Sync, G: Gate + Sync> Tester<'i, R, G> {
    // What is searched.
    fn worlds(&self) -> Worlds
        ensures { result.charge ≡ self.now.setting.charge }
    {
        Worlds {
            charge: self.runner.charge,
        }
    }

    /// Meets the cases after these, breadth first, and where they are too many some of them anew, depth first.
    pub(crate) fn search(
        &self,
        tables: &mut Tables,
        starts: Vec<NamedWorld>,
    ) -> Result<Search, NoMemory>
        requires { AllByRecursion (IsKeptNamed tables.old.keeper) starts.items }
        ensures grows { OnOk result (Grows tables.old tables.new) }
        ensures meanings { OnOk result (tables.new.meanings ≡ tables.old.meanings) }
        ensures held { IfOk result (λ found. AreHeld IsKeptNamed tables.new.keeper found.cases.items) }
        ensures sound { IfOk result (λ found. All (IsVisit (worlds self.now.setting.charge.limit self.now.setting.charge.price) (map (named_at tables.old.keeper) starts.items)) (all_seen named_at tables.new.keeper found.cases.items)) }
        ensures complete { IfOk result (λ found. OnTrue found.all (IsComplete (worlds self.now.setting.charge.limit self.now.setting.charge.price) (map (named_at tables.old.keeper) starts.items) (all_seen named_at tables.new.keeper found.cases.items))) }
        ensures more { IfOk result (λ found. OnFalse found.all (IsMore (worlds self.now.setting.charge.limit self.now.setting.charge.price) (map (named_at tables.old.keeper) starts.items) self.now.most)) }
    {
        let alloc = self.alloc();
        let worlds = self.worlds();
        let again = copied(alloc, &starts)?;
        let met = explore(alloc, &worlds, &mut tables.keeper, starts, self.most)?;
        let mut cases = met.cases;
        if met.all {
            return Ok(Search { cases, all: true });
        }
        let mut others = dive(alloc, &worlds, &mut tables.keeper, again, self.most)?;
        cases.append(&mut others)?;
        Ok(Search { cases, all: false })
    }
}
