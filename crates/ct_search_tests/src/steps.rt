use ct_search::Machine;
use ic_base::NoMemory;
use std::alloc::Global;

/// A counter that goes up by one, by place 0, or by two, by place 1, as long as it stays below four.
pub struct Steps;

impl Machine for Steps {
    ghost use Rattle.std.specs.Prelude.{◌≤◌};
    ghost use Rattle.ct_search_tests.specs.Steps.{steps, steps_lawful};

    type Keeper = ();

    type Kept = u8;

    type State = u8;

    ghost meaning = { λ machine. steps };

    ghost Holds = { λ keeper kept. kept ≤ 3 };

    ghost state = { λ keeper kept. kept };

    fn moves(&self, alloc: Global, _keeper: &(), kept: &u8) -> Result<Vec<usize>, NoMemory> {
        let mut places = Vec::new(alloc);
        if *kept < 3 {
            places.push(0)?;
        }
        if *kept < 2 {
            places.push(1)?;
        }
        Ok(places)
    }

    fn moved(
        &self,
        _alloc: Global,
        _keeper: &mut (),
        kept: &u8,
        place: usize,
    ) -> Result<u8, NoMemory> {
        let more = if place == 0 { 1 } else { 2 };
        Ok(*kept + more)
    }

    fn key(&self, _keeper: &(), kept: &u8) -> u64 {
        u64::from(*kept)
    }

    fn same(&self, _keeper: &(), kept: &u8, other: &u8) -> bool {
        *kept == *other
    }

    ghost lawful = { λ machine. steps_lawful };
}

#[cfg(test)]
mod tests {
    use super::*;
    use ct_search::{Case, dive, explore};
    use std::test::Fail;

    // What is counted in a case, and by how many moves.
    fn seen(cases: &[Case<u8>], place: usize) -> (u8, usize) {
        match cases.get(place) {
            Some(case) => (case.kept, case.order.len()),
            None => (9, 9),
        }
    }

    // What is counted so far, by the number of moves: 0; 1, 2; 2, 3; 3.
    #[test]
    fn every_order(rt: HostRuntime) -> Result<(), Fail> {
        let alloc = rt.alloc();
        let mut starts = Vec::new(alloc);
        starts.push(0)?;
        let met = explore(alloc, &Steps, &mut (), starts, 6)?;
        assert!(rt; met.all);
        let found = [0, 1, 2, 3, 4, 5].map(|place| seen(&met.cases, place));
        assert_eq!(rt; found, [(0, 0), (1, 1), (2, 1), (2, 2), (3, 2), (3, 3)]);
        Ok(())
    }

    #[test]
    fn one_too_many(rt: HostRuntime) -> Result<(), Fail> {
        let alloc = rt.alloc();
        let mut starts = Vec::new(alloc);
        starts.push(0)?;
        let met = explore(alloc, &Steps, &mut (), starts, 5)?;
        assert!(rt; !met.all);
        assert_eq!(rt; met.cases.len(), 5);
        Ok(())
    }

    // The second start is one with the first; three that is a start and three that is reached are two.
    #[test]
    fn two_starts_that_are_one(rt: HostRuntime) -> Result<(), Fail> {
        let alloc = rt.alloc();
        let starts = Vec::from_slice(alloc, &[2, 2, 3])?;
        let met = explore(alloc, &Steps, &mut (), starts, 6)?;
        assert!(rt; met.all);
        let found = [0, 1, 2, 3].map(|place| seen(&met.cases, place));
        assert_eq!(rt; found, [(2, 0), (3, 0), (3, 1), (9, 9)]);
        Ok(())
    }

    // By ones to three, and then the moves by two, from the last case that has one.
    #[test]
    fn depth_first(rt: HostRuntime) -> Result<(), Fail> {
        let alloc = rt.alloc();
        let starts = Vec::from_slice(alloc, &[0])?;
        let cases = dive(alloc, &Steps, &mut (), starts, 6)?;
        let found = [0, 1, 2, 3, 4, 5].map(|place| seen(&cases, place));
        assert_eq!(rt; found, [(0, 0), (1, 1), (2, 2), (3, 3), (3, 2), (2, 1)]);
        Ok(())
    }
}
