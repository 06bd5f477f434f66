ghost use Rattle.std.specs.Prelude.{nat_lt};
ghost use Rattle.ic_base.specs.Reader.{byte_at, filter_at};

use ic_base::{Item, NoMemory, ReadError, Stack, many};
use std::alloc::Global;

// A stack of the numbers from 0 on.
fn filled(alloc: Global, count: u32) -> Result<Stack<u32>, NoMemory> {
    let mut stack = Stack::new(alloc);
    for item in 0..count {
        stack.push(item)?;
    }
    Ok(stack)
}

fn at(stack: &Stack<u32>, place: usize) -> Option<u32> {
    stack.nth(place).copied()
}

fn front(stack: &Stack<u32>) -> (usize, Option<u32>, [Option<u32>; 3]) {
    let places = [at(stack, 0), at(stack, 4), at(stack, 5)];
    (stack.len(), stack.top().copied(), places)
}

fn takes_back(stack: &mut Stack<u32>) -> bool {
    let whole = front(stack);
    let popped = stack.pop();
    stack.truncate(9);
    let left = stack.len();
    stack.truncate(1);
    let last = [stack.pop(), stack.pop(), stack.top().copied()];
    whole == (5, Some(4), [Some(4), Some(0), None])
        && (popped, left) == (Some(4), 4)
        && last == [Some(0), None, None]
}

fn goes_once_through(alloc: Global) -> bool {
    match filled(alloc, 5) {
        Ok(mut stack) => takes_back(&mut stack),
        Err(_) => false,
    }
}

fn begins_empty(alloc: Global) -> bool {
    Stack::<u32>::new(alloc).is_empty()
}

#[test]
fn stack_once_through(rt: HostRuntime) {
    assert!(rt; begins_empty(rt.alloc()) && goes_once_through(rt.alloc()));
}

fn too_large(alloc: Global) -> Result<Vec<u8>, ReadError> {
    let items = Vec::with_capacity(alloc, usize::MAX)?;
    Ok(items)
}

#[test]
fn no_memory_by_question_mark(rt: HostRuntime) {
    assert!(rt; matches!(too_large(rt.alloc()), Err(ReadError::NoMemory)));
}

#[derive(Drop)]
struct Limit {
    above: u8,
}

// A byte below the limit.
impl Item<Limit> for u8 {
    ghost reading = { λ limit. filter_at (λ byte. nat_lt byte limit.above) byte_at };

    fn read<'a>(
        _alloc: Global,
        limit: &Limit,
        bytes: &'a [u8],
    ) -> Result<(u8, &'a [u8]), ReadError> {
        match bytes {
            [byte, rest @ ..] if *byte < limit.above => Ok((*byte, rest)),
            _ => Err(ReadError::Refused),
        }
    }
}

const BYTES: [u8; 4] = [1, 2, 9, 3];

fn two_are_read(alloc: Global) -> bool {
    match many::<Limit, u8>(alloc, &Limit { above: 9 }, 2, &BYTES) {
        Ok((items, rest)) => items.as_slice() == [1, 2].as_slice() && rest == [9, 3].as_slice(),
        Err(_) => false,
    }
}

fn are_refused(alloc: Global, above: u8, count: u128) -> bool {
    match many::<Limit, u8>(alloc, &Limit { above }, count, &BYTES) {
        Ok(_) => false,
        Err(fault) => matches!(fault, ReadError::Refused),
    }
}

#[test]
fn many_of_a_type(rt: HostRuntime) {
    let alloc = rt.alloc();
    let refused = [(9, 3), (10, 5), (10, u128::MAX)].map(|(above, count)| are_refused(
        alloc, above, count,
    ));
    assert!(rt; two_are_read(alloc) && refused == [true; 3]);
}
