ghost use Rattle.std.specs.Prelude.{◌≤◌};

/// The most items that room is made for before the first is read. A longer list grows as its items
/// are read: so a count that is claimed takes little memory by itself, however deep lists nest.
const MOST_ROOM: usize = 64;

/// For how many of `count` items room is made before the first is read: at most 64.
pub fn room_for(count: usize) -> usize
    ensures few { result ≤ 64 }
    ensures needed { result ≤ count }
{
    if count < MOST_ROOM { count } else { MOST_ROOM }
}

/// For how many items room is made of a list that claims `count`, where each item but a few kinds takes a byte or more: at most 64.
pub fn room_claimed(count: u128, bytes: &[u8]) -> usize
    ensures { result ≤ 64 }
{
    if count < bytes.len() as u128 {
        room_for(count as usize)
    } else {
        room_for(bytes.len())
    }
}
