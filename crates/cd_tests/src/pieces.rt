use ic_base::NoMemory;
use std::alloc::Global;

/// Bytes, and how often they are there.
pub(crate) type Piece<'a> = (&'a [u8], usize);

fn repeat(bytes: &[u8], times: usize, message: &mut Vec<u8>) -> Result<(), NoMemory> {
    for _ in 0..times {
        message.extend_from_slice(bytes)?;
    }
    Ok(())
}

/// The pieces, one after the other.
pub(crate) fn message_of(alloc: Global, pieces: &[Piece]) -> Result<Vec<u8>, NoMemory> {
    let mut message = Vec::new(alloc);
    for (bytes, times) in pieces {
        repeat(bytes, *times, &mut message)?;
    }
    Ok(message)
}
