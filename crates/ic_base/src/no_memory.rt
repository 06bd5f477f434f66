use std::alloc::AllocError;

/// Out of memory: the one failure that no input explains. It is std's error under a name of its
/// own, so that `?` carries it through every layer.
pub type NoMemory = AllocError;
