ghost use Rattle.std.specs.Prelude.{ℕ, List, Option, IfOk};

use ic_base::NoMemory;
use ic_principal::Bytes;
use std::alloc::{AllocError, Global};
use std::fs::{self, Files};
use std::io::ErrorKind;

/// What files hold.
pub trait Disk {
    // The disk may give this for the path of a file: its bytes, or nothing where it cannot be read.
    ghost gives: { Self → List ℕ → Option (List ℕ) → Type 0 };

    /// The bytes of the file with a path; `None`: it could not be read.
    fn read(&self, alloc: Global, path: &str) -> Result<Option<Bytes>, NoMemory>
        ensures { IfOk result (λ found. gives self.now path.now found) };
}

/// The files of the system. Contracts are told nothing of what they hold.
#[derive(Drop)]
pub struct StdDisk<'r, R> {
    pub rt: &'r R,
}

impl<'r, R: Files + Alloc<A = Global>> Disk for StdDisk<'r, R> {
    ghost gives = { λ _ _ _. Unit {0} };

    fn read(&self, _alloc: Global, path: &str) -> Result<Option<Bytes>, NoMemory> {
        match fs::read(self.rt, path) {
            Ok(items) => Ok(Some(Bytes { items })),
            Err(error) if error.kind() == ErrorKind::OutOfMemory => Err(AllocError),
            Err(_) => Ok(None),
        }
    }
}
