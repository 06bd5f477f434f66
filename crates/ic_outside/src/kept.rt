ghost use Rattle.std.specs.Prelude.{◌≡◌, ◌≤◌, List, ℕ, ◌++◌, drop, length, vec_len, OnOk, OnErr};

use ic_base::NoMemory;
use std::marker::Model;

/// Bytes that come at the back and go at the front. Contracts see the list.
#[derive(Drop)]
pub struct Kept {
    bytes: Vec<u8>,
    start: usize,
}

impl Model for Kept {
    ghost use Rattle.std.specs.Prelude.{List, ℕ, ◌≤◌, drop, vec_len};

    ghost Value = { List ℕ };

    ghost view = { λ k. drop k.start k.bytes.items };

    ghost invariant = { λ k. k.start ≤ vec_len k.bytes };
}

impl Kept {
    pub fn from_vec(bytes: Vec<u8>) -> Kept
        ensures { result ≡ bytes.items }
    {
        Kept { bytes, start: 0 }
    }

    pub fn as_slice(&self) -> &[u8]
        ensures { result.now ≡ self.now }
    {
        &self.bytes[self.start..]
    }

    /// Lets the first bytes go.
    pub fn take(&mut self, count: usize)
        requires { count ≤ length self.old }
        ensures { self.new ≡ drop count self.old }
    {
        self.start += count;
    }

    /// Puts bytes after the others. What was let go is removed first, so a byte is moved at most
    /// once for each time that all before it were let go.
    pub fn push(&mut self, bytes: &[u8]) -> Result<(), NoMemory>
        ensures ok { OnOk result (self.new ≡ self.old ++ bytes.now) }
        ensures err { OnErr result (self.new ≡ self.old) }
    {
        remove_front(&mut self.bytes, self.start);
        self.start = 0;
        self.bytes.extend_from_slice(bytes)
    }
}

// Removes the first bytes. Where there are none to remove nothing is moved.
fn remove_front(bytes: &mut Vec<u8>, count: usize)
    requires { count ≤ vec_len bytes.old }
    ensures { bytes.new.items ≡ drop count bytes.old.items }
{
    if count > 0 {
        bytes.drain(..count);
    }
}
