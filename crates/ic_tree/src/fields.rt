ghost use Rattle.std.specs.Prelude.{◌≡◌, ◌++◌, ◌≤◌, [], IfOk, OnOk, length};
ghost use Rattle.std.specs.List.{concat, insert};
ghost use Rattle.sha2.specs.Sha256.{sha256};
ghost use Rattle.ic_leb.specs.Spelling.{unsigned_spelling};
ghost use Rattle.ic_tree.specs.RequestId.{pair_of, put_in_order, request_id_of};

use ic_base::NoMemory;
use ic_leb::write_u;
use ic_principal::{Bytes, Text};
use sha2::{Digest, Sha256};
use std::alloc::Global;
use std::marker::Model;

/// A value in a request.
#[derive(Debug, Drop)]
pub enum Field {
    Bytes(Bytes),
    /// It is hashed as its LEB128 bytes.
    Number(u64),
}

/// The id of the request with these fields, whose keys are names of their own: the hash of a map
/// that does not depend on the order of its fields. A key that comes twice counts twice.
pub fn request_id(alloc: Global, fields: &[(Text, Field)]) -> Result<[u8; 32], NoMemory>
    ensures { IfOk result (λ id. id ≡ request_id_of fields.now) }
{
    let mut pairs = Pairs::new(alloc);
    for field in fields {
        pairs.put_field(alloc, field.0.items.as_str(), &field.1)?;
    }
    Ok(pairs.hash())
}

/// The hashes of keys, each with that of its value, in rising order. Contracts see the list.
#[derive(Drop)]
pub struct Pairs {
    items: Vec<Bytes>,
}

impl Model for Pairs {
    ghost use Rattle.std.specs.Prelude.{List, ℕ};

    ghost Value = { List (List ℕ) };

    ghost view = { λ p. p.items.items };
}

impl Pairs {
    /// No pair.
    pub fn new(alloc: Global) -> Pairs
        ensures { result ≡ [] }
    {
        Pairs {
            items: Vec::new(alloc),
        }
    }

    /// Puts a field among the others. After `NoMemory` they are as before.
    pub fn put_field(&mut self, alloc: Global, key: &str, value: &Field) -> Result<(), NoMemory>
        ensures { OnOk result (self.new ≡ put_in_order (pair_of (key.now, value.now)) self.old) }
    {
        match value {
            Field::Bytes(bytes) => self.put_bytes(alloc, key, &bytes.items),
            Field::Number(number) => self.put_number(alloc, key, *number),
        }
    }

    /// Puts a field of bytes, which are lent, among the others. After `NoMemory` they are as before.
    pub fn put_bytes(&mut self, alloc: Global, key: &str, value: &[u8]) -> Result<(), NoMemory>
        ensures { OnOk result (self.new ≡ put_in_order (sha256 key.now ++ sha256 value.now) self.old) }
    {
        self.put(alloc, key, &Sha256::digest(value))
    }

    /// Puts a field of a number among the others. After `NoMemory` they are as before.
    pub fn put_number(&mut self, alloc: Global, key: &str, value: u64) -> Result<(), NoMemory>
        ensures { OnOk result (self.new ≡ put_in_order (sha256 key.now ++ sha256 (unsigned_spelling value)) self.old) }
    {
        let mut bytes = Vec::new(alloc);
        write_u(value as u128, &mut bytes)?;
        self.put_bytes(alloc, key, bytes.as_slice())
    }

    // Puts the hash of a key and of its value after the pairs that are not above them.
    fn put(&mut self, alloc: Global, key: &str, value_hash: &[u8; 32]) -> Result<(), NoMemory>
        ensures { OnOk result (self.new ≡ put_in_order (sha256 key.now ++ value_hash.now) self.old) }
    {
        let key_hash: [u8; 32] = Sha256::digest(key.as_bytes());
        let mut items = Vec::with_capacity(alloc, 64)?;
        items.extend_from_slice(key_hash.as_slice())?;
        items.extend_from_slice(value_hash.as_slice())?;
        let pair = Bytes { items };
        let at = place(&self.items, &pair);
        self.items.insert(at, pair)?;
        Ok(())
    }

    /// The hash of the pairs, one after another.
    pub fn hash(&self) -> [u8; 32]
        ensures { result ≡ sha256 (concat self.now) }
    {
        let mut hasher = Sha256::new();
        for pair in &self.items {
            hasher.update(pair.items.as_slice());
        }
        hasher.finalize()
    }
}

// The index of the first pair above this one.
fn place(pairs: &[Bytes], pair: &Bytes) -> usize
    ensures within { result ≤ length pairs.now }
    ensures place { insert pairs.now result pair.now ≡ put_in_order pair.now pairs.now }
{
    for (at, other) in pairs.iter().enumerate() {
        if pair.items.as_slice().cmp(other.items.as_slice()).is_lt() {
            return at;
        }
    }
    pairs.len()
}
